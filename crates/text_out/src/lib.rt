// Text in a lent slice, from a place on. What is past the slice's end is left out, and the place that a function answers counts it all the same.
#![tactic(auto)]

ghost use Rattle.std.specs.Prelude.{◌≡◌, ◌+◌, ◌≤◌, ◌<◌, length, set};
ghost use Rattle.text_out.specs.Text.{decimal, Puts};

// One byte at place i, where there is one.
fn put_byte(out: &mut [u8], i: usize, b: u8)
    ensures { out.new ≡ set out.old i b }
{
    if i < out.len() {
        out[i] = b;
    }
}

// A text from place i on: answers the place behind it.
pub fn put_text(out: &mut [u8], i: usize, text: &[u8]) -> usize
    requires { i + length text.now < 9_223_372_036_854_775_808 }
    ensures { Puts out.old i text.now out.new result }
{
    for (k, b) in text.iter().enumerate() {
        put_byte(out, i + k, *b);
    }
    i + text.len()
}

// A number's decimal digits.
pub fn put_decimal(out: &mut [u8], i: usize, n: u64) -> usize
    requires { i < 9_000_000_000_000_000_000 }
    ensures { Puts out.old i (decimal n) out.new result × (result ≤ i + 20) }
{
    let mut text = [0u8; 20];
    let k = io::decimal(n, &mut text);
    put_text(out, i, &text[..k])
}
