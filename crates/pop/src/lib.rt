// A pop of the queue: the least event is taken out, and a live window that it names is no more queued.
#![tactic(auto)]

ghost use Rattle.std.specs.Prelude.{◌≡◌};
ghost use Rattle.heap.specs.Queue.{queue, popping};
ghost use Rattle.pop.specs.Words.{is_pending, claimed, item_pending, item_claimed, taken_of, words_after};
ghost use Rattle.buffers.specs.Lent.{given, left};

use buffers::{WindowId, read_u32};
use heap::{Event, Item};
use layout::{ALIVE_FLAG, QUEUED_FLAG, WINDOW_FLAGS, WORDS_PER_WINDOW};

// The event that a pop takes out, how many are queued still, and whether it names a window that was alive and queued.
#[derive(Clone, Copy)]
pub struct Taken {
    pub event: Event,
    pub queued: u32,
    pub pending: bool,
}

// Whether window id is one of the first `made`, alive and queued. Such a one is queued no more.
pub fn claim(words: &mut [u32], made: u32, id: WindowId) -> bool
    ensures { (result ≡ is_pending made (given words) id.0) × (left words ≡ claimed made (given words) id.0) }
{
    if id.0 < made {
        let flags = read_u32(words, WORDS_PER_WINDOW, id.0, WINDOW_FLAGS);
        if windows::has_flag(flags, ALIVE_FLAG) {
            if windows::has_flag(flags, QUEUED_FLAG) {
                windows::store_flags(words, id, true, false);
                return true;
            }
            return false;
        }
        return false;
    }
    false
}

// The same of an event's item: a vertex is none.
fn claim_item(words: &mut [u32], made: u32, item: Item) -> bool
    ensures { (result ≡ item_pending made (given words) item) × (left words ≡ item_claimed made (given words) item) }
{
    match item {
        Item::Window(id) => claim(words, made, id),
        Item::Vertex(_) => false,
    }
}

// The least of `queued` events is taken out, where `made` windows are made.
pub fn pop(
    words: &mut [u32],
    keys: &mut [f64],
    events: &mut [u32],
    made: u32,
    queued: u32,
) -> Option<Taken>
    ensures { (result ≡ taken_of made (given words) (popping (queue (given keys) (given events)) queued).0)
        × ((left words ≡ words_after made (given words) (popping (queue (given keys) (given events)) queued).0)
        × (queue (left keys) (left events) ≡ (popping (queue (given keys) (given events)) queued).1)) }
{
    let (event, left) = heap::pop(keys, events, queued)?;
    let pending = claim_item(words, made, event.item);
    Some(Taken {
        event,
        queued: left,
        pending,
    })
}
