// The operations of a list of candidates, pops and touches: read and checked.
#![tactic(auto)]

ghost use Rattle.std.specs.Prelude.{◌≡◌};
ghost use Rattle.trim_operations.specs.Operations.{is_queued, source_at, new_window_at, operation_at, as_operation};
ghost use Rattle.trim_operations.specs.declared.OperationRefusal.TheVariants.{NoSlot};
ghost use Rattle.trim_operations.specs.Run.{has_length, is_on_edge};
ghost use Rattle.trim_operations.specs.Represents.{refusal_number, checked_number, CheckedCandidate};

use buffers::{EdgeId, FaceId, Lack, VertexId, lack_number, read_f64, read_u32};
use layout::{
    OPERATION_B0, OPERATION_B1, OPERATION_INTO, OPERATION_KIND, OPERATION_NUMBER, OPERATION_QUEUED,
    OPERATION_S0, OPERATION_S1, OPERATION_S2, REALS_PER_OPERATION, WORDS_PER_OPERATION,
};
pub use pop as of_pop;
use source::Src;
use windows::{Carried, NewWindow};

// An operation that was read. A window is to be added to an edge.
#[derive(Clone, Copy)]
pub enum Op {
    Add(EdgeId, NewWindow),
    Pop,
    Touch(VertexId, f64),
    Unknown,
}

// Why an operation is refused: its kind is unknown; its edge is not there or has no finite length above zero; an end is no number from 0 to the
// edge's length; its vertex is not there; or what there is no slot for.
#[derive(Clone, Copy)]
pub enum OperationRefusal {
    UnknownKind,
    NoEdge,
    EndOutside,
    NoVertex,
    NoSlot(Lack),
}

impl From<Lack> for OperationRefusal {
    ghost from_gives = { λ lack refusal. refusal ≡ NoSlot lack };

    fn from(lack: Lack) -> OperationRefusal {
        OperationRefusal::NoSlot(lack)
    }
}

// A refusal as the number that programs in C and Rust are told.
pub fn refusal_number(refusal: OperationRefusal) -> u32
    ensures { result ≡ refusal_number refusal }
{
    match refusal {
        OperationRefusal::UnknownKind => 70,
        OperationRefusal::NoEdge => 71,
        OperationRefusal::EndOutside => 72,
        OperationRefusal::NoVertex => 73,
        OperationRefusal::NoSlot(lack) => lack_number(lack),
    }
}

fn source_at(args: &[f64], k: u32, line: bool) -> Src
    ensures { result ≡ source_at args.now k line }
{
    let s0 = read_f64(args, REALS_PER_OPERATION, k, OPERATION_S0);
    let s1 = read_f64(args, REALS_PER_OPERATION, k, OPERATION_S1);
    let s2 = read_f64(args, REALS_PER_OPERATION, k, OPERATION_S2);
    if line {
        return Src::Line {
            ux: s0,
            uy: s1,
            c: s2,
        };
    }
    Src::Point {
        x: s0,
        y: s1,
        s: s2,
    }
}

fn is_queued(ops: &[u32], k: u32) -> bool
    ensures { result ≡ is_queued ops.now k }
{
    if read_u32(ops, WORDS_PER_OPERATION, k, OPERATION_QUEUED) == 1 {
        return true;
    }
    false
}

fn new_window_at(ops: &[u32], args: &[f64], k: u32, line: bool) -> NewWindow
    ensures { result ≡ new_window_at ops.now args.now k (source_at args.now k line) }
{
    let into = read_u32(ops, WORDS_PER_OPERATION, k, OPERATION_INTO);
    let queued = is_queued(ops, k);
    let b0 = read_f64(args, REALS_PER_OPERATION, k, OPERATION_B0);
    let b1 = read_f64(args, REALS_PER_OPERATION, k, OPERATION_B1);
    let src = source_at(args, k, line);
    let carried = Carried {
        into: FaceId(into),
        queued,
    };
    NewWindow {
        b0,
        b1,
        src,
        carried,
    }
}

// Operation k of a list.
pub fn operation_at(ops: &[u32], args: &[f64], k: u32) -> Op
    ensures { as_operation result ≡ operation_at ops.now args.now k }
{
    let kind = read_u32(ops, WORDS_PER_OPERATION, k, OPERATION_KIND);
    let number = read_u32(ops, WORDS_PER_OPERATION, k, OPERATION_NUMBER);
    if kind == 0 {
        let w = new_window_at(ops, args, k, false);
        return Op::Add(EdgeId(number), w);
    }
    if kind == 1 {
        let w = new_window_at(ops, args, k, true);
        return Op::Add(EdgeId(number), w);
    }
    if kind == 2 {
        return Op::Pop;
    }
    if kind == 3 {
        let d = read_f64(args, REALS_PER_OPERATION, k, OPERATION_B0);
        return Op::Touch(VertexId(number), d);
    }
    Op::Unknown
}

fn has_length(l: f64) -> bool
    ensures { result ≡ has_length l }
{
    if 0.0 < l {
        return float64::is_finite(l);
    }
    false
}

fn is_on_edge(l: f64, x: f64) -> bool
    ensures { result ≡ is_on_edge l x }
{
    if 0.0 <= x {
        if x <= l {
            return true;
        }
        return false;
    }
    false
}

// Whether a candidate from b0 to b1 on edge e of m edges, whose length is l, may be added.
pub fn check_candidate(m: u32, e: EdgeId, l: f64, b0: f64, b1: f64) -> Result<(), OperationRefusal>
    ensures { CheckedCandidate m e.0 l b0 b1 (checked_number result) }
{
    if m <= e.0 {
        return Err(OperationRefusal::NoEdge);
    }
    if has_length(l) {
        if is_on_edge(l, b0) {
            if is_on_edge(l, b1) {
                return Ok(());
            }
        }
        return Err(OperationRefusal::EndOutside);
    }
    Err(OperationRefusal::NoEdge)
}
