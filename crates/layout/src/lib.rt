// Where each number of a buffer stands: how many elements a slot has, and at which of them each field is. Contracts and definitions have the
// same names for them (specs/Layout.antt, which says what each is).
#![tactic(auto)]

// A job's slices.
pub const COORDINATES_PER_VERTEX: u32 = 3;

pub const VERTICES_PER_TRIANGLE: u32 = 3;

pub const COORDINATES_PER_PIECE: u32 = 6;

// 01's corners, u32.
pub const WORDS_PER_VERTEX: u32 = 3;

pub const VERTEX_START: u32 = 0;

pub const VERTEX_END: u32 = 1;

pub const VERTEX_FLAG: u32 = 2;

// 01's corners, f64.
pub const REALS_PER_VERTEX: u32 = 2;

pub const VERTEX_DISTANCE: u32 = 0;

pub const VERTEX_EMITTED: u32 = 1;

// 01's faces round corners.
pub const WORDS_PER_ROUND: u32 = 1;

pub const ROUND_FACE: u32 = 0;

pub const ROUND_HEAD: u32 = 0;

// 01's edges, u32.
pub const WORDS_PER_EDGE: u32 = 6;

pub const EDGE_LOW: u32 = 0;

pub const EDGE_HIGH: u32 = 1;

pub const EDGE_FIRST_FACE: u32 = 2;

pub const EDGE_SECOND_FACE: u32 = 3;

pub const EDGE_HEAD: u32 = 4;

pub const EDGE_SCRATCH: u32 = 5;

// 01's edges, f64.
pub const REALS_PER_EDGE: u32 = 4;

pub const EDGE_LEN: u32 = 0;

pub const EDGE_UNIT: u32 = 1;

// 01's triangles, u32.
pub const WORDS_PER_TRIANGLE: u32 = 6;

pub const TRIANGLE_FIRST_ENTRY: u32 = 3;

pub const TRIANGLE_LAST_ENTRY: u32 = 4;

// 01's triangles, f64.
pub const REALS_PER_TRIANGLE: u32 = 9;

pub const REALS_PER_NORMAL: u32 = 3;

// 01's windows, u32.
pub const WORDS_PER_WINDOW: u32 = 4;

pub const WINDOW_EDGE: u32 = 0;

pub const WINDOW_INTO: u32 = 1;

pub const WINDOW_FLAGS: u32 = 2;

pub const WINDOW_LINK: u32 = 3;

// A window's flags, of which its word is the sum.
pub const LINE_FLAG: u32 = 1;

pub const ALIVE_FLAG: u32 = 2;

pub const QUEUED_FLAG: u32 = 4;

// 01's windows, f64.
pub const REALS_PER_WINDOW: u32 = 6;

pub const WINDOW_B0: u32 = 0;

pub const WINDOW_B1: u32 = 1;

pub const WINDOW_LOW: u32 = 2;

pub const WINDOW_S0: u32 = 3;

pub const WINDOW_S1: u32 = 4;

pub const WINDOW_S2: u32 = 5;

// 01's queue, u32; its keys stand alone in their slice.
pub const WORDS_PER_EVENT: u32 = 2;

pub const EVENT_NUMBER: u32 = 0;

pub const EVENT_KIND: u32 = 1;

// A list of operations on windows, u32: additions, pops, touches.
pub const WORDS_PER_OPERATION: u32 = 4;

pub const OPERATION_KIND: u32 = 0;

pub const OPERATION_NUMBER: u32 = 1;

pub const OPERATION_INTO: u32 = 2;

pub const OPERATION_QUEUED: u32 = 3;

// A list of operations, f64.
pub const REALS_PER_OPERATION: u32 = 5;

pub const OPERATION_B0: u32 = 0;

pub const OPERATION_B1: u32 = 1;

pub const OPERATION_S0: u32 = 2;

pub const OPERATION_S1: u32 = 3;

pub const OPERATION_S2: u32 = 4;

// The edges on which such a list runs: two corners in one slice, its length in another.
pub const WORDS_PER_ENDS: u32 = 2;

pub const ENDS_LOW: u32 = 0;

pub const ENDS_HIGH: u32 = 1;

pub const REALS_PER_LEN: u32 = 1;

// 01's pieces, u32.
pub const WORDS_PER_PIECE: u32 = 3;

pub const PIECE_HEAD: u32 = 0;

pub const PIECE_LINKS: u32 = 1;

// 01's pieces, f64.
pub const REALS_PER_PIECE: u32 = 3;

// 01's face entries.
pub const WORDS_PER_ENTRY: u32 = 3;

pub const ENTRY_PIECE: u32 = 0;

pub const ENTRY_PART: u32 = 1;

pub const ENTRY_LINK: u32 = 2;
