// A whole job over any queue that pops the least event: definitions and laws, no code.
#![tactic(auto)]

pub use compute_spec::{of_mesh, of_zero_buffers};
