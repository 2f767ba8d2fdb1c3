// Definitions and laws of the whole job: what it answers and what every buffer holds then.
#![tactic(auto)]

pub use finish::{of_mesh, of_zero_buffers};
