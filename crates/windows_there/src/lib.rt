// The windows of a field are the mesh's: definitions and laws, no code.
#![tactic(auto)]

pub use pop as of_pop;
