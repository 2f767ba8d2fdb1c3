// Which candidate windows are proper: laws, in proofs/. There is no code here.
#![tactic(auto)]

pub use source_windows as of_source_windows;
