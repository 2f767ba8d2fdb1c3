// Replays the stored cases of `sqrt`: of each file that the arguments name, how many it has and how many differ.
#![tactic(auto)]

use root_vectors::Function;
use std::io;

fn main(rt: HostRuntime) -> io::Result<()> {
    root_vectors::replay_arguments(&rt, Function::Sqrt)
}
