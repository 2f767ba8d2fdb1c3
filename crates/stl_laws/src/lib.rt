// Laws of reading and writing binary STL: specs/Laws.antt.
#![tactic(auto)]
