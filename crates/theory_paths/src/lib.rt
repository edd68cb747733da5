// Laws of paths in a tree that passes questions 5 to 8: all of this crate is in specs/.
#![tactic(auto)]
