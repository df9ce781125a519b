// Laws alone: what stays true of a trace when records go. The functions stand in the crates above.
#![tactic(auto)]
