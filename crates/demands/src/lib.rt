// Laws alone: what is proved of the whole, demand by demand. The functions stand in the crates beneath.
#![tactic(auto)]
