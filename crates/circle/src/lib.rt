// The circle that is shown for a trace whose forced edges have one, with the rule of each of its edges.
#![tactic(auto)]

pub mod show;
pub mod trail;
