// The judge of a proposed order.
#![tactic(auto)]

pub mod judging;
