// The ordering: what a host asks of it, every input answered or refused.
#![tactic(auto)]

pub mod start; // the start
