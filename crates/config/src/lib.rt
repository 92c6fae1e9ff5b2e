// The committee: members, stake, thresholds, workers, the leader's turn.
#![tactic(auto)]

pub mod members; // a member's row
pub mod committee; // the member list: its domain, and what is looked up in it
pub mod answers; // what a host asks, every input answered or refused
