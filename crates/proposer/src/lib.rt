// The proposer: gathers parents and waiting digests, and makes the next header of them.
#![tactic(auto)]

pub mod sorted; // items in ascending order, each digest once
pub mod pace; // what each call says of when a header is due
pub mod state; // the state: what it says, and what each step leaves in it
pub mod header; // the header made of a state
pub mod events; // the events, every input answered or refused
pub mod start; // the start, every input answered or refused
