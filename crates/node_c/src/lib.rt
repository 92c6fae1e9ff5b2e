// What C and a Rust host link: each entry point of `node` under its exported name, with the same clauses.
#![tactic(auto)]

mod committee; // questions on a member list
mod strings; // strings for hashing
mod verdicts; // checks of header, vote and certificate
mod count; // votes and certificates counted
mod sync; // parents and payload, the known table
mod propose; // the proposer's start and events
mod order; // the ordering's start and certificates
