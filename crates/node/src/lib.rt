// The boundary: what a host links. Numbers and byte slices in; one number out, document 01's number and 256 times the count.
// docs/INTERFACE.md says every byte.
#![tactic(auto)]

pub mod committee; // questions on a member list
pub mod strings; // strings for hashing
pub mod verdicts; // checks of header, vote and certificate
pub mod count; // votes and certificates counted
pub mod sync; // parents and payload, the known table
pub mod propose; // the proposer's start and events
pub mod order; // the ordering's start and certificates
