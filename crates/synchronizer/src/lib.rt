// Parents and payload of a header: found, or what is missing.
#![tactic(auto)]

pub mod picks; // items picked into a buffer
pub mod parents; // a parent looked up, the missing ones, delivery
pub mod payload; // the missing payload
pub mod known; // a certificate more in the known table
pub mod answers; // what a host asks, every input answered or refused
