// Headers, votes and certificates: their layouts and shapes, and the strings that are hashed.
#![tactic(auto)]

pub mod header; // a header's fields and shape
pub mod vote; // a vote's
pub mod certificate; // a certificate's
pub mod strings; // the strings that are hashed, written into a part of their length
pub mod answers; // what a host asks, every input answered or refused
