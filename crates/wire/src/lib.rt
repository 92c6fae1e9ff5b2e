// Bytes: compared, ordered, read and put as numbers, written into parts, and read as lists of items of one size.
#![tactic(auto)]

pub mod bytes; // equality and order
pub mod numbers; // little-endian numbers
pub mod parts; // writing into a part of a slice
pub mod items; // lists of items of one size
