// What a listing writes: the list's entries, the last committed rounds raised, and the table cleared.
#![tactic(auto)]

pub mod places; // places of what is held
pub mod entries; // the list
pub mod raise; // last committed rounds
pub mod clear; // the table

pub use places::Places;

pub const ENTRY: usize = 37;
