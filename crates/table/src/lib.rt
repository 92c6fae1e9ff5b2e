// The one table: a count of 8 bytes, then rows of one size. The rows below the count are in use, in the order in which they came.
#![tactic(auto)]

pub mod rows; // shape, count, room, and a row as a part
pub mod write; // a row more, a row changed
pub mod find; // the first row that has a part
