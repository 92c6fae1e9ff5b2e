// The commit table and the ordering's state: what a place holds, and what is found.
#![tactic(auto)]

pub mod row; // a row's fields
pub mod place; // the certificate at a place
pub mod whole; // the table's shape, and whether a digest clashes
pub mod insert; // a certificate put in
pub mod state; // last committed rounds

pub use state::State;
pub use whole::Held;

pub const ROW: usize = 1062;
