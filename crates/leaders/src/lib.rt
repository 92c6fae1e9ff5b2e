// Whether a certificate opens a commit, and which earlier leaders join.
#![tactic(auto)]

pub mod view; // what a decision reads
pub mod support; // the stake behind a leader
pub mod candidates; // leaders by their rounds: the next earlier one, and the lowest
pub mod link; // rounds without a gap, and the link test
pub mod order; // the leaders of a commit
pub mod decide; // whether a certificate opens a commit

pub use view::View;
