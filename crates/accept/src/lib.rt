// A certificate given to the ordering: all refusals are settled before anything is written.
#![tactic(auto)]

pub mod shape; // what a call takes
pub mod settle; // which refusal, or what is to be done
pub mod act; // a certificate put in, and the commit that it opens
