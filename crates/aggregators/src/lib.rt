// Counting: votes to a certificate, certificates to the parents of the next round.
#![tactic(auto)]

pub mod tally; // keys counted one by one: their weight, and where what is gathered begins
pub mod votes; // the voters of a header
pub mod rounds; // the certificates counted in each round: what is found there, and where one more is counted
pub mod certificates; // counting certificates
