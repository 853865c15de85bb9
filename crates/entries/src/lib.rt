// What a request gives an entry.
#![tactic(auto)]

pub mod given; // words as values of the entries' types
