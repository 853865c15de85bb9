// The desk program's requests: one line, one answer line.
#![tactic(auto)]

mod lent; // the verbs that print, and that write into lent bytes
mod request; // a request to its answer
mod verbs; // the verbs, their kinds, and the answers that are said in one form

pub use request::answer;
