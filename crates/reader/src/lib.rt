// Reading a timestamp's text.
#![tactic(auto)]

mod date_time; // the whole text
mod stamp; // the timestamp

pub use stamp::from_str;
