// The words of a line: what stands between blanks, and what it says.
#![tactic(auto)]

pub mod kinds; // the kinds of words
pub mod numbers; // decimal numbers
pub mod rows; // rows of kinds
pub mod scan; // where a byte stands first
pub mod tables; // names, and what each stands for
pub mod values; // words by their place, as values
pub mod words; // words between blanks, and words by their place
