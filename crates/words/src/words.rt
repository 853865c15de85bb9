// Words between blanks. A field is a blank and the word behind it.
ghost use Rattle.std.specs.Prelude.{◌≡◌, ◌≤◌, length};
ghost use Rattle.words.specs.Words.{word_length, field_length, field_word, rest_at, word_at};

use crate::scan::find;
use decimals::{begins_with, skip};

// How many bytes stand before the first blank.
#[tactic(auto, unfolding(crate::specs::Words::word_length))]
pub fn word_length(s: &[u8]) -> usize
    ensures value { result ≡ word_length s.now }
    ensures within { result ≤ length s.now }
{
    find(s, b' ')
}

// How many bytes the field in front has; 0 where no blank is in front.
pub(crate) fn field_length(s: &[u8]) -> usize
    ensures value { result ≡ field_length s.now }
    ensures within { result ≤ length s.now }
{
    if begins_with(s, b' ') {
        return 1 + word_length(skip(s, 1));
    }
    0
}

// Its word.
#[tactic(auto, unfolding(crate::specs::Words::field_word))]
pub(crate) fn field_word(s: &[u8]) -> &[u8]
    ensures { result.now ≡ field_word s.now }
{
    s.get(1..field_length(s)).unwrap_or(&[])
}

// What is left from the field i on.
pub fn rest_at(s: &[u8], i: usize) -> &[u8]
    ensures { result.now ≡ rest_at i s.now }
{
    let mut left = s;
    for _ in 0..i {
        left = skip(left, field_length(left));
    }
    left
}

// The word i.
#[tactic(auto, unfolding(crate::specs::Words::word_at))]
pub fn word_at(s: &[u8], i: usize) -> &[u8]
    ensures { result.now ≡ word_at i s.now }
{
    field_word(rest_at(s, i))
}
