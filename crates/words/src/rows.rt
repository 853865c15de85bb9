// A row of kinds: what words stand behind a verb.
ghost use Rattle.std.specs.Prelude.{◌≡◌};
ghost use Rattle.words.specs.Places.{good, ends, fits};

use crate::kinds::{Kind, Tail};
use crate::tables::epoch_row;
use crate::values::FromWord;
use crate::words::{field_length, field_word};
use decimals::{begins_with, skip};
use texts::hex::is_hex;

// What is in front of s is of the kind.
fn is_good(kind: Kind, s: &[u8]) -> bool
    ensures { result ≡ good kind s.now }
{
    let word = field_word(s);
    match kind {
        Kind::Epoch => epoch_row(word).is_some() || i64::from_word(word).is_some(),
        Kind::I64 => i64::from_word(word).is_some(),
        Kind::I32 => i32::from_word(word).is_some(),
        Kind::U64 => u64::from_word(word).is_some(),
        Kind::U32 => u32::from_word(word).is_some(),
        Kind::U8 => u8::from_word(word).is_some(),
        Kind::Precision => word == b"-".as_slice() || u64::from_word(word).is_some(),
        Kind::Hex => is_hex(word),
    }
}

// What the tail asks of what is left: that it is empty, that a blank stands in front of it, or nothing.
fn ends(tail: Tail, s: &[u8]) -> bool
    ensures { result ≡ ends tail s.now }
{
    match tail {
        Tail::End => s.is_empty(),
        Tail::Rest => begins_with(s, b' '),
        Tail::Any => true,
    }
}

// Behind a verb stand the words of a row.
pub fn row_fits(s: &[u8], kinds: &[Kind], tail: Tail) -> bool
    ensures { result ≡ fits kinds.now tail s.now }
{
    let mut left = s;
    for kind in kinds {
        if !is_good(*kind, left) {
            return false;
        }
        left = skip(left, field_length(left));
    }
    ends(tail, left)
}
