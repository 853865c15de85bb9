// The words by their place, as values of their types: 0 where the word is none of the type.
ghost use Rattle.std.specs.Prelude.{◌≡◌, List, ℕ, pos, Option};
ghost use Rattle.std.specs.Option.{unwrap_or};
ghost use Rattle.words.specs.Words.{word_at};
ghost use Rattle.words.specs.Kinds.{meaning};
ghost use Rattle.words.specs.declared.kinds.Kind.TheVariants.{I64, I32, U64, U32, U8};

use crate::numbers::{TOP, parse_signed, parse_unsigned};
use crate::words::word_at;

// A type of number, each of which a word says.
pub trait FromWord: Default {
    // What a word says, if it is a number of the type.
    ghost meant: { List ℕ → Option Self };

    ghost zero: { Self };

    fn from_word(word: &[u8]) -> Option<Self>
        ensures { result ≡ meant word.now };

    ghost default_is_zero: { (x : Self) → Self.is_default x → x ≡ zero };
}

impl FromWord for i64 {
    ghost meant = { meaning I64 };

    ghost zero = { pos 0 };

    ghost default_is_zero = { λ x e. e };

    fn from_word(word: &[u8]) -> Option<i64> {
        parse_signed(word, TOP)
    }
}

impl FromWord for i32 {
    ghost meant = { meaning I32 };

    ghost zero = { pos 0 };

    ghost default_is_zero = { λ x e. e };

    fn from_word(word: &[u8]) -> Option<i32> {
        let n = parse_signed(word, i32::MAX as u64)?;
        Some(n as i32)
    }
}

impl FromWord for u64 {
    ghost meant = { meaning U64 };

    ghost zero = { 0 };

    ghost default_is_zero = { λ x e. e };

    fn from_word(word: &[u8]) -> Option<u64> {
        parse_unsigned(word, u64::MAX)
    }
}

impl FromWord for u32 {
    ghost meant = { meaning U32 };

    ghost zero = { 0 };

    ghost default_is_zero = { λ x e. e };

    #[tactic(auto, using(crate::proofs::Decimal::unsigned_small))]
    fn from_word(word: &[u8]) -> Option<u32> {
        let n = parse_unsigned(word, u32::MAX as u64)?;
        Some(n as u32)
    }
}

impl FromWord for u8 {
    ghost meant = { meaning U8 };

    ghost zero = { 0 };

    ghost default_is_zero = { λ x e. e };

    #[tactic(auto, using(crate::proofs::Decimal::unsigned_small))]
    fn from_word(word: &[u8]) -> Option<u8> {
        let n = parse_unsigned(word, u8::MAX as u64)?;
        Some(n as u8)
    }
}

pub fn value_at<T: FromWord + Drop>(s: &[u8], i: usize) -> T
    ensures { result ≡ unwrap_or (T.meant (word_at i s.now)) T.zero }
{
    T::from_word(word_at(s, i)).unwrap_or_default()
}
