// Where a byte stands first.
ghost use Rattle.std.specs.Prelude.{◌≡◌, ◌≤◌, length};
ghost use Rattle.words.specs.Bytes.{index_of};

use memchr::memchr;

// How many bytes stand before the first that is `byte`: all where there is none.
pub fn find(s: &[u8], byte: u8) -> usize
    ensures value { result ≡ index_of byte s.now }
    ensures within { result ≤ length s.now }
{
    memchr(byte, s).unwrap_or(s.len())
}
