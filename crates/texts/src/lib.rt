// Texts and numbers, written one behind the other, and HEX.
#![tactic(auto)]

pub mod hex; // bytes as hexadecimal digits, read and written

ghost use Rattle.std.specs.Prelude.{◌≡◌, ◌++◌, ◌+◌, ◌*◌, ◌≤◌, ◌<◌, length, [], ◌∷◌};
ghost use Rattle.texts.specs.Texts.{bytes as bytes_of, natural, integer};
ghost use Rattle.texts.specs.Hex.{hex_text};
ghost use Rattle.texts.specs.Wrote.{Wrote};

use hex::digit;

// A line, and the place in it that the next text is written at.
#[derive(Drop)]
pub struct Writer<'a> {
    pub line: &'a mut [u8],
    pub at: usize,
}

impl<'a> Writer<'a> {
    pub fn new(line: &'a mut [u8]) -> Writer<'a>
        ensures line { result.line.now ≡ line.old }
        ensures same { result.line.ghost_name ≡ line.entry.ghost_name }
        ensures at { result.at ≡ 0 }
    {
        Writer { line, at: 0 }
    }

    // The text, as it is.
    pub fn put(&mut self, text: &[u8])
        requires { self.old.at + length text.now ≤ length self.old.line.now }
        ensures { Wrote self.old text.now self.new }
    {
        let behind = self.at + text.len();
        self.line[self.at..behind].copy_from_slice(text);
        self.at = behind;
    }

    fn put_byte(&mut self, byte: u8)
        requires { self.old.at < length self.old.line.now }
        ensures { Wrote self.old (byte ∷ []) self.new }
    {
        self.line[self.at] = byte;
        self.at += 1;
    }

    pub fn put_natural(&mut self, n: u64)
        requires { self.old.at + 20 ≤ length self.old.line.now }
        ensures wrote { Wrote self.old (natural n) self.new }
        ensures within { self.new.at ≤ self.old.at + 20 }
    {
        if n < 10 {
            return self.put_byte(b'0' + n as u8);
        }
        self.put_natural(n / 10);
        self.put_byte(b'0' + (n % 10) as u8);
    }

    pub fn put_integer(&mut self, n: i64)
        requires { self.old.at + 21 ≤ length self.old.line.now }
        ensures wrote { Wrote self.old (integer n) self.new }
        ensures within { self.new.at ≤ self.old.at + 21 }
    {
        if n.is_negative() {
            self.put_byte(b'-');
        }
        self.put_natural(n.unsigned_abs());
    }

    pub fn put_behind_blank(&mut self, n: u64)
        requires { self.old.at + 21 ≤ length self.old.line.now }
        ensures wrote { Wrote self.old (bytes_of " " ++ natural n) self.new }
        ensures within { self.new.at ≤ self.old.at + 21 }
    {
        self.put_byte(b' ');
        self.put_natural(n);
    }

    // The HEX of bytes.
    pub fn put_hex(&mut self, bytes: &[u8])
        requires { self.old.at + 2 * length bytes.now < length self.old.line.now }
        ensures wrote { Wrote self.old (hex_text bytes.now) self.new }
        ensures within { self.new.at ≤ self.old.at + 2 * length bytes.now + 1 }
    {
        if bytes.is_empty() {
            return self.put_byte(b'-');
        }
        for byte in bytes {
            self.put_byte(digit(byte / 16));
            self.put_byte(digit(byte % 16));
        }
    }
}
