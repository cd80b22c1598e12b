#![tactic(auto)]

// Text made piece after piece, in a buffer of a fixed size.
ghost use Rattle.std.specs.Prelude.{◌≡◌, ℕ, ◌+◌, ◌≤◌, List, [], ◌∷◌, ◌++◌, length, take, replicate};
ghost use Rattle.text_make.specs.Decimal.{decimal};
ghost use Rattle.text_make.specs.Text.{up_to, fact};

use std::marker::Model;

// A text of at most N bytes.
#[derive(Drop)]
pub struct Text<const N: usize> {
    bytes: [u8; N],
    len: usize,
}

// Clauses see the bytes.
impl<const N: usize> Model for Text<N> {
    ghost Value = { List ℕ };

    ghost view = { λ t. take t.len t.bytes };

    ghost invariant = { λ t. t.len ≤ N };
}

impl<const N: usize> Text<N> {
    pub fn new() -> Self
        ensures { result ≡ [] }
    {
        Text {
            bytes: [0; N],
            len: 0,
        }
    }

    // A string that fits.
    pub fn of(s: &[u8]) -> Self
        requires { length s.now ≤ N }
        ensures { result ≡ s.now }
    {
        let mut text = Text::new();
        text.push_str(s);
        text
    }

    pub fn len(&self) -> usize
        ensures { result ≡ length self.now }
    {
        self.len
    }

    pub fn as_bytes(&self) -> &[u8]
        ensures value { result.now ≡ self.now }
        ensures fits { length result.now ≤ N }
    {
        &self.bytes[..self.len]
    }

    pub fn push(&mut self, b: u8)
        requires { length self.old + 1 ≤ N }
        ensures { self.new ≡ self.old ++ b ∷ [] }
    {
        self.bytes[self.len] = b;
        self.len += 1;
    }

    pub fn push_str(&mut self, s: &[u8])
        requires { length self.old + length s.now ≤ N }
        ensures { self.new ≡ self.old ++ s.now }
    {
        let end = self.len + s.len();
        let bytes = &mut self.bytes[..];
        text::fill::copy(s, bytes, self.len);
        self.len = end;
    }

    // The same byte n times.
    pub fn push_times(&mut self, b: u8, n: usize)
        requires { length self.old + n ≤ N }
        ensures { self.new ≡ self.old ++ replicate n b }
    {
        let end = self.len + n;
        let bytes = &mut self.bytes[..];
        bytes[self.len..end].fill(b);
        self.len = end;
    }

    // Nothing of a string that is longer than `most`.
    pub fn push_up_to(&mut self, most: usize, s: &[u8])
        requires { length self.old + most ≤ N }
        ensures added { self.new ≡ self.old ++ up_to most s.now }
        ensures short { length self.new ≤ length self.old + most }
    {
        if s.len() <= most {
            self.push_str(s);
        }
    }

    pub fn push_decimal(&mut self, n: u64)
        requires { length self.old + 20 ≤ N }
        ensures added { self.new ≡ self.old ++ decimal n }
        ensures short { length self.new ≤ length self.old + 20 }
    {
        self.push_str(digits(n).as_bytes());
    }

    // `name n`, on a line of its own
    pub fn push_fact(&mut self, name: &[u8], n: u64)
        requires { length self.old + length name.now + 21 ≤ N }
        ensures added { self.new ≡ self.old ++ fact name.now n }
        ensures short { length self.new ≤ length self.old + length name.now + 21 }
    {
        self.push_str(name);
        self.push_decimal(n);
        self.push(b'\n');
    }
}

// Adds the digits of what stands before the last one, and then that.
fn add_digits(n: u64, text: &mut Text<20>)
    requires { length text.old + length (decimal n) ≤ 20 }
    ensures { text.new ≡ text.old ++ decimal n }
{
    let before = n / 10;
    if before != 0 {
        add_digits(before, text);
    }
    text.push(b'0' + (n % 10) as u8);
}

// A number in decimal digits.
pub fn digits(n: u64) -> Text<20>
    ensures value { result ≡ decimal n }
    ensures fits { length result ≤ 20 }
{
    let mut text = Text::new();
    add_digits(n, &mut text);
    text
}
