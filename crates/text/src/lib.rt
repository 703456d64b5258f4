// Text in fixed memory: amounts in decimal digits, in columns, and in lines.
// For our own crates and not for buyers, as `basis` is: a function here requires that there is room for what it puts.
#![tactic(auto)]

mod amounts; // amounts.rt: amounts in decimal digits, in columns, and in lines

ghost use Rattle.std.specs.Prelude.{◌≡◌, List, [], ◌∷◌, ◌++◌, ℕ, ◌+◌, ◌*◌, ◌<◌, ◌≤◌, length, take};
ghost use Rattle.text.specs.Text.{decimal, joined};

use amounts::put_decimal;
pub use amounts::{
    Amount, LINE_AMOUNTS, LONGEST_AMOUNT, LONGEST_DECIMAL, LONGEST_LINE, decimal, line,
};
use std::marker::Model;

// A text of at most N bytes, which lie in the value itself. It has no derived equality, which would compare the bytes behind the text too.
// No String, since a library has no heap; no write!, which would answer a Result for want of room that the type excludes.
#[derive(Drop)]
pub struct Text<const N: usize> {
    bytes: [u8; N],
    len: usize,
}

impl<const N: usize> Model for Text<N> {
    ghost use Rattle.std.specs.Prelude.{List, ℕ, ◌≤◌, take};

    ghost Value = { List ℕ };

    ghost view = { λ t. take t.len t.bytes };

    ghost invariant = { λ t. t.len ≤ N };
}

impl<const N: usize> Text<N> {
    pub fn new() -> Self
        ensures { result ≡ [] }
    {
        Text {
            bytes: [0; N],
            len: 0,
        }
    }

    // The first bytes of an array.
    pub fn front(bytes: [u8; N], len: usize) -> Self
        requires { len ≤ N }
        ensures { result ≡ take len bytes.entry }
    {
        Text { bytes, len }
    }

    pub fn len(&self) -> usize
        ensures value { result ≡ length self.now }
        ensures fits { result ≤ N }
    {
        self.as_bytes().len()
    }

    pub fn as_bytes(&self) -> &[u8]
        ensures value { result.now ≡ self.now }
        ensures fits { length result.now ≤ N }
    {
        &self.bytes[..self.len]
    }

    pub fn push(&mut self, byte: u8)
        requires { length self.old < N }
        ensures { self.new ≡ self.old ++ byte ∷ [] }
    {
        self.bytes[self.len] = byte;
        self.len += 1;
    }

    pub fn push_bytes(&mut self, bytes: &[u8])
        requires { length self.old + length bytes.now ≤ N }
        ensures { self.new ≡ self.old ++ bytes.now }
    {
        let end = self.len + bytes.len();
        let all = &mut self.bytes[..];
        all[self.len..end].copy_from_slice(bytes);
        self.len = end;
    }

    pub fn push_str(&mut self, text: &str)
        requires { length self.old + length text.now ≤ N }
        ensures { self.new ≡ self.old ++ text.now }
    {
        self.push_bytes(text.as_bytes());
    }

    // Another text, where there is room for the longest of its kind.
    pub fn push_text<const M: usize>(&mut self, other: &Text<M>)
        requires { length self.old + M ≤ N }
        ensures text { self.new ≡ self.old ++ other.now }
        ensures room { length self.new ≤ length self.old + M }
    {
        self.push_bytes(other.as_bytes());
    }

    // The decimal digits of a number.
    pub fn push_decimal(&mut self, x: u64)
        requires { length self.old + length (decimal x) ≤ N }
        ensures { self.new ≡ self.old ++ decimal x }
    {
        let all = &mut self.bytes[..];
        self.len += put_decimal(x, &mut all[self.len..]);
    }

    // The texts of 0, 1, .., one behind the other and behind the text, where there is room for the longest of each.
    // By index: what is joined lies in arrays beside each other, and the clause speaks of the text at each index.
    #[tactic(auto, using(crate::proofs::Joining::joined_none, crate::proofs::Joining::joined_more))]
    pub fn push_join<F: Fn(usize) -> Text<LONGEST_LINE>>(&mut self, count: usize, text: F)
        requires callable { (i : ℕ) → i < count → F.pre text i }
        requires room { length self.old + count * LONGEST_LINE ≤ N }
        ensures texts { (f : ℕ → List ℕ) → ((i : ℕ) (t : List ℕ) → i < count → F.post text i t → t ≡ f i) → self.new ≡ self.old ++ joined f count }
        ensures room { length self.new ≤ length self.old + count * LONGEST_LINE }
    {
        for i in 0..count {
            self.push_text(&text(i));
        }
    }
}

// A text that fills its memory.
impl<const N: usize> From<[u8; N]> for Text<N> {
    ghost from_gives = { λ bytes t. t ≡ bytes };

    fn from(bytes: [u8; N]) -> Self {
        Text { bytes, len: N }
    }
}
