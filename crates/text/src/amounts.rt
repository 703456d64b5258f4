// Amounts in decimal digits, in columns, and in lines.
ghost use Rattle.std.specs.Prelude.{◌≡◌, ◌++◌, ◌+◌, ◌≤◌, length, take};
ghost use Rattle.text.specs.Text.{plain, decimal, amount_of, line_of};
ghost use Rattle.text.specs.Columns.{column};

use crate::Text;

// The most bytes of a number's digits; of an amount, a sign and these.
pub const LONGEST_DECIMAL: usize = 20;

pub const LONGEST_AMOUNT: usize = 1 + LONGEST_DECIMAL;

// The most amounts of a line, and its most bytes: its letter, the amounts, each behind a blank, and a line feed.
pub const LINE_AMOUNTS: usize = 3;

pub const LONGEST_LINE: usize = LINE_AMOUNTS * (1 + LONGEST_AMOUNT) + 2;

// An amount with its sign: plus less minus. Each part may need all 64 bits, so that no i64 holds the difference.
#[derive(Clone, Copy, Debug, PartialEq, Eq)]
pub struct Amount {
    pub plus: u64,
    pub minus: u64,
}

// A number, which has no sign.
impl From<u64> for Amount {
    ghost from_gives = { λ x a. a ≡ plain x };

    fn from(plus: u64) -> Self {
        Amount { plus, minus: 0 }
    }
}

// A count, which has 64 bits; std has no `From` between the two.
impl From<usize> for Amount {
    ghost from_gives = { λ x a. a ≡ plain x };

    fn from(count: usize) -> Self {
        Amount::from(count as u64)
    }
}

impl Amount {
    // The digits, with a minus sign directly before them where the amount is below 0.
    #[tactic(auto, unfolding(crate::specs::Text::amount_of))]
    pub fn text(self) -> Text<LONGEST_AMOUNT>
        ensures { result ≡ amount_of self }
    {
        let mut text = Text::new();
        if self.plus < self.minus {
            text.push(b'-');
        }
        text.push_text(&decimal(self.plus.abs_diff(self.minus)));
        text
    }

    // The same behind what a line has so far.
    #[tactic(auto, using(crate::proofs::Digits::digits_short), unfolding(crate::specs::Text::amount_of))]
    fn push_to(self, line: &mut Text<LONGEST_LINE>)
        requires { length line.old + LONGEST_AMOUNT ≤ LONGEST_LINE }
        ensures text { line.new ≡ line.old ++ amount_of self }
        ensures room { length line.new ≤ length line.old + LONGEST_AMOUNT }
    {
        let below = self.plus < self.minus;
        let size = self.plus.abs_diff(self.minus);
        if below {
            line.push(b'-');
            line.push_decimal(size);
        } else {
            line.push_decimal(size);
        }
    }

    // Right-aligned in as many columns as the text has bytes.
    pub fn column<const WIDTH: usize>(self) -> Text<WIDTH>
        ensures { result ≡ column WIDTH (amount_of self) }
    {
        let text = self.text();
        let kept = text.len().min(WIDTH);
        let mut column = [b' '; WIDTH];
        let columns = &mut column[..];
        columns[WIDTH - kept..].copy_from_slice(&text.as_bytes()[text.len() - kept..]);
        Text::from(column)
    }
}

// The decimal digits of a number.
#[tactic(auto, using(crate::proofs::Digits::digits_short))]
pub fn decimal(x: u64) -> Text<LONGEST_DECIMAL>
    ensures { result ≡ decimal x }
{
    let mut digits = Text::new();
    digits.push_decimal(x);
    digits
}

// The same at the front of a buffer, and how many. Not the Display of u64, whose law ends at 64 digits, as the definition's does not.
// Into a buffer: a listing has some two thousand numbers, and a bar of speed binds it.
#[tactic(auto, using(crate::proofs::Digits::decimal_digit, crate::proofs::Digits::decimal_more, crate::proofs::Digits::length_digit, crate::proofs::Digits::length_more))]
pub(crate) fn put_decimal(x: u64, out: &mut [u8]) -> usize
    requires { length (decimal x) ≤ length out.old }
    ensures digits { take result out.new ≡ decimal x }
    ensures count { result ≡ length (decimal x) }
    ensures length { length out.new ≡ length out.old }
{
    if x < 10 {
        out[0] = b'0' + x as u8;
        return 1;
    }
    let last = put_decimal(x / 10, out);
    out[last] = b'0' + (x % 10) as u8;
    last + 1
}

// A line: its letter, the amounts, each behind a blank, and a line feed.
#[tactic(auto, using(std::proofs::lemmas::List::take_more), unfolding(crate::specs::Text::line_of))]
pub fn line(letter: u8, amounts: &[Amount]) -> Text<LONGEST_LINE>
    requires { length amounts.now ≤ LINE_AMOUNTS }
    ensures { result ≡ line_of letter amounts.now }
{
    let mut line = Text::new();
    line.push(letter);
    for amount in amounts {
        line.push(b' ');
        amount.push_to(&mut line);
    }
    line.push(b'\n');
    line
}
