// The numbered replies in words.
// By number throughout: 0 and the stops 1 and 2 have words as the refusals have, and what a run tells is a number already.
ghost use Rattle.std.specs.Prelude.{◌≡◌, ◌≤◌, length};
ghost use Rattle.words.specs.Numbers.{meaning, numbered, said, at_place};
ghost use Rattle.words.specs.Conditions.{condition, condition_line};

use text::{LONGEST_DECIMAL, Text, decimal};

// The most bytes of a number's meaning or condition.
const LONGEST_WORDS: usize = 98;

// The most bytes of a number in words, and of what is said of a place.
pub const LONGEST_SAID: usize = LONGEST_DECIMAL + LONGEST_WORDS + 2;

pub const LONGEST_AT_PLACE: usize = LONGEST_DECIMAL + 2 + LONGEST_SAID;

// A number in words: what it means, and when it is met, in the words of document 01 and of document 02's requests.
#[derive(Clone, Copy, Debug, PartialEq, Eq)]
struct Words {
    meaning: &'static str,
    condition: &'static str,
}

// The words of a number; none where there is no such number.
#[tactic(auto, unfolding(crate::specs::Numbers::meaning, crate::specs::Numbers::meanings, crate::specs::Conditions::condition, crate::specs::Conditions::conditions))]
fn words_of(number: u32) -> Words
    ensures meaning { result.meaning.now ≡ meaning number }
    ensures short_meaning { length result.meaning.now ≤ LONGEST_WORDS }
    ensures condition { result.condition.now ≡ condition number }
    ensures short_condition { length result.condition.now ≤ LONGEST_WORDS }
{
    match number {
        0 => Words {
            meaning: "accepted",
            condition: "",
        },
        1 => Words {
            meaning: "record cut short",
            condition: "record cut short",
        },
        2 => Words {
            meaning: "unknown mark",
            condition: "unknown mark",
        },
        3 => Words {
            meaning: "field outside its range",
            condition: "field outside its range; a division's T, weights or their number",
        },
        4 => Words {
            meaning: "not in this stage",
            condition: "stage",
        },
        5 => Words {
            meaning: "unit already enrolled",
            condition: "unit already enrolled",
        },
        6 => Words {
            meaning: "unit not enrolled",
            condition: "unit not enrolled",
        },
        7 => Words {
            meaning: "component foreign to kind",
            condition: "component foreign to kind",
        },
        8 => Words {
            meaning: "count of readings against the full time",
            condition: "ending 0 with count not TC; ending 1 or 2 with count TC or more",
        },
        9 => Words {
            meaning: "minutes that cannot be",
            condition: "HD + HIF + HMP is 0 or above 1,052,640, or HED > HD + HMP",
        },
        10 => Words {
            meaning: "consumer not declared",
            condition: "consumer not declared (commit, release, meter, mean)",
        },
        11 => Words {
            meaning: "above the producer's efficient offers",
            condition: "producer's balances + q exceed its units' efficient offers",
        },
        12 => Words {
            meaning: "above the pair's balance",
            condition: "q above the pair's balance",
        },
        13 => Words {
            meaning: "weights sum to 0",
            condition: "weights sum to 0",
        },
        14 => Words {
            meaning: "adjusted demand above 3,000,000 kW",
            condition: "a DFA above 3,000,000",
        },
        15 => Words {
            meaning: "buffer too short",
            condition: "output buffer shorter than the record, or than a division's amounts",
        },
        16 => Words {
            meaning: "consumer without a reading or a mean",
            condition: "close while a declared consumer has neither a reading nor a mean",
        },
        17 => Words {
            meaning: "outage log out of order",
            condition: "a window or an entry whose end is not after its start, a window too long, or an entry out of order",
        },
        18 => Words {
            meaning: "mark for consumers above 64",
            condition: "a mark for consumers above 64",
        },
        19 => Words {
            meaning: "charges above 6,000,000,000,000 cents",
            condition: "charges above 6,000,000,000,000 cents",
        },
        _ => Words {
            meaning: "",
            condition: "",
        },
    }
}

// A number, a blank and words, with a line feed.
fn numbered(number: u32, words: &str) -> Text<LONGEST_SAID>
    requires { length words.now ≤ LONGEST_WORDS }
    ensures { result ≡ numbered number words.now }
{
    let mut line = Text::new();
    line.push_text(&decimal(number.into()));
    line.push(b' ');
    line.push_str(words);
    line.push(b'\n');
    line
}

// A number, a blank and what it means, with a line feed.
#[tactic(auto, unfolding(crate::specs::Numbers::said))]
pub fn said(number: u32) -> Text<LONGEST_SAID>
    ensures { result ≡ said number }
{
    numbered(number, words_of(number).meaning)
}

// A number, a blank and when it is met, with a line feed.
#[tactic(auto, unfolding(crate::specs::Conditions::condition_line))]
pub fn condition_line(number: u32) -> Text<LONGEST_SAID>
    ensures { result ≡ condition_line number }
{
    numbered(number, words_of(number).condition)
}

// A place, a colon, and what is said of it. Place and number apart: a refusal stands in `Refused`, a stop in `Run`.
// By `as`: std has no From from usize to u64.
#[tactic(auto, unfolding(crate::specs::Numbers::at_place))]
pub fn at_place(place: usize, number: u32) -> Text<LONGEST_AT_PLACE>
    ensures { result ≡ at_place place number }
{
    let mut line = Text::new();
    line.push_text(&decimal(place as u64));
    line.push_str(": ");
    line.push_text(&said(number));
    line
}
