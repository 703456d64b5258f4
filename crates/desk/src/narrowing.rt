// The journal for 64 consumers that is made of one for 300, and what is wrong where there is none.
ghost use Rattle.std.specs.Prelude.{◌≡◌};
ghost use Rattle.desk.specs.Narrowing.{unconverted, narrow_for, narrow_findings_for};

use listing::MOST_INPUT;
use narrow::{Stopped, first_stop};
use text::Text;
use words::{LONGEST_AT_PLACE, at_place};

// The most bytes of the line that says why there is none, and of the one that says that nothing was read.
const LONGEST_UNCONVERTED: usize = 48 + LONGEST_AT_PLACE;

// Where and why there is no journal for 64 consumers; nothing where there is one.
// A match: each case has a text of its own.
fn unconverted(stopped: Option<Stopped>) -> Text<LONGEST_UNCONVERTED>
    ensures { result ≡ unconverted stopped }
{
    let mut line = Text::new();
    if let Some(stopped) = stopped {
        line.push_str("yearbook: no journal for 64 consumers, at byte ");
        line.push_text(&at_place(stopped.place, stopped.number));
    }
    line
}

// The journal for 64 consumers, which is the input itself, or nothing.
// As `told_listing`, but the journal is shown and not copied: see `unread`.
#[tactic(auto, unfolding(crate::specs::Narrowing::narrow_for))]
pub fn narrow_output(input: &[u8]) -> &[u8]
    ensures { result.now ≡ narrow_for input.now }
{
    if MOST_INPUT < input.len() {
        return b"X\n";
    }
    match first_stop(input) {
        None => input,
        Some(_) => b"",
    }
}

// What is wrong where there is none.
#[tactic(auto, unfolding(crate::specs::Narrowing::narrow_findings_for))]
pub fn narrow_findings(input: &[u8]) -> Text<LONGEST_UNCONVERTED>
    ensures { result ≡ narrow_findings_for input.now }
{
    if MOST_INPUT < input.len() {
        let mut line = Text::new();
        line.push_str("yearbook: input longer than 65536 bytes, nothing read\n");
        return line;
    }
    unconverted(first_stop(input))
}
