// The run of a journal in words: its counts, where and why the reading stopped, and the first refused record.
// For our own crates and not for buyers, as `text` is.
#![tactic(auto)]

ghost use Rattle.std.specs.Prelude.{◌≡◌, ◌≤◌, length};
ghost use Rattle.summary.specs.Summary.{count_line, counts, reason, stop_line, first_line, summary_of};

use journal::{Refused, Run};
use text::{LONGEST_DECIMAL, Text, decimal};
use words::{LONGEST_SAID, condition_line};

// The most bytes of the words before a number.
const LONGEST_LABEL: usize = 29;

// The most bytes of the line of a count, and of all three.
const LONGEST_COUNT: usize = LONGEST_LABEL + LONGEST_DECIMAL + 1;

const LONGEST_COUNTS: usize = 3 * LONGEST_COUNT;

// The most bytes of a line that names a place, and of a run in words.
const LONGEST_PLACED: usize = LONGEST_LABEL + LONGEST_DECIMAL + 2 + LONGEST_SAID;

pub const LONGEST_SUMMARY: usize = LONGEST_COUNTS + 2 * LONGEST_PLACED;

// Words and a count, with a line feed.
// By `as`, here and below: std has no From from usize to u64.
#[tactic(auto, unfolding(crate::specs::Summary::count_line))]
fn count_line(label: &str, count: usize) -> Text<LONGEST_COUNT>
    requires { length label.now ≤ LONGEST_LABEL }
    ensures { result ≡ count_line label.now count }
{
    let mut line = Text::new();
    line.push_str(label);
    line.push_text(&decimal(count as u64));
    line.push(b'\n');
    line
}

// How many records were read, accepted and refused.
#[tactic(auto, unfolding(crate::specs::Summary::counts))]
fn counts(run: &Run) -> Text<LONGEST_COUNTS>
    ensures { result ≡ counts run.now.read run.now.accepted run.now.refused }
{
    let mut lines = Text::new();
    lines.push_text(&count_line("records read: ", run.read));
    lines.push_text(&count_line("accepted: ", run.accepted));
    lines.push_text(&count_line("refused: ", run.refused));
    lines
}

// Why the reading stopped: the journal's end, or number 1 or 2.
// A number, as `Run.stop` is.
#[tactic(auto, unfolding(crate::specs::Summary::reason))]
fn reason(stop: u32) -> Text<LONGEST_SAID>
    ensures { result ≡ reason stop }
{
    if stop == 0 {
        let mut line = Text::new();
        line.push_str("end of journal\n");
        line
    } else {
        condition_line(stop)
    }
}

// Where the reading stopped, and why.
#[tactic(auto, unfolding(crate::specs::Summary::stop_line))]
fn stop_line(run: &Run) -> Text<LONGEST_PLACED>
    ensures { result ≡ stop_line run.now.stop run.now.place }
{
    let mut line = Text::new();
    line.push_str("reading stopped at byte ");
    line.push_text(&decimal(run.place as u64));
    line.push_str(": ");
    line.push_text(&reason(run.stop));
    line
}

// Where the first refused record stands, and the number that it met; that there is none.
// A match: each case has words of its own.
#[tactic(auto, unfolding(crate::specs::Summary::first_line))]
fn first_line(first: Option<Refused>) -> Text<LONGEST_PLACED>
    ensures { result ≡ first_line first }
{
    let mut line = Text::new();
    match first {
        None => line.push_str("no record refused\n"),
        Some(Refused { place, number }) => {
            line.push_str("first refused record at byte ");
            line.push_text(&decimal(place as u64));
            line.push_str(": ");
            line.push_text(&condition_line(number));
        }
    }
    line
}

// The run in words.
#[tactic(auto, unfolding(crate::specs::Summary::summary_of))]
pub fn summary(run: &Run) -> Text<LONGEST_SUMMARY>
    ensures { result ≡ summary_of run.now }
{
    let mut text = Text::new();
    text.push_text(&counts(run));
    text.push_text(&stop_line(run));
    text.push_text(&first_line(run.first));
    text
}
