// What is wrong with a journal, in words.
ghost use Rattle.std.specs.Prelude.{◌≡◌};
ghost use Rattle.listing.specs.Listing.{too_long, output_of};
ghost use Rattle.desk.specs.Findings.{refusals, stopping, findings_of, nothing_read, findings_for};

use journal::{Run, run};
use listing::{LONGEST, MOST_INPUT, listing};
use text::{LONGEST_DECIMAL, Text, decimal};
use words::{LONGEST_AT_PLACE, LONGEST_SAID, at_place};

// The most bytes of what is said of refusals, of a stop, and of both.
const LONGEST_REFUSALS: usize = 69 + 2 * LONGEST_DECIMAL + LONGEST_AT_PLACE;

const LONGEST_STOPPING: usize = 34 + LONGEST_AT_PLACE;

pub(crate) const LONGEST_FOUND: usize = LONGEST_REFUSALS + LONGEST_STOPPING;

// .. of the line that says why there is no page, and of all findings.
pub(crate) const LONGEST_UNCLOSED: usize = 43 + LONGEST_SAID;

pub const LONGEST_FINDINGS: usize = LONGEST_FOUND + LONGEST_UNCLOSED;

// What the program prints of an input, and what it finds wrong with it. It has no equality, as its texts have none, and is
// moved and not copied, since the texts lie in it whole.
#[derive(Drop)]
pub struct Told {
    pub output: Text<LONGEST>,
    pub findings: Text<LONGEST_FINDINGS>,
}

// How many of the records read were refused, with place and number of the first.
// By `as`: std has no From from usize to u64.
#[tactic(auto, unfolding(crate::specs::Findings::refusals))]
fn refusals(run: &Run) -> Text<LONGEST_REFUSALS>
    ensures { result ≡ refusals run.now.first run.now.refused run.now.read }
{
    let mut line = Text::new();
    if let Some(first) = run.first {
        line.push_str("yearbook: ");
        line.push_text(&decimal(run.refused as u64));
        line.push_str(" of ");
        line.push_text(&decimal(run.read as u64));
        line.push_str(" records refused, the first at byte ");
        line.push_text(&at_place(first.place, first.number));
    }
    line
}

// Where and why the reading stopped before the journal's end.
#[tactic(auto, unfolding(crate::specs::Findings::stopping))]
fn stopping(run: &Run) -> Text<LONGEST_STOPPING>
    ensures { result ≡ stopping run.now.stop run.now.place }
{
    let mut line = Text::new();
    if run.stop != 0 {
        line.push_str("yearbook: reading stopped at byte ");
        line.push_text(&at_place(run.place, run.stop));
    }
    line
}

// What is found wrong with a journal's run.
#[tactic(auto, unfolding(crate::specs::Findings::findings_of))]
pub(crate) fn found(run: &Run) -> Text<LONGEST_FOUND>
    ensures { result ≡ findings_of run.now }
{
    let mut found = Text::new();
    found.push_text(&refusals(run));
    found.push_text(&stopping(run));
    found
}

// What is printed and found where the input is too long. The three that tell of an input each ask this first: a common function over a
// closure would carry two clauses of each closure, for one `if`.
pub(crate) fn unread() -> Told
    ensures output { result.output ≡ too_long }
    ensures findings { result.findings ≡ nothing_read }
{
    let mut output = Text::new();
    output.push_str("X\n");
    let mut findings = Text::new();
    findings.push_str("yearbook: input longer than 65536 bytes, nothing read\n");
    Told { output, findings }
}

// The listing of an input, and what is found wrong with it.
#[tactic(auto, unfolding(listing::specs::Listing::output_of, crate::specs::Findings::findings_for))]
pub fn told_listing(input: &[u8]) -> Told
    ensures output { result.output ≡ output_of input.now }
    ensures findings { result.findings ≡ findings_for input.now }
{
    if MOST_INPUT < input.len() {
        return unread();
    }
    let run = run(input);
    let mut findings = Text::new();
    findings.push_text(&found(&run));
    Told {
        output: listing(&run),
        findings,
    }
}
