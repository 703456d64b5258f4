// The run of a journal in words, and what is wrong with it.
ghost use Rattle.std.specs.Prelude.{◌≡◌};
ghost use Rattle.desk.specs.Findings.{findings_for};
ghost use Rattle.desk.specs.Summing.{summary_for};

use crate::findings::{Told, found, unread};
use journal::run;
use listing::MOST_INPUT;
use summary::summary;
use text::Text;

// The run of an input in words, and what is found wrong with it.
// As `told_listing`: see `unread`.
#[tactic(auto, unfolding(crate::specs::Summing::summary_for, crate::specs::Findings::findings_for))]
pub fn told_run(input: &[u8]) -> Told
    ensures output { result.output ≡ summary_for input.now }
    ensures findings { result.findings ≡ findings_for input.now }
{
    if MOST_INPUT < input.len() {
        return unread();
    }
    let run = run(input);
    let mut output = Text::new();
    output.push_text(&summary(&run));
    let mut findings = Text::new();
    findings.push_text(&found(&run));
    Told { output, findings }
}
