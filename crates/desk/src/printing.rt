// The printed close of a journal, and what is wrong with it.
ghost use Rattle.std.specs.Prelude.{◌≡◌};
ghost use Rattle.quantities.specs.Refusals.{met};
ghost use Rattle.desk.specs.Printing.{unclosed, page_for, page_findings_for};

use crate::findings::{LONGEST_UNCLOSED, Told, found, unread};
use journal::run;
use listing::{LONGEST, MOST_INPUT};
use page::put_page;
use quantities::Refusal;
use text::Text;
use words::said;

// That there is no page, with its number; nothing where there is one.
#[tactic(auto, unfolding(crate::specs::Printing::unclosed))]
fn unclosed(printed: Result<usize, Refusal>) -> Text<LONGEST_UNCLOSED>
    ensures { result ≡ unclosed (met printed) }
{
    let mut line = Text::new();
    if let Err(refusal) = printed {
        line.push_str("yearbook: no page, the year is not closed: ");
        line.push_text(&said(refusal.into()));
    }
    line
}

// The printed close of an input, and what is found wrong with it.
// As `told_listing`: see `unread`.
#[tactic(auto, unfolding(crate::specs::Printing::page_for, crate::specs::Printing::page_findings_for))]
pub fn told_page(input: &[u8]) -> Told
    ensures output { result.output ≡ page_for input.now }
    ensures findings { result.findings ≡ page_findings_for input.now }
{
    if MOST_INPUT < input.len() {
        return unread();
    }
    let run = run(input);
    let mut page = [0; LONGEST];
    let printed = put_page(run.book, &mut page);
    let mut findings = Text::new();
    findings.push_text(&found(&run));
    findings.push_text(&unclosed(printed));
    Told {
        output: Text::front(page, printed.unwrap_or(0)),
        findings,
    }
}
