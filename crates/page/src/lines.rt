// A heading and a line, each of 36 columns and a line feed.
ghost use Rattle.std.specs.Prelude.{◌≡◌};
ghost use Rattle.page.specs.Page.{line_of, heading};

use text::{Amount, Text};

// The bytes of a heading, and of a line.
pub(crate) const LINE: usize = 37;

// The heading of a page.
#[tactic(auto, unfolding(crate::specs::Page::heading_with))]
pub(crate) fn heading(page: usize) -> Text<LINE>
    ensures { result ≡ heading page }
{
    let mut heading = Text::new();
    heading.push_str("PAGE ");
    heading.push_text(&Amount::from(page).column::<4>());
    heading.push_bytes(&[b' '; 27]);
    heading.push(b'\n');
    heading
}

// The line of a declared consumer; its figures come one by one, as the book keeps each in an array of its own.
// This line and the line S share only these two amounts: a struct of the four figures would be taken apart at once.
#[tactic(auto, unfolding(crate::specs::Page::line_with))]
pub(crate) fn line(number: usize, df: u32, dfa: u32, charge: u64, credit: u64) -> Text<LINE>
    ensures { result ≡ line_of number df dfa charge credit }
{
    let demand = Amount::from(u64::from(df));
    let adjustment = Amount {
        plus: df.into(),
        minus: dfa.into(),
    };
    let cents = Amount {
        plus: credit,
        minus: charge,
    };
    let mut line = Text::new();
    line.push_text(&Amount::from(number).column::<3>());
    line.push(b' ');
    line.push_text(&demand.column::<7>());
    line.push(b' ');
    line.push_text(&adjustment.column::<8>());
    line.push(b' ');
    line.push_text(&cents.column::<15>());
    line.push(b'\n');
    line
}
