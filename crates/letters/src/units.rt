// The lines of units, and whose units they are.
ghost use Rattle.std.specs.Prelude.{◌≡◌, ◌++◌, ◌+◌, ◌≤◌, length};
ghost use Rattle.letters.specs.Letters.{unit_line, unit_lines, owners_of, owns};

use crate::room::{LONGEST, LONGEST_BY_UNIT};
use quantities::UNITS;
use state::{Entry, Unit};
use text::{LONGEST_LINE, Text, line};

// The line U of a unit, none where it is not enrolled.
// A match: each case has a text of its own.
#[tactic(auto, unfolding(crate::specs::Letters::unit_line))]
fn unit_line(
    number: usize,
    enrolment: Option<Entry>,
    offer: u32,
    efficient: u32,
) -> Text<LONGEST_LINE>
    ensures { result ≡ unit_line number enrolment offer efficient }
{
    match enrolment {
        None => Text::new(),
        Some(_) => line(
            b'U',
            &[
                number.into(),
                u64::from(offer).into(),
                u64::from(efficient).into(),
            ],
        ),
    }
}

// The lines U of all units, behind what a listing has so far. By parts of the book, as the definitions are.
#[tactic(auto, unfolding(crate::specs::Letters::unit_lines))]
pub fn push_unit_lines(
    units: &[Unit; UNITS],
    offers: &[u32; UNITS],
    efficient: &[u32; UNITS],
    listing: &mut Text<LONGEST>,
)
    requires { length listing.old + LONGEST_BY_UNIT ≤ LONGEST }
    ensures text { listing.new ≡ listing.old ++ unit_lines units.now offers.now efficient.now }
    ensures room { length listing.new ≤ length listing.old + LONGEST_BY_UNIT }
{
    listing.push_join(
        UNITS,
        |i| unit_line(i + 1, units[i].enrolment, offers[i], efficient[i]),
    );
}

// Whether a producer has a unit; one that is not enrolled is of producer 0, which no line has.
// Not that of `questions`: here a unit that is not enrolled counts as producer 0's, there as nobody's.
#[tactic(auto, unfolding(crate::specs::Letters::owners_of))]
pub(crate) fn has_unit(units: &[Unit; UNITS], producer: u32) -> bool
    ensures { result ≡ owns (owners_of units.now) producer }
{
    units.iter().any(|unit| unit.enrolment.map_or(0, |entry| entry.producer) == producer)
}
