// The lines of producers.
ghost use Rattle.std.specs.Prelude.{◌≡◌, ◌++◌, ◌+◌, ◌≤◌, length};
ghost use Rattle.letters.specs.Letters.{owners_of, producer_line, producer_lines};

use crate::room::{LONGEST, LONGEST_BY_PRODUCER};
use crate::units::has_unit;
use decision::producer_balance;
use quantities::{PRODUCERS, UNITS};
use state::{CELLS, Unit};
use text::{LONGEST_LINE, Text, line};

// The line P of a producer, none where it has no unit.
// The flag stands beside the figures, as in the definition: the book has a limit for every producer.
#[tactic(auto, unfolding(crate::specs::Letters::producer_line))]
fn producer_line(number: usize, owner: bool, limit: u32, balance: u64) -> Text<LONGEST_LINE>
    ensures { result ≡ producer_line number owner limit balance }
{
    if owner {
        line(
            b'P',
            &[number.into(), u64::from(limit).into(), balance.into()],
        )
    } else {
        Text::new()
    }
}

// The lines P of all producers, behind what a listing has so far. By parts of the book, as the definitions are.
#[tactic(auto, unfolding(crate::specs::Letters::producer_lines))]
pub fn push_producer_lines(
    units: &[Unit; UNITS],
    limits: &[u32; PRODUCERS],
    balances: &[u32; CELLS],
    listing: &mut Text<LONGEST>,
)
    requires { length listing.old + LONGEST_BY_PRODUCER ≤ LONGEST }
    ensures text { listing.new ≡ listing.old ++ producer_lines (owners_of units.now) limits.now balances.now }
    ensures room { length listing.new ≤ length listing.old + LONGEST_BY_PRODUCER }
{
    listing.push_join(PRODUCERS, |i| {
        let producer = i as u32 + 1;
        producer_line(
            i + 1,
            has_unit(units, producer),
            limits[i],
            producer_balance(balances, producer),
        )
    });
}
