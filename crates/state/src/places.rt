// Where a unit, a producer and a consumer stand in the book.
ghost use Rattle.std.specs.Prelude.{◌≡◌, ◌<◌};
ghost use Rattle.quantities.specs.Limits.{units, consumers};
ghost use Rattle.state.specs.Places.{place_among, place_of};

use quantities::{CONSUMERS, UNITS};

// The place of a number from 1 to the count, if it is one.
// By `as`: std has no From from u32 to usize.
pub fn place_among(count: usize, number: u32) -> Option<usize>
    ensures { result ≡ place_among count number }
{
    let place = (number as usize).checked_sub(1)?;
    (place < count).then_some(place)
}

// The place of a number from 1 on, 0 where it is out of range: no Option, since a call out of range is refused whatever stands there.
fn place_of(greatest: usize, number: u32) -> usize
    ensures { result ≡ place_of greatest number }
{
    place_among(greatest, number).unwrap_or(0)
}

// The place of a unit. A const parameter in the place of the count would ask callers for one above 0.
pub fn unit_place(unit: u32) -> usize
    ensures { (result ≡ place_of units unit) × (result < units) }
{
    place_of(UNITS, unit)
}

// The place of a consumer. No const parameter, as above.
pub fn consumer_place(consumer: u32) -> usize
    ensures { (result ≡ place_of consumers consumer) × (result < consumers) }
{
    place_of(CONSUMERS, consumer)
}
