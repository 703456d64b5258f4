// The card of least counts.
ghost use Rattle.std.specs.Prelude.{◌≡◌};
ghost use Rattle.power.specs.Card.{least_count};

use plant::least_count;

// The card's count for TC, 0 for a TC that it does not have: C has no Option (include/plant.h).
#[unsafe(no_mangle)]
pub extern "C" fn plant_least_count(tc: u32) -> u32
    ensures { result ≡ least_count tc }
{
    least_count(tc)
}
