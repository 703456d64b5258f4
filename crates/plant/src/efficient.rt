// The efficient offers of all units. A year is a number throughout, since it is the number of its flag, and each use asks a unit's flags for
// it. Flags and offers are two arrays: the offers are the book's, the flags are made of its units.
ghost use Rattle.std.specs.Prelude.{◌≡◌};
ghost use Rattle.quantities.specs.Limits.{units};
ghost use Rattle.plant.specs.Efficient.{counted, efficient_offer, year_sum, chosen_year, efficient_offers, efficient_of};

use quantities::{FIRST_YEAR, FORCED_GENERATION, SECOND_YEAR, UNITS, is_flagged};
use std::array;

// The simulated year that was chosen, 1 or 2, and each unit's efficient offer in kW.
#[derive(Clone, Copy, Debug, PartialEq, Eq)]
pub struct Efficient {
    pub year: u32,
    pub offers: [u32; UNITS],
}

// What a unit adds to a year's sum.
fn counted(year: u32, flags: u32, offer: u32) -> u32
    ensures { result ≡ counted year flags offer }
{
    if is_flagged(year, flags) { offer } else { 0 }
}

// The sum of the offers of the units used in a year.
fn year_sum(year: u32, flags: &[u32; UNITS], offers: &[u32; UNITS]) -> u64
    ensures { result ≡ year_sum units year flags.now offers.now }
{
    flags
        .iter()
        .zip(offers)
        .map(|(flags, offer)| u64::from(counted(year, *flags, *offer)))
        .sum()
}

// The year of the greater sum, of a tie the first.
fn chosen_year(flags: &[u32; UNITS], offers: &[u32; UNITS]) -> u32
    ensures { result ≡ chosen_year units flags.now offers.now }
{
    if year_sum(FIRST_YEAR, flags, offers) < year_sum(SECOND_YEAR, flags, offers) {
        SECOND_YEAR
    } else {
        FIRST_YEAR
    }
}

// A unit's offer, if it is used in the year or forced generation persists, else 0.
fn efficient_offer(year: u32, flags: u32, offer: u32) -> u32
    ensures { result ≡ efficient_offer year flags offer }
{
    if is_flagged(year, flags) || is_flagged(FORCED_GENERATION, flags) {
        offer
    } else {
        0
    }
}

// The efficient offers once the year is chosen.
fn offers_in(year: u32, flags: &[u32; UNITS], offers: &[u32; UNITS]) -> [u32; UNITS]
    ensures { result ≡ efficient_offers units year flags.now offers.now }
{
    array::from_fn(|i| efficient_offer(year, flags[i], offers[i]))
}

// The year chosen and the efficient offers, from each unit's flags and offer.
pub fn efficient_offers(flags: [u32; UNITS], offers: [u32; UNITS]) -> Efficient
    ensures { result ≡ efficient_of units flags offers }
{
    let year = chosen_year(&flags, &offers);
    Efficient {
        year,
        offers: offers_in(year, &flags, &offers),
    }
}
