// A fresh book.
ghost use Rattle.std.specs.Prelude.{◌≡◌};
ghost use Rattle.state.specs.State.{fresh_unit, no_figures, fresh_book};

use crate::kept::{Book, CELLS, CloseFigures, Consumer, Declaration, Stage, Unit};
use power::{Hours, fresh_components};
use quantities::{CONSUMERS, PRODUCERS, UNITS};

// A unit that is not enrolled.
fn fresh_unit() -> Unit
    ensures { result ≡ fresh_unit }
{
    Unit {
        enrolment: None,
        components: fresh_components(),
    }
}

// The figures of no close.
fn no_figures() -> CloseFigures
    ensures { result ≡ no_figures }
{
    CloseFigures {
        adjusted: [0; CONSUMERS],
        charges: [0; CONSUMERS],
        credits: [0; CONSUMERS],
        charged: 0,
        credited: 0,
        undistributed: 0,
    }
}

// A book that is blank, with no unit, test, availability, declaration, contract, reading or mean.
#[tactic(auto, unfolding(crate::specs::State::fresh_book))]
pub fn fresh() -> Book
    ensures { result ≡ fresh_book }
{
    let consumer = Consumer {
        declaration: Declaration::Undeclared,
        reading: None,
        mean: None,
    };
    Book {
        stage: Stage::Blank,
        hours: Hours {
            nhrm: 0,
            nhmd: 0,
            ndhmd: 0,
        },
        units: [fresh_unit(); UNITS],
        consumers: [consumer; CONSUMERS],
        balances: [0; CELLS],
        dmp: 0,
        offers: [0; UNITS],
        efficient: [0; UNITS],
        limits: [0; PRODUCERS],
        closing: no_figures(),
    }
}
