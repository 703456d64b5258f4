// What the book keeps ("The book").
ghost use Rattle.std.specs.Prelude.{◌≡◌, is_some};
ghost use Rattle.state.specs.State.{figures_of};

use plant::Plant;
use power::{Components, Hours, Kw};
use quantities::{CONSUMERS, PRODUCERS, UNITS};

// A cell for each pair of a producer and a consumer, a row for each producer, one behind the other: one flat list, as `cell_of` and `row_of`
// of specs/ have it, into which one index stores.
pub const CELLS: usize = PRODUCERS * CONSUMERS;

// The four stages, each leading to the next.
#[derive(Clone, Copy, Debug, PartialEq, Eq)]
pub enum Stage {
    Blank,
    Gathering,
    Firm,
    Closed,
}

// What a unit was enrolled with.
#[derive(Clone, Copy, Debug, PartialEq, Eq)]
pub struct Entry {
    pub producer: u32,
    pub flags: u32,
    pub cap: Option<Kw>,
    pub plant: Plant,
}

// A unit: its enrolment, if there is one, and its components.
#[derive(Clone, Copy, Debug, PartialEq, Eq)]
pub struct Unit {
    pub enrolment: Option<Entry>,
    pub components: Components,
}

// What a consumer declared, D and A, and its firm demand DF, 0 before the fix, all kW.
#[derive(Clone, Copy, Debug, PartialEq, Eq)]
pub struct Figures {
    pub d: u32,
    pub a: u32,
    pub df: u32,
}

// Document 01 names this form, "an enum, undeclared or declared with figures, inside the consumer's struct": so it is no Option.
#[derive(Clone, Copy, Debug, PartialEq, Eq)]
pub enum Declaration {
    Undeclared,
    Declared(Figures),
}

impl Declaration {
    // The figures of who declared.
    pub fn figures(self) -> Option<Figures>
        ensures { result ≡ figures_of self }
    {
        match self {
            Declaration::Undeclared => None,
            Declaration::Declared(figures) => Some(figures),
        }
    }

    pub fn is_declared(self) -> bool
        ensures { result ≡ is_some (figures_of self) }
    {
        matches!(self, Declaration::Declared(_))
    }
}

// A consumer: what it declared, the reading of its meter, and the mean of its daily maxima, kW, each of these if there is one.
#[derive(Clone, Copy, Debug, PartialEq, Eq)]
pub struct Consumer {
    pub declaration: Declaration,
    pub reading: Option<u32>,
    pub mean: Option<u32>,
}

// The figures of the close: each consumer's DFA in kW, charge and credit in cents, their sums, and what is distributed to nobody. Arrays
// of figures, beside each other: a division takes one whole. The sums stand among them, since theorems name them there.
#[derive(Clone, Copy, Debug, PartialEq, Eq)]
pub struct CloseFigures {
    pub adjusted: [u32; CONSUMERS],
    pub charges: [u64; CONSUMERS],
    pub credits: [u64; CONSUMERS],
    pub charged: u64,
    pub credited: u64,
    pub undistributed: u64,
}

// A struct by value, with an array of figures for each thing that is kept of units and producers.
#[derive(Clone, Copy, Debug, PartialEq, Eq)]
pub struct Book {
    pub stage: Stage,
    pub hours: Hours,
    pub units: [Unit; UNITS],
    pub consumers: [Consumer; CONSUMERS],
    // The balance of a producer and a consumer, kW, a row for each producer.
    pub balances: [u32; CELLS],
    // From the fix on: DMP, the firm and efficient offers of the units, and what each producer may commit, kW.
    pub dmp: u32,
    pub offers: [u32; UNITS],
    pub efficient: [u32; UNITS],
    pub limits: [u32; PRODUCERS],
    // From the close on.
    pub closing: CloseFigures,
}
