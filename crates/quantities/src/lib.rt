// The limits of the papers, each once: "Quantities", the ranges of "Journal records", "Division by shares", an outage log; the flags of a unit, and
// the numbered replies.
#![tactic(auto)]

mod flags; // flags.rt: the flags of a unit
mod refusals; // refusals.rt: the numbered replies

pub use flags::{
    ALL_FLAGS, FIRST_YEAR, FORCED_GENERATION, INJECTION_GIVEN, REPORT_HELD, SECOND_YEAR, is_flagged,
};
pub use refusals::{Refusal, number_met};

// Units, producers and consumers that a book has room for.
pub const UNITS: usize = 48;

pub const PRODUCERS: usize = 16;

pub const CONSUMERS: usize = 300;

// The greatest consumer that a record's field of one byte names.
pub const BYTE_CONSUMERS: usize = 64;

// The greatest field of power, kW.
pub const GREATEST_POWER: u32 = 3_000_000;

// The greatest energy that is no reading, kWh.
pub const GREATEST_ENERGY: u32 = 4_000_000_000;

// The greatest reading, the kWh of one quarter hour.
pub const GREATEST_READING: u64 = 750_000;

// The greatest figure of availability, minutes.
pub const GREATEST_MINUTES: u32 = 1_052_640;

// The greatest minute at which a window or an entry of an outage log starts or ends.
pub const LAST_MINUTE: u32 = 4_000_000_000;

// The most entries of an outage log.
pub const MOST_ENTRIES: usize = 1_000;

// The greatest hours of a stage, and of a day.
pub const GREATEST_HOURS: u32 = 744;

pub const GREATEST_DAY_HOURS: u32 = 24;

// The greatest kind of plant, component, and ending of a test.
pub const GREATEST_KIND: u32 = 8;

pub const GREATEST_COMPONENT: u32 = 2;

pub const GREATEST_ENDING: u32 = 2;

// The full test time TC, in quarter hours, and the most readings.
pub const LEAST_TIME: u32 = 4;

pub const GREATEST_TIME: u32 = 96;

pub const GREATEST_COUNT: u32 = 96;

// The greatest price P, cents per kW-month.
pub const GREATEST_PRICE: u32 = 2_500;

// What a division takes: the greatest total, the greatest weight, the most weights.
pub const GREATEST_TOTAL: u64 = 6_000_000_000_000;

pub const GREATEST_WEIGHT: u64 = GREATEST_POWER as u64;

pub const MOST_WEIGHTS: usize = CONSUMERS;
