// The most bytes of the lines of each letter, and of a listing.
use quantities::{CONSUMERS, PRODUCERS, UNITS};
use text::LONGEST_LINE;

// A line for each unit, for each producer, and for each consumer.
pub const LONGEST_BY_UNIT: usize = UNITS * LONGEST_LINE;

pub const LONGEST_BY_PRODUCER: usize = PRODUCERS * LONGEST_LINE;

pub const LONGEST_BY_CONSUMER: usize = CONSUMERS * LONGEST_LINE;

// The lines of the firm year, those of a close with its totals, and the counts, whatever the run.
pub const LONGEST_FIRM: usize = LONGEST_BY_UNIT + LONGEST_BY_PRODUCER + LONGEST_BY_CONSUMER;

pub const LONGEST_CLOSED: usize = LONGEST_BY_CONSUMER + LONGEST_LINE;

pub const LONGEST: usize = LONGEST_FIRM + LONGEST_CLOSED + LONGEST_LINE;
