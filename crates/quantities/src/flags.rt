// The flags of a unit: a number, as its record has them, since an offer is told of any, and a year is asked by its flag.
ghost use Rattle.std.specs.Prelude.{◌≡◌};
ghost use Rattle.quantities.specs.Flags.{flagged};

// Used in the first simulated year, and in the second: a year's flag is its number.
pub const FIRST_YEAR: u32 = 1;

pub const SECOND_YEAR: u32 = 2;

// Forced generation persists.
pub const FORCED_GENERATION: u32 = 4;

// PIC is given.
pub const INJECTION_GIVEN: u32 = 8;

// The supply report is held.
pub const REPORT_HELD: u32 = 16;

// All of them together.
pub const ALL_FLAGS: u32 = 31;

// The flag stands in the flags.
pub fn is_flagged(flag: u32, flags: u32) -> bool
    ensures { result ≡ flagged flag flags }
{
    flag != 0 && flags / flag % 2 == 1
}
