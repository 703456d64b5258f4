// What is asked of a unit.
use power::{Minutes, Trial};

// What a unit is enrolled with: its producer, its kind, its flags, and the figures that kinds and flags use, 0 where they do not.
#[derive(Clone, Copy, Debug, PartialEq, Eq)]
pub struct Enrolling {
    pub producer: u32,
    pub kind: u32,
    pub flags: u32,
    pub pic: u32,
    pub ppr: u32,
    pub e1: u32,
    pub e2: u32,
    pub cap: u32,
}

// What is asked of a unit, with the fields of its record behind the unit. A test's readings are lent beside the call, four bytes each, low
// byte first. Kind, flags and component are numbers, since a record may hold any: check_fields refuses those out of range.
#[derive(Clone, Copy, Debug, PartialEq, Eq)]
pub enum UnitCall {
    Enrol(Enrolling),
    Test { component: u32, trial: Trial },
    Availability { component: u32, minutes: Minutes },
}
