// The columns of the table: the width and the range of each field, and the two fields of a consumer.
ghost use Rattle.std.specs.Prelude.{◌≡◌};
ghost use Rattle.basis.specs.Choice.{between};
ghost use Rattle.table.specs.Records.{consumer_column, consumer_field, consumer_named};

use crate::forms::ConsumerField;
use quantities::{
    ALL_FLAGS, BYTE_CONSUMERS, CONSUMERS, GREATEST_COMPONENT, GREATEST_COUNT, GREATEST_DAY_HOURS,
    GREATEST_ENDING, GREATEST_ENERGY, GREATEST_HOURS, GREATEST_KIND, GREATEST_MINUTES,
    GREATEST_POWER, GREATEST_PRICE, GREATEST_TIME, LEAST_TIME, PRODUCERS, UNITS,
};

// A field's column: its width in bytes, its least and its greatest value.
#[derive(Clone, Copy, Debug, PartialEq, Eq)]
pub struct Column {
    pub width: usize,
    pub least: u32,
    pub greatest: u32,
}

impl Column {
    // The value stands from the least to the greatest.
    pub fn holds(self, value: u32) -> bool
        ensures { result ≡ between self.least self.greatest value }
    {
        (self.least..=self.greatest).contains(&value)
    }
}

// No field: a column of width 0, no Option: its bytes and its range are 0, so that one zip over nine columns serves every record.
pub const NONE: Column = Column {
    width: 0,
    least: 0,
    greatest: 0,
};

pub const HOURS: Column = Column {
    width: 2,
    least: 1,
    greatest: GREATEST_HOURS,
};

pub const DAY_HOURS: Column = Column {
    width: 1,
    least: 1,
    greatest: GREATEST_DAY_HOURS,
};

pub const UNIT: Column = Column {
    width: 1,
    least: 1,
    greatest: UNITS as u32,
};

pub const PRODUCER: Column = Column {
    width: 1,
    least: 1,
    greatest: PRODUCERS as u32,
};

// The greatest consumer of one byte, and the greatest of all.
const GREATEST_NARROW: u32 = BYTE_CONSUMERS as u32;

const GREATEST_WIDE: u32 = CONSUMERS as u32;

pub const CONSUMER: Column = Column {
    width: 1,
    least: 1,
    greatest: GREATEST_NARROW,
};

pub const WIDE: Column = Column {
    width: 2,
    least: GREATEST_NARROW + 1,
    greatest: GREATEST_WIDE,
};

// Either of the two.
pub const EITHER: Column = Column { least: 1, ..WIDE };

pub const KIND: Column = Column {
    width: 1,
    least: 1,
    greatest: GREATEST_KIND,
};

pub const FLAGS: Column = Column {
    width: 1,
    least: 0,
    greatest: ALL_FLAGS,
};

pub const COMPONENT: Column = Column {
    width: 1,
    least: 0,
    greatest: GREATEST_COMPONENT,
};

pub const ENDING: Column = Column {
    width: 1,
    least: 0,
    greatest: GREATEST_ENDING,
};

pub const FULL_TIME: Column = Column {
    width: 1,
    least: LEAST_TIME,
    greatest: GREATEST_TIME,
};

pub const COUNT: Column = Column {
    width: 1,
    least: 0,
    greatest: GREATEST_COUNT,
};

pub const MINUTES: Column = Column {
    width: 4,
    least: 0,
    greatest: GREATEST_MINUTES,
};

pub const ENERGY: Column = Column {
    width: 4,
    least: 0,
    greatest: GREATEST_ENERGY,
};

pub const POWER: Column = Column {
    width: 4,
    least: 0,
    greatest: GREATEST_POWER,
};

// A power that is not 0.
pub const AMOUNT: Column = Column { least: 1, ..POWER };

pub const PRICE: Column = Column {
    width: 2,
    least: 1,
    greatest: GREATEST_PRICE,
};

// The column of a consumer's field.
fn consumer_column(field: ConsumerField) -> Column
    ensures { result ≡ consumer_column field }
{
    match field {
        ConsumerField::Narrow => CONSUMER,
        ConsumerField::Wide => WIDE,
    }
}

// The field that a consumer's record has.
pub(crate) fn consumer_field(consumer: u32) -> ConsumerField
    ensures { result ≡ consumer_field consumer }
{
    if consumer <= GREATEST_NARROW {
        ConsumerField::Narrow
    } else {
        ConsumerField::Wide
    }
}

// The consumer that a field names: where the number is out of the field's range 0, which is in no record's range and no call's. No Option: a
// call's consumer is a number, and check_fields refuses those out of range.
pub(crate) fn consumer_named(field: ConsumerField, number: u32) -> u32
    ensures { result ≡ consumer_named field number }
{
    if consumer_column(field).holds(number) {
        number
    } else {
        0
    }
}
