// The table, line by line: the mark of each record, and its fields.
ghost use Rattle.std.specs.Prelude.{◌≡◌};
ghost use Rattle.table.specs.Records.{table_of};
ghost use Rattle.table.specs.Ranges.{call_columns};

use crate::columns::{
    AMOUNT, COMPONENT, CONSUMER, COUNT, Column, DAY_HOURS, EITHER, ENDING, ENERGY, FLAGS,
    FULL_TIME, HOURS, KIND, MINUTES, NONE, POWER, PRICE, PRODUCER, UNIT, WIDE,
};
use crate::forms::{ConsumerField, FIELDS, Mark};

// A record's line: its mark, low byte first, its columns, and the bytes of each reading behind the fields, 0 where there are none.
#[derive(Clone, Copy, Debug, PartialEq, Eq)]
pub struct Line {
    pub mark: u32,
    pub columns: [Column; FIELDS],
    pub reading: usize,
}

// The bytes of a reading.
pub const READING: usize = 4;

// 59 52 is 0x5259.
const YEAR: Line = Line {
    mark: 0x5259,
    columns: [HOURS, HOURS, DAY_HOURS, NONE, NONE, NONE, NONE, NONE, NONE],
    reading: 0,
};

const ENROL: Line = Line {
    mark: 0x4E55,
    columns: [
        UNIT, PRODUCER, KIND, FLAGS, POWER, POWER, ENERGY, ENERGY, ENERGY,
    ],
    reading: 0,
};

const TEST: Line = Line {
    mark: 0x5354,
    columns: [
        UNIT, COMPONENT, ENDING, FULL_TIME, COUNT, NONE, NONE, NONE, NONE,
    ],
    reading: READING,
};

const AVAILABILITY: Line = Line {
    mark: 0x5641,
    columns: [
        UNIT, COMPONENT, MINUTES, MINUTES, MINUTES, MINUTES, NONE, NONE, NONE,
    ],
    reading: 0,
};

const DECLARE: Line = Line {
    mark: 0x4D44,
    columns: [CONSUMER, POWER, POWER, NONE, NONE, NONE, NONE, NONE, NONE],
    reading: 0,
};

const FIX: Line = Line {
    mark: 0x5846,
    columns: [AMOUNT, NONE, NONE, NONE, NONE, NONE, NONE, NONE, NONE],
    reading: 0,
};

const COMMIT: Line = Line {
    mark: 0x4D43,
    columns: [
        PRODUCER, CONSUMER, AMOUNT, NONE, NONE, NONE, NONE, NONE, NONE,
    ],
    reading: 0,
};

const RELEASE: Line = Line {
    mark: 0x4C52,
    ..COMMIT
};

const METER: Line = Line {
    mark: 0x544D,
    columns: [CONSUMER, POWER, NONE, NONE, NONE, NONE, NONE, NONE, NONE],
    reading: 0,
};

const CLOSE: Line = Line {
    mark: 0x4C43,
    columns: [PRICE, NONE, NONE, NONE, NONE, NONE, NONE, NONE, NONE],
    reading: 0,
};

const MEAN: Line = Line {
    mark: 0x5441,
    ..METER
};

// Those of consumers above 64: 64 6D is 0x6D64.
const WIDE_DECLARE: Line = Line {
    mark: 0x6D64,
    columns: [WIDE, POWER, POWER, NONE, NONE, NONE, NONE, NONE, NONE],
    reading: 0,
};

const WIDE_COMMIT: Line = Line {
    mark: 0x6D63,
    columns: [PRODUCER, WIDE, AMOUNT, NONE, NONE, NONE, NONE, NONE, NONE],
    reading: 0,
};

const WIDE_RELEASE: Line = Line {
    mark: 0x6C72,
    ..WIDE_COMMIT
};

const WIDE_METER: Line = Line {
    mark: 0x746D,
    columns: [WIDE, POWER, NONE, NONE, NONE, NONE, NONE, NONE, NONE],
    reading: 0,
};

const WIDE_MEAN: Line = Line {
    mark: 0x7461,
    ..WIDE_METER
};

// The line of a record.
#[inline(always)]
#[tactic(auto, unfolding(crate::specs::Records::table_of))]
pub fn line_of(mark: Mark) -> Line
    ensures { result ≡ table_of mark }
{
    match mark {
        Mark::Year => YEAR,
        Mark::Enrol => ENROL,
        Mark::Test => TEST,
        Mark::Availability => AVAILABILITY,
        Mark::Declare(ConsumerField::Narrow) => DECLARE,
        Mark::Declare(ConsumerField::Wide) => WIDE_DECLARE,
        Mark::Fix => FIX,
        Mark::Commit(ConsumerField::Narrow) => COMMIT,
        Mark::Commit(ConsumerField::Wide) => WIDE_COMMIT,
        Mark::Release(ConsumerField::Narrow) => RELEASE,
        Mark::Release(ConsumerField::Wide) => WIDE_RELEASE,
        Mark::Meter(ConsumerField::Narrow) => METER,
        Mark::Meter(ConsumerField::Wide) => WIDE_METER,
        Mark::Close => CLOSE,
        Mark::Mean(ConsumerField::Narrow) => MEAN,
        Mark::Mean(ConsumerField::Wide) => WIDE_MEAN,
    }
}

// The columns in which the fields of a call of a record are tested: one for the consumer of either record, since a call's own consumer picks the
// record. So they are constant for each call, and a bar of speed binds the run.
#[inline(always)]
#[tactic(auto, unfolding(crate::specs::Ranges::call_columns, crate::specs::Records::table_of))]
pub fn call_columns(mark: Mark) -> [Column; FIELDS]
    ensures { result ≡ call_columns mark }
{
    match mark {
        Mark::Declare(_) => [EITHER, POWER, POWER, NONE, NONE, NONE, NONE, NONE, NONE],
        Mark::Commit(_) | Mark::Release(_) => [
            PRODUCER, EITHER, AMOUNT, NONE, NONE, NONE, NONE, NONE, NONE,
        ],
        Mark::Meter(_) | Mark::Mean(_) => [EITHER, POWER, NONE, NONE, NONE, NONE, NONE, NONE, NONE],
        Mark::Year => YEAR.columns,
        Mark::Enrol => ENROL.columns,
        Mark::Test => TEST.columns,
        Mark::Availability => AVAILABILITY.columns,
        Mark::Fix => FIX.columns,
        Mark::Close => CLOSE.columns,
    }
}
