// The records by their marks, the form of each, a call's fields as its record has them, and the fields that a kind of unit uses.
ghost use Rattle.std.specs.Prelude.{◌≡◌};
ghost use Rattle.table.specs.Records.{is_wide};

// The most fields that a record has.
pub const FIELDS: usize = 9;

// The field of a consumer in a record: one byte for those up to `BYTE_CONSUMERS`, two bytes for those above.
#[derive(Clone, Copy, Debug, PartialEq, Eq)]
pub enum ConsumerField {
    Narrow,
    Wide,
}

// The records, in the table's order; those that name a consumer with either field.
#[derive(Clone, Copy, Debug, PartialEq, Eq)]
pub enum Mark {
    Year,
    Enrol,
    Test,
    Availability,
    Declare(ConsumerField),
    Fix,
    Commit(ConsumerField),
    Release(ConsumerField),
    Meter(ConsumerField),
    Close,
    Mean(ConsumerField),
}

impl Mark {
    // The mark is one for consumers above those that one byte names.
    pub fn is_wide(self) -> bool
        ensures { result ≡ is_wide self }
    {
        match self {
            Mark::Declare(field)
            | Mark::Commit(field)
            | Mark::Release(field)
            | Mark::Meter(field)
            | Mark::Mean(field) => field == ConsumerField::Wide,
            _ => false,
        }
    }
}

// A record's mark, low byte first, the bytes of mark and fields together, and each field's width, 0 where there is no field.
#[derive(Clone, Copy, Debug, PartialEq, Eq)]
pub struct Form {
    pub mark: u32,
    pub size: usize,
    pub widths: [usize; FIELDS],
}

// A call's fields as its record has them: the form, and the values, 0 where there is no field. Two arrays: the widths are the record's,
// the values the call's.
#[derive(Clone, Copy, Debug, PartialEq, Eq)]
pub struct Fields {
    pub form: Form,
    pub values: [u32; FIELDS],
}

// The fields that a kind of unit uses, with the flag of its supply report.
#[derive(Clone, Copy, Debug, PartialEq, Eq)]
pub struct Uses {
    pub report: bool,
    pub ppr: bool,
    pub e1: bool,
    pub e2: bool,
    pub cap: bool,
}
