// The record of a mark, the call of its bytes, and the fields of a call.
ghost use Rattle.std.specs.Prelude.{◌≡◌, ◌<◌, ◌≤◌, ◌^◌, length};
ghost use Rattle.basis.specs.Numbers.{number};
ghost use Rattle.quantities.specs.Refusals.{met};
ghost use Rattle.table.specs.Fields.{decode, within_all};
ghost use Rattle.table.specs.Records.{widest, mark_at, form_of, call_of, readings_size};
ghost use Rattle.table.specs.Ranges.{fields_of, fields_number};

use crate::calls::Call;
use crate::columns::Column;
use crate::forms::{ConsumerField, FIELDS, Fields, Form, Mark};
use crate::lines::{READING, call_columns, line_of};
use crate::parts::Parts;
use crate::units::UnitCall;
use quantities::Refusal;

// The record whose mark is the number, low byte first: a match, since a search through the lines takes several times as long, and a bar of speed
// binds the run. The contract holds it to the table.
#[tactic(auto, unfolding(crate::specs::Records::mark_at, crate::specs::Records::table_of))]
pub fn mark_at(number: u32) -> Option<Mark>
    ensures { result ≡ mark_at number }
{
    match number {
        0x5259 => Some(Mark::Year),
        0x4E55 => Some(Mark::Enrol),
        0x5354 => Some(Mark::Test),
        0x5641 => Some(Mark::Availability),
        0x4D44 => Some(Mark::Declare(ConsumerField::Narrow)),
        0x5846 => Some(Mark::Fix),
        0x4D43 => Some(Mark::Commit(ConsumerField::Narrow)),
        0x4C52 => Some(Mark::Release(ConsumerField::Narrow)),
        0x544D => Some(Mark::Meter(ConsumerField::Narrow)),
        0x4C43 => Some(Mark::Close),
        0x5441 => Some(Mark::Mean(ConsumerField::Narrow)),
        0x6D64 => Some(Mark::Declare(ConsumerField::Wide)),
        0x6D63 => Some(Mark::Commit(ConsumerField::Wide)),
        0x6C72 => Some(Mark::Release(ConsumerField::Wide)),
        0x746D => Some(Mark::Meter(ConsumerField::Wide)),
        0x7461 => Some(Mark::Mean(ConsumerField::Wide)),
        _ => None,
    }
}

// The form of a record. It is made where it is asked for, as the functions below, since for a known mark it is constant.
#[inline(always)]
#[tactic(auto, unfolding(crate::specs::Records::form_of))]
pub fn form_of(mark: Mark) -> Form
    ensures { result ≡ form_of mark }
{
    let line = line_of(mark);
    let widths = line.columns.map(|column| column.width);
    Form {
        mark: line.mark,
        size: 2 + widths.iter().sum::<usize>(),
        widths,
    }
}

// The number of a field's bytes, low byte first.
fn number_of(field: &[u8]) -> u32
    requires { length field.now ≤ widest }
    ensures { result ≡ number field.now }
{
    basis::number_at(field, 0, field.len()) as u32
}

// The values that bytes hold in the widths of a record's fields; those that are not there count as 0. By places: one map over the widths
// proves too, but takes half as long again for a record, and a bar of speed binds the run.
#[inline(always)]
fn decode(mark: Mark, fields: &[u8]) -> [u32; FIELDS]
    ensures { result ≡ decode (form_of mark).widths fields.now }
{
    let widths = form_of(mark).widths;
    let mut values = [0; FIELDS];
    let mut rest = fields;
    for i in 0..FIELDS {
        let (field, behind) = rest.split_at(widths[i].min(rest.len()));
        values[i] = number_of(field);
        rest = behind;
    }
    values
}

// The call of a record whose fields are these bytes; those that are not there count as 0.
#[inline(always)]
pub fn call_of(mark: Mark, fields: &[u8]) -> Call
    ensures { result ≡ call_of mark (decode (form_of mark).widths fields.now) }
{
    let values = decode(mark, fields);
    Call::from(Parts { mark, values })
}

// The bytes of a call's readings: only a test has some. By `as`: std has no From from u32 to usize.
#[tactic(auto, unfolding(crate::specs::Records::readings_size, crate::specs::Records::parts_of, crate::specs::Records::table_of))]
pub fn readings_size(call: Call) -> usize
    ensures value { result ≡ readings_size call }
    ensures below { result < 2 ^ 34 }
{
    match call {
        Call::Unit {
            act: UnitCall::Test { trial, .. },
            ..
        } => READING * trial.count as usize,
        _ => 0,
    }
}

// The fields of any call.
#[tactic(auto, unfolding(crate::specs::Ranges::fields_of))]
pub fn fields_of(call: Call) -> Fields
    ensures { result ≡ fields_of call }
{
    let Parts { mark, values } = Parts::from(call);
    Fields {
        form: form_of(mark),
        values,
    }
}

// Each value stands from the least to the greatest of its column.
#[inline(always)]
fn within_all(columns: &[Column; FIELDS], values: &[u32; FIELDS]) -> bool
    ensures { result ≡ within_all columns.now values.now }
{
    columns
        .iter()
        .zip(values)
        .all(|(column, value)| column.holds(*value))
}

// Refuses a call with a field out of range.
#[inline(always)]
#[tactic(auto, using(crate::proofs::Tested::tested), unfolding(crate::specs::Ranges::fields_number))]
pub fn check_fields(call: Call) -> Result<(), Refusal>
    ensures { met result ≡ fields_number call }
{
    let Parts { mark, values } = Parts::from(call);
    if within_all(&call_columns(mark), &values) {
        Ok(())
    } else {
        Err(Refusal::OutOfRange)
    }
}
