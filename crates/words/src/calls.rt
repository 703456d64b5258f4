// A call in words, as a line of a text journal has it.
ghost use Rattle.std.specs.Prelude.{◌≡◌, ◌++◌, ◌+◌, ◌≤◌, length};
ghost use Rattle.words.specs.Calls.{call_name, value_text, fields_text, readings_text, call_text};

use quantities::GREATEST_COUNT;
use table::{Call, ConsumerCall, ContractCall, FIELDS, Fields, UnitCall, fields_of};
use text::{LONGEST_DECIMAL, Text};

// The most bytes of a call's name, and of a value behind its blank.
const LONGEST_NAME: usize = 12;

const LONGEST_VALUE: usize = 1 + LONGEST_DECIMAL;

// The most bytes of a call's fields, of its readings, and of the call.
const LONGEST_FIELDS: usize = FIELDS * LONGEST_VALUE;

const LONGEST_READINGS: usize = GREATEST_COUNT as usize * LONGEST_VALUE;

pub const LONGEST_CALL: usize = LONGEST_NAME + LONGEST_FIELDS + LONGEST_READINGS;

// The name of a call.
#[tactic(auto, unfolding(crate::specs::Calls::call_name))]
fn call_name(call: Call) -> &'static str
    ensures words { result.now ≡ call_name call }
    ensures short { length result.now ≤ LONGEST_NAME }
{
    match call {
        Call::Year(_) => "year",
        Call::Fix { .. } => "fix",
        Call::Close { .. } => "close",
        Call::Unit {
            act: UnitCall::Enrol(_),
            ..
        } => "unit",
        Call::Unit {
            act: UnitCall::Test { .. },
            ..
        } => "test",
        Call::Unit {
            act: UnitCall::Availability { .. },
            ..
        } => "availability",
        Call::Consumer {
            act: ConsumerCall::Declare { .. },
            ..
        } => "declare",
        Call::Consumer {
            act: ConsumerCall::Meter { .. },
            ..
        } => "meter",
        Call::Consumer {
            act: ConsumerCall::Mean { .. },
            ..
        } => "mean",
        Call::Contract {
            act: ContractCall::Commit { .. },
            ..
        } => "commit",
        Call::Contract {
            act: ContractCall::Release { .. },
            ..
        } => "release",
    }
}

// A number behind a blank, behind what a text has so far.
#[tactic(auto, unfolding(crate::specs::Calls::value_text))]
fn push_value<const N: usize>(value: u32, text: &mut Text<N>)
    requires { length text.old + LONGEST_VALUE ≤ N }
    ensures text { text.new ≡ text.old ++ value_text value }
    ensures room { length text.new ≤ length text.old + LONGEST_VALUE }
{
    text.push(b' ');
    text.push_decimal(value.into());
}

// The fields, behind what a text has so far: where a width is 0, there is none.
#[tactic(auto, unfolding(crate::specs::Calls::fields_text))]
fn push_fields<const N: usize>(fields: Fields, text: &mut Text<N>)
    requires { length text.old + LONGEST_FIELDS ≤ N }
    ensures text { text.new ≡ text.old ++ fields_text fields.form.widths fields.values }
    ensures room { length text.new ≤ length text.old + LONGEST_FIELDS }
{
    for (width, value) in fields.form.widths.iter().zip(&fields.values) {
        if *width != 0 {
            push_value(*value, text);
        }
    }
}

// The readings that the bytes hold, four bytes each: at most as many as a test in range has. By `as`: std has no From from u32 to usize.
fn push_readings<const N: usize>(readings: &[u8], text: &mut Text<N>)
    requires { length text.old + LONGEST_READINGS ≤ N }
    ensures text { text.new ≡ text.old ++ readings_text readings.now }
    ensures room { length text.new ≤ length text.old + LONGEST_READINGS }
{
    for reading in readings
        .as_chunks::<4>()
        .0
        .iter()
        .take(GREATEST_COUNT as usize)
    {
        push_value(u32::from_le_bytes(*reading), text);
    }
}

// The call with its readings, behind what a text has so far.
// The readings are lent beside the call, which is a value.
#[tactic(auto, unfolding(crate::specs::Calls::call_text, table::specs::Ranges::fields_of))]
pub fn push_call<const N: usize>(call: Call, readings: &[u8], text: &mut Text<N>)
    requires { length text.old + LONGEST_CALL ≤ N }
    ensures text { text.new ≡ text.old ++ call_text call readings.now }
    ensures room { length text.new ≤ length text.old + LONGEST_CALL }
{
    text.push_str(call_name(call));
    push_fields(fields_of(call), text);
    push_readings(readings, text);
}

// The same as a text of its own.
pub fn call_text(call: Call, readings: &[u8]) -> Text<LONGEST_CALL>
    ensures { result ≡ call_text call readings.now }
{
    let mut text = Text::new();
    push_call(call, readings, &mut text);
    text
}
