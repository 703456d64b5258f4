// The writer: a call's record at the start of a lent buffer.
ghost use Rattle.std.specs.Prelude.{◌≡◌, ◌≤◌, length};
ghost use Rattle.basis.specs.Numbers.{written};
ghost use Rattle.quantities.specs.Refusals.{met};
ghost use Rattle.table.specs.Records.{record_size};
ghost use Rattle.table.specs.Ranges.{call_number};
ghost use Rattle.record.specs.Writing.{record_of, write_number, written_by};

use crate::fields::{put_bytes, put_fields};
use quantities::Refusal;
use ranges::check_call;
use table::{Call, Fields, fields_of, readings_size};

// The bytes of a call's record.
#[tactic(auto, using(table::proofs::Table::fields_small), unfolding(table::specs::Ranges::fields_of))]
pub fn record_size(call: Call) -> usize
    ensures { result ≡ record_size call }
{
    fields_of(call).form.size + readings_size(call)
}

// A call's record, over what stands at the start of out. The readings are lent beside the call, which is a value.
fn put_record(call: Call, readings: &[u8], out: &mut [u8])
    requires { (call_number call readings.now ≡ 0) × (record_size call ≤ length out.old) }
    ensures { out.new ≡ written out.old 0 (record_of call readings.now) }
{
    let Fields { form, values } = fields_of(call);
    basis::put_number(out, 0, 2, u64::from(form.mark));
    put_fields(out, 2, &form.widths, &values);
    put_bytes(out, form.size, &readings[..readings_size(call)]);
}

// Refuses the call out of range, and then a buffer that is too short, with nothing written; else writes the record over the start of out.
// The readings are lent beside the call, which is a value.
pub fn write(call: Call, readings: &[u8], out: &mut [u8]) -> Result<(), Refusal>
    ensures { (met result ≡ write_number call readings.now (length out.old)) × (out.new ≡ written_by call readings.now out.old) }
{
    check_call(call, readings)?;
    if out.len() < record_size(call) {
        return Err(Refusal::ShortBuffer);
    }
    put_record(call, readings, out);
    Ok(())
}
