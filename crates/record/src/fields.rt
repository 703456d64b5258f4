// The fields of a record, written one after the other, and bytes behind them: each at a place, since a record is written into the middle of
// the caller's output, and `written` says what stays before and behind.
ghost use Rattle.std.specs.Prelude.{◌≡◌, ◌+◌, ◌≤◌, length};
ghost use Rattle.basis.specs.Numbers.{written};
ghost use Rattle.basis.specs.Sums.{sum};
ghost use Rattle.table.specs.Fields.{encode};

use table::FIELDS;

// The values in these widths, over what stands in out from `at` on.
// Widths and values are the two arrays of `Fields`.
pub fn put_fields(out: &mut [u8], at: usize, widths: &[usize; FIELDS], values: &[u32; FIELDS])
    requires { at + sum widths.now ≤ length out.old }
    ensures { out.new ≡ written out.old at (encode widths.now values.now) }
{
    let mut place = at;
    for (width, value) in widths.iter().zip(values) {
        basis::put_number(out, place, *width, u64::from(*value));
        place += *width;
    }
}

// The bytes, over what stands in out from `at` on.
pub fn put_bytes(out: &mut [u8], at: usize, bytes: &[u8])
    requires { at + length bytes.now ≤ length out.old }
    ensures { out.new ≡ written out.old at bytes.now }
{
    out[at..at + bytes.len()].copy_from_slice(bytes);
}
