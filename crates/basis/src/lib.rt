// Numbers in a buffer of bytes, low byte first, read at any place and any width up to eight bytes, written at any place and width.
#![tactic(auto)]

ghost use Rattle.std.specs.Prelude.{◌≡◌, ◌+◌, ◌*◌, ◌≤◌, ◌<◌, ◌^◌, length};
ghost use Rattle.basis.specs.Numbers.{number_at, bytes_of, all_bytes_of, written};

// The number of `width` bytes of s from `at` on. Byte by byte, since from_le_bytes has one width.
pub fn number_at(s: &[u8], at: usize, width: usize) -> u64
    requires { (width ≤ 8) × (at + width ≤ length s.now) }
    ensures { result ≡ number_at width s.now at }
{
    let mut x: u64 = 0;
    for byte in s[at..at + width].iter().rev() {
        x = x * 256 + u64::from(*byte);
    }
    x
}

// The low bytes of x, `width` of them, over those of out from `at` on. Byte by byte, since to_le_bytes has one width and this takes
// more than eight bytes; at a place, since a record is written into the middle of the caller's output.
pub fn put_number(out: &mut [u8], at: usize, width: usize, x: u64)
    requires { at + width ≤ length out.old }
    ensures { out.new ≡ written out.old at (bytes_of width x) }
{
    let mut y = x;
    for byte in &mut out[at..at + width] {
        *byte = (y % 256) as u8;
        y /= 256;
    }
}

// The numbers one after the other, `width` bytes each, over the front of out, which is the caller's buffer: amounts or figures for C.
pub fn put_numbers(out: &mut [u8], width: usize, numbers: &[u64])
    requires { width * length numbers.now ≤ length out.old }
    ensures { out.new ≡ written out.old 0 (all_bytes_of width numbers.now) }
{
    for (i, number) in numbers.iter().enumerate() {
        put_number(out, width * i, width, *number);
    }
}
