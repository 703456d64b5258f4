// Reads items of standard input, each a length of two bytes and as many bytes, and writes a line for the record that stands at the
// start of each: what was read, the number of its call, and what the writer makes of it.
#![tactic(auto)]

use quantities::number_met;
use record::{Call, Read, check_call};
use std::fmt;
use std::io::{self, BufReader, BufWriter, ErrorKind, Write};
use table::fields_of;

// The most bytes of an item, and of a record.
const MOST_ITEM: usize = 4096;

// Fills the space with input; whether there was enough of it.
fn fill<R: io::Read>(input: &mut R, space: &mut [u8]) -> io::Result<bool> {
    match input.read_exact(space) {
        Ok(()) => Ok(true),
        Err(error) if error.kind() == ErrorKind::UnexpectedEof => Ok(false),
        Err(error) => Err(error),
    }
}

// The next item of the input, in the space that is lent for it; none where the input has ended or cuts it short, or where it is too long.
fn next_item<'a, R: io::Read>(
    input: &mut R,
    space: &'a mut [u8; MOST_ITEM],
) -> io::Result<Option<&'a [u8]>> {
    let mut size = [0; 2];
    if !fill(input, &mut size)? {
        return Ok(None);
    }
    let Some(item) = space.get_mut(..u16::from_le_bytes(size).into()) else {
        return Ok(None);
    };
    if !fill(input, item)? {
        return Ok(None);
    }
    Ok(Some(item))
}

// Each byte as two hexadecimal digits. It is only printed.
#[derive(Drop)]
struct Hex<'a>(&'a [u8]);

impl fmt::Display for Hex<'_> {
    fn fmt<W: fmt::Write>(&self, f: &mut fmt::Formatter<W>) -> fmt::Result {
        for byte in self.0 {
            write!(f, "{byte:02x}")?;
        }
        Ok(())
    }
}

// The call's fields in the table's order.
fn show_fields<W: Write>(out: &mut W, call: Call) -> io::Result<()> {
    let fields = fields_of(call);
    for (width, value) in fields.form.widths.iter().zip(fields.values) {
        if *width != 0 {
            write!(out, " {value}")?;
        }
    }
    Ok(())
}

// What the writer makes of a call in a buffer of so many bytes: its number, or the record's bytes.
// The readings are lent beside the call, which is a value.
fn show_written<W: Write>(
    out: &mut W,
    call: Call,
    readings: &[u8],
    buffer: &mut [u8],
) -> io::Result<()> {
    match record::write(call, readings, buffer) {
        Ok(()) => writeln!(out, " {}", Hex(buffer)),
        Err(refusal) => writeln!(out, " {}", u32::from(refusal)),
    }
}

// What stands at the start of an item: the mark and the size of a record, its fields, the number of its call and what the writer makes
// of it in the space that is lent for it; or why there is none.
fn show<W: Write>(out: &mut W, item: &[u8]) -> io::Result<()> {
    match record::read_at(item, 0) {
        Read::End => writeln!(out, "end"),
        Read::Record {
            call,
            readings,
            next,
        } => {
            let readings = record::readings_of(item, readings, next);
            write!(
                out,
                "read {} {next}",
                Hex(item.get(..2).unwrap_or_default())
            )?;
            show_fields(out, call)?;
            write!(out, " {}", number_met(check_call(call, readings)))?;
            let mut space = [0; MOST_ITEM];
            let size = next.min(MOST_ITEM); // an item has no more
            show_written(out, call, readings, &mut space[..size])
        }
        stop => writeln!(out, "stop {}", record::stop_number(stop)),
    }
}

// The items are counted, up to a number that no input uses up.
fn main(rt: HostRuntime) -> io::Result<()> {
    let mut input = BufReader::new(rt.alloc(), rt.reader())?;
    let mut out = BufWriter::new(rt.alloc(), io::writer(&rt))?;
    let mut space = [0; MOST_ITEM];
    for _ in 0..u64::MAX {
        let Some(item) = next_item(&mut input, &mut space)? else {
            break;
        };
        show(&mut out, item)?;
    }
    out.flush()
}
