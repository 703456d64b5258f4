// The input, read whole. A failed read is not the end of the input.
ghost use Rattle.std.specs.Prelude.{◌≤◌, length, IfOk};

use std::io::{self, Read};

// Reads until the space is full or the input ends; answers how many bytes. Each read is lent all the room that is left, since what a read does not
// take of a packet is lost: `read_to_end` asks for less at first, and for memory, which may not be there.
pub fn read_whole<R: Read>(reader: &mut R, space: &mut [u8]) -> io::Result<usize>
    ensures { IfOk result (λ count. count ≤ length space.new) }
{
    let mut count = 0;
    while count < space.len() {
        let more = reader.read(&mut space[count..])?;
        if more == 0 {
            break;
        }
        count += more;
    }
    Ok(count)
}
