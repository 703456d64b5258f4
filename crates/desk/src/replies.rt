// The replies to a journal's records, line by line.
ghost use Rattle.std.specs.Prelude.{◌≡◌};
ghost use Rattle.desk.specs.Replies.{reply_line, end_line, rest_of, replies_for, Tells};

use book::{Book, fresh, step};
use listing::MOST_INPUT;
use quantities::number_met;
use record::{Call, Read, read_at, readings_of, stop_number};
use text::{LONGEST_DECIMAL, Text, decimal};
use words::{LONGEST_CALL, LONGEST_SAID, push_call, said};

// The room for a line, whatever the record: a place, a call, a number in words, and 16 bytes for what stands between or ends the journal.
pub const LONGEST_REPLY: usize = LONGEST_DECIMAL + LONGEST_CALL + LONGEST_SAID + 16;

// The replies that are still to be told: at most so many lines, from a place on, with the book that the calls before it have made.
#[derive(Clone, Copy, Debug, PartialEq, Eq)]
pub struct Rest {
    // A count, as `rest_of` has it: 0 behind a stop and of an input that is too long, which no place tells.
    pub left: usize,
    pub place: usize,
    pub book: Book,
}

// All replies to an input, none where it is too long.
// One comparison with `MOST_INPUT`: what is answered then differs.
#[tactic(auto, unfolding(crate::specs::Replies::lines_from, crate::specs::Replies::replies_of, crate::specs::Replies::replies_for))]
pub fn all_replies(input: &[u8]) -> Rest
    ensures { rest_of input.now result ≡ replies_for input.now }
{
    let left = if MOST_INPUT < input.len() {
        0
    } else {
        input.len() + 1
    };
    Rest {
        left,
        place: 0,
        book: fresh(),
    }
}

// The line of a record whose call was answered.
// By number: the line shows it, and 0 has words too. Place and number apart: a refusal stands in `Refused`, a stop in `Run`. The readings are
// lent beside the call. By `as`: std has no From from usize to u64.
#[tactic(auto, unfolding(crate::specs::Replies::reply_line))]
fn reply_line(place: usize, call: Call, readings: &[u8], number: u32) -> Text<LONGEST_REPLY>
    ensures { result ≡ reply_line place call readings.now number }
{
    let mut line = Text::new();
    line.push_text(&decimal(place as u64));
    line.push(b' ');
    push_call(call, readings, &mut line);
    line.push_str(": ");
    line.push_text(&said(number));
    line
}

// The last line: where and why the reading stopped.
// By number: 0 and the stops have words too. Place and stop apart: they stand in `Run` once a run has ended. By `as`, as above.
#[tactic(auto, unfolding(crate::specs::Replies::end_line))]
fn end_line(place: usize, stop: u32) -> Text<LONGEST_REPLY>
    ensures { result ≡ end_line place stop }
{
    let mut line = Text::new();
    line.push_text(&decimal(place as u64));
    if stop == 0 {
        line.push_str(" end of journal\n");
    } else {
        line.push_str(" stop: ");
        line.push_text(&said(stop));
    }
    line
}

// The next line of the replies, if one is left, behind which the rest stands then.
// No Iterator: `while let` is as plain, `Rest` stays without a lifetime, and `Tells` speaks of the rest before and behind.
pub fn next_reply(journal: &[u8], rest: &mut Rest) -> Option<Text<LONGEST_REPLY>>
    ensures { Tells journal.now rest.old result rest.new }
{
    if rest.left == 0 {
        return None;
    }
    let read = read_at(journal, rest.place);
    let Read::Record {
        call,
        readings,
        next,
    } = read
    else {
        rest.left = 0;
        return Some(end_line(rest.place, stop_number(read)));
    };
    let part = readings_of(journal, readings, next);
    let answer = step(rest.book, call, part);
    let line = reply_line(rest.place, call, part, number_met(answer));
    rest.left -= 1;
    rest.place = next;
    rest.book = answer.unwrap_or(rest.book);
    Some(line)
}
