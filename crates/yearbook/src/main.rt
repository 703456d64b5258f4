// `yearbook [replies | run | page | narrow] [FILE] | yearbook help`: words, reading and writing. What is printed of a journal is made in `desk`.
#![tactic(auto)]

mod arguments; // arguments.rt: what the program is asked for
mod failure; // failure.rt: why the program ends before its time
mod input; // input.rt: the input, read whole
mod output; // output.rt: what goes to standard output and standard error

use arguments::{Asked, MOST_ARGUMENT, Request};
use failure::{Failure, USAGE};
use input::read_whole;
use output::{print, tell};
use std::fs::File;
use std::io::{self, Read};
use std::process::ExitCode;

// The system's number of the error of a name that is no UTF-8.
const NO_TEXT: i32 = 84;

// The status of a program whose reader has left, as a shell tells it.
const BROKEN_PIPE: u8 = 141;

// What `help` prints behind the usage.
const HELP: &str = "\
Reads a journal of the firm capacity book, FILE or standard input, of at most 65536 bytes.
  without a word  the listing: U units, P producers, D demands, S settlements, T totals, R records
  replies         each record's place, call, number and meaning, and where the reading stopped
  run             the counts, where and why the reading stopped, and the first refused record with its number
  page            the printed close: a line of 36 columns for each declared consumer, 50 to a page
  narrow          the same journal, for programs of 64 consumers, where no record has a mark for those above; no book is run
  help            these words
A journal holds binary records; scripts/journal of the sources makes them from lines of text.
Where the program ends by itself, standard error is empty exactly when all was read and accepted, and all that was asked for was written.
";

// What is asked for, of a reader that the name stands for. One byte more than is taken is read, so that longer input is known.
fn answer_reader<'a, R: Read + Drop>(
    rt: &HostRuntime,
    asked: Asked,
    mut reader: R,
    name: &'a [u8],
) -> Result<(), Failure<'a>> {
    let mut space = [0; listing::MOST_INPUT + 1];
    let count = read_whole(&mut reader, &mut space).map_err(|error| Failure::System {
        name,
        error,
    })?;
    tell(rt, asked, &space[..count])
}

// The file, opened for reading. A name that is no UTF-8 opens none.
fn open(rt: &HostRuntime, path: &[u8]) -> io::Result<File> {
    let name = str::from_utf8(path).map_err(|_| io::Error::from_raw_os_error(NO_TEXT))?;
    File::open(rt, name)
}

// What is asked for, of a file.
fn answer_file<'a>(rt: &HostRuntime, asked: Asked, path: &'a [u8]) -> Result<(), Failure<'a>> {
    match open(rt, path) {
        Ok(file) => answer_reader(rt, asked, file, path),
        Err(error) if asked == Asked::Listing => Err(Failure::NotOpened { path, error }),
        Err(error) => Err(Failure::System { name: path, error }),
    }
}

// What the arguments ask for.
fn answer<'a>(rt: &HostRuntime, request: Request<'a>) -> Result<(), Failure<'a>> {
    match request {
        Request::Help => {
            print(rt, USAGE.as_bytes())?;
            print(rt, HELP.as_bytes())
        }
        Request::Print { asked, path: None } => {
            answer_reader(rt, asked, rt.stdin(), b"standard input")
        }
        Request::Print {
            asked,
            path: Some(path),
        } => answer_file(rt, asked, path),
    }
}

fn main(rt: HostRuntime) -> ExitCode {
    let mut first = [0u8; MOST_ARGUMENT];
    let mut second = [0u8; MOST_ARGUMENT];
    let answered = Request::of(&rt, &mut first, &mut second).and_then(|request| answer(
        &rt, request,
    ));
    let is_left = match answered {
        Ok(()) => false,
        Err(Failure::ReaderLeft) => true,
        Err(failure) => failure.say(&mut rt.stderr()).is_err(),
    };
    if is_left {
        ExitCode::from(BROKEN_PIPE)
    } else {
        ExitCode::SUCCESS
    }
}
