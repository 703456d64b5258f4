// What the program's arguments ask for. An argument is a path or a word, and need be no text.
use crate::failure::Failure;
use std::env::FillError;
use std::io;
use std::rt::Env;

// The most bytes of an argument: those of the longest path.
pub const MOST_ARGUMENT: usize = 4096;

// The system's number of the error of a name that is too long.
const NAME_TOO_LONG: i32 = 36;

// What is printed of a journal.
#[derive(Clone, Copy, Debug, PartialEq, Eq)]
pub enum Asked {
    Listing,
    Replies,
    Run,
    Page,
    Narrow,
}

// What the first argument asks for, or that it is a file; what begins with a minus sign and is no word is unknown.
#[derive(Clone, Copy, Debug, PartialEq, Eq)]
enum Word {
    Print(Asked),
    Help,
    Unknown,
    File,
}

impl From<&[u8]> for Word {
    fn from(argument: &[u8]) -> Word {
        match argument {
            b"replies" => Word::Print(Asked::Replies),
            b"run" => Word::Print(Asked::Run),
            b"page" => Word::Print(Asked::Page),
            b"narrow" => Word::Print(Asked::Narrow),
            b"help" | b"--help" | b"-h" => Word::Help,
            [b'-', ..] => Word::Unknown,
            _ => Word::File,
        }
    }
}

// What the arguments ask for: the words, or what is printed of a journal, of standard input where no file is named.
#[derive(Clone, Copy, Debug, PartialEq, Eq)]
pub enum Request<'a> {
    Help,
    Print {
        asked: Asked,
        path: Option<&'a [u8]>,
    },
}

// The argument at a place, in the space that is lent for it; none where the program was given none there.
fn argument<'a>(
    rt: &HostRuntime,
    place: usize,
    name: &'a [u8],
    space: &'a mut [u8],
) -> Result<Option<&'a [u8]>, Failure<'a>> {
    match rt.arg(place, space) {
        Ok(size) => Ok(Some(&space[..size])),
        Err(FillError::NotPresent) => Ok(None),
        Err(FillError::TooLong) => Err(Failure::System {
            name,
            error: io::Error::from_raw_os_error(NAME_TOO_LONG),
        }),
    }
}

// Whether the program was given an argument at this place.
fn is_given(rt: &HostRuntime, place: usize) -> bool {
    !matches!(rt.arg(place, &mut []), Err(FillError::NotPresent))
}

impl<'a> Request<'a> {
    // What the arguments ask for, of which the first two stand in the spaces that are lent for them.
    pub fn of(
        rt: &HostRuntime,
        first: &'a mut [u8],
        second: &'a mut [u8],
    ) -> Result<Request<'a>, Failure<'a>> {
        let Some(first) = argument(rt, 1, b"first argument", first)? else {
            return Ok(Request::Print {
                asked: Asked::Listing,
                path: None,
            });
        };
        match Word::from(first) {
            Word::Unknown => Err(Failure::UnknownWord(first)),
            Word::Help if is_given(rt, 2) => Err(Failure::TooManyArguments),
            Word::Help => Ok(Request::Help),
            Word::Print(_) if is_given(rt, 3) => Err(Failure::TooManyArguments),
            Word::Print(asked) => Ok(Request::Print {
                asked,
                path: argument(rt, 2, b"second argument", second)?,
            }),
            Word::File if is_given(rt, 2) => Err(Failure::UnknownWord(first)),
            Word::File => Ok(Request::Print {
                asked: Asked::Listing,
                path: Some(first),
            }),
        }
    }
}
