// Why the program ends before it has printed what was asked for, and what it says then.
use std::io::{self, ErrorKind, Write};

// How the program is called.
pub const USAGE: &str = "usage: yearbook [replies | run | page | narrow] [FILE] | yearbook help\n";

// Room for the words of an error and its number.
const MOST_WORDS: usize = 128;

// Who reads what the program writes has left. Nothing is written then any more, and nothing said.
#[derive(Clone, Copy, Debug, PartialEq, Eq)]
pub struct ReaderLeft;

// Whether a text was written to standard error is told to nobody, but that its reader has left.
pub fn unless_left(written: io::Result<()>) -> Result<(), ReaderLeft> {
    match written {
        Err(error) if error.kind() == ErrorKind::BrokenPipe => Err(ReaderLeft),
        _ => Ok(()),
    }
}

// Not compared: io::Error has no equality.
#[derive(Clone, Copy)]
pub enum Failure<'a> {
    ReaderLeft,
    // A file, a stream or an argument, and the system's error.
    System { name: &'a [u8], error: io::Error },
    // A file that stands alone and cannot be opened, which may be a mistyped word.
    NotOpened { path: &'a [u8], error: io::Error },
    // An argument in a word's place that is none.
    UnknownWord(&'a [u8]),
    // More arguments than a word and a file, or some behind `help`.
    TooManyArguments,
}

impl From<ReaderLeft> for Failure<'_> {
    fn from(_: ReaderLeft) -> Self {
        Failure::ReaderLeft
    }
}

impl Failure<'_> {
    // Says what failed, and why; nothing where the reader has left. No Display: a name is bytes and need be no UTF-8.
    pub fn say<W: Write>(&self, out: &mut W) -> Result<(), ReaderLeft> {
        match self {
            Failure::ReaderLeft => Ok(()),
            Failure::System { name, error } => say_error(out, name, *error),
            Failure::NotOpened { path, error } => {
                say_error(out, path, *error)?;
                say_piece(out, USAGE.as_bytes())
            }
            Failure::UnknownWord(word) => {
                say_piece(out, b"yearbook: ")?;
                say_piece(out, word)?;
                say_piece(out, b": unknown word\n")?;
                say_piece(out, USAGE.as_bytes())
            }
            Failure::TooManyArguments => {
                say_piece(out, b"yearbook: too many arguments\n")?;
                say_piece(out, USAGE.as_bytes())
            }
        }
    }
}

// A piece of what is said, whatever became of those before it.
fn say_piece<W: Write>(out: &mut W, piece: &[u8]) -> Result<(), ReaderLeft> {
    unless_left(out.write_all(piece))
}

// The name, and the error in the system's words, without its number.
fn say_error<W: Write>(out: &mut W, name: &[u8], error: io::Error) -> Result<(), ReaderLeft> {
    let mut space = [0u8; MOST_WORDS];
    let mut rest: &mut [u8] = &mut space;
    let _ = write!(rest, "{error}");
    let size = MOST_WORDS.saturating_sub(rest.len());
    let text = str::from_utf8(&space[..size]).unwrap_or_default();
    let words = text
        .split_once(" (os error ")
        .map_or(text, |(words, _)| words);
    say_piece(out, b"yearbook: ")?;
    say_piece(out, name)?;
    say_piece(out, b": ")?;
    say_piece(out, words.as_bytes())?;
    say_piece(out, b"\n")
}
