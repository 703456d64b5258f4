// What goes to standard output, and what to standard error.
use crate::arguments::Asked;
use crate::failure::{Failure, unless_left};
use desk::{
    Told, all_replies, narrow_findings, narrow_output, next_reply, told_listing, told_page,
    told_run,
};
use listing::MOST_INPUT;
use std::io::ErrorKind;

// The text on standard output.
pub fn print(rt: &HostRuntime, text: &[u8]) -> Result<(), Failure<'static>> {
    Print::write_all(rt, text).map_err(|error| match error.kind() {
        ErrorKind::BrokenPipe => Failure::ReaderLeft,
        _ => Failure::System {
            name: b"standard output",
            error,
        },
    })
}

// The replies on standard output, line by line.
#[inline(never)]
fn print_replies(rt: &HostRuntime, input: &[u8]) -> Result<(), Failure<'static>> {
    let mut rest = all_replies(input);
    while let Some(line) = next_reply(input, &mut rest) {
        print(rt, line.as_bytes())?;
    }
    Ok(())
}

// What is found wrong with an input, on standard error.
fn find(rt: &HostRuntime, findings: &[u8]) -> Result<(), Failure<'static>> {
    unless_left(Print::write_all(&rt.stderr(), findings))?;
    Ok(())
}

// What was told of an input: what is found wrong, and then what is printed.
fn print_told(rt: &HostRuntime, told: &Told) -> Result<(), Failure<'static>> {
    find(rt, told.findings.as_bytes())?;
    print(rt, told.output.as_bytes())
}

// The listing, the run in words, the printed close, the replies and the journal for 64 consumers, each behind what is found wrong. Each is a function that
// is not inlined: in `tell` there would be memory for the texts of all of them, which every run would pay for.
#[inline(never)]
fn tell_listing(rt: &HostRuntime, input: &[u8]) -> Result<(), Failure<'static>> {
    print_told(rt, &told_listing(input))
}

#[inline(never)]
fn tell_run(rt: &HostRuntime, input: &[u8]) -> Result<(), Failure<'static>> {
    print_told(rt, &told_run(input))
}

#[inline(never)]
fn tell_page(rt: &HostRuntime, input: &[u8]) -> Result<(), Failure<'static>> {
    print_told(rt, &told_page(input))
}

#[inline(never)]
fn find_listed(rt: &HostRuntime, input: &[u8]) -> Result<(), Failure<'static>> {
    find(rt, told_listing(input).findings.as_bytes())
}

#[inline(never)]
fn tell_narrow(rt: &HostRuntime, input: &[u8]) -> Result<(), Failure<'static>> {
    find(rt, narrow_findings(input).as_bytes())?;
    print(rt, narrow_output(input))
}

// What is found wrong with an input, and then what is asked for: who reads this may leave, as `head` does, and end the program.
// The replies are printed line by line, behind the findings of the listing; where the input is too long, the listing is what is printed too.
pub fn tell(rt: &HostRuntime, asked: Asked, input: &[u8]) -> Result<(), Failure<'static>> {
    match asked {
        Asked::Replies if input.len() <= MOST_INPUT => {
            find_listed(rt, input)?;
            print_replies(rt, input)
        }
        Asked::Listing | Asked::Replies => tell_listing(rt, input),
        Asked::Run => tell_run(rt, input),
        Asked::Page => tell_page(rt, input),
        Asked::Narrow => tell_narrow(rt, input),
    }
}
