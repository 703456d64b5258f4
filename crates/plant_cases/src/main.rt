// Runs the worked examples on standard input through Level Plant, and writes one line for each.
//
//     0 given pic                                         a new unit, without an answer
//     1 component ending tc count length readings..       a test: number, has a result, maximum power in watts, memory
//     2 component hd hmp hif hed                          an availability: number
//     3 kind report ppr e1 e2 cap nhrm nhmd ndhmd         the firm offer in kW
//     4 flags offer flags offer ..                        the chosen year, the efficient offers
#![tactic(auto)]

mod line; // line.rt: what a line asks for

use line::{Line, numbers_of};
use plant::{
    Component, Components, Kw, efficient_offers, firm_offer, fresh_components, maximum_power,
    set_availability, test,
};
use quantities::{Refusal, UNITS, number_met};
use std::alloc::Global;
use std::io::{self, BufWriter, Read, Write};

// The most bytes that are read.
const MOST_INPUT: u64 = 65_536;

// The bytes of the readings of a test line; where there are fewer readings, zeros.
const BYTES: usize = 424;

// The unit that the lines are about.
#[derive(Clone, Copy, Debug, PartialEq, Eq)]
struct Unit {
    components: Components,
    cap: Option<Kw>,
}

impl Unit {
    fn new(cap: Option<Kw>) -> Unit {
        Unit {
            components: fresh_components(),
            cap,
        }
    }
}

// The answer to a test: its number, whether the component has a result, its maximum power in watts and the memory.
fn show_tested<W: Write>(
    out: &mut W,
    tested: Result<Component, Refusal>,
    component: Component,
) -> io::Result<()> {
    let has_result = component.result.is_some() as u8;
    let power = maximum_power(component).0;
    let memory = component.void_trip as u8;
    writeln!(out, "{} {has_result} {power} {memory}", number_met(tested))
}

// The unit after a line, of which the answer is written.
fn answer<W: Write>(out: &mut W, alloc: Global, unit: &mut Unit, line: Line) -> io::Result<()> {
    match line {
        Line::Unit { cap } => {
            *unit = Unit::new(cap);
            Ok(())
        }
        Line::Test {
            part,
            trial,
            length,
            readings,
        } => {
            let mut bytes = readings
                .iter()
                .flat_map(|reading| reading.to_le_bytes())
                .collect::<Vec<u8>>(alloc)?;
            bytes.resize(BYTES, 0)?;
            // More bytes than there are, which no test is lent, are not answered. By `as`: std has no From from u32 to usize.
            let Some(lent) = bytes.get(..length as usize) else {
                return Ok(());
            };
            let component = part.of(&mut unit.components);
            let tested = test(*component, unit.cap, trial, lent);
            *component = tested.unwrap_or(*component);
            show_tested(out, tested, *component)
        }
        Line::Availability { part, minutes } => {
            let component = part.of(&mut unit.components);
            let available = set_availability(*component, minutes);
            *component = available.unwrap_or(*component);
            writeln!(out, "{}", number_met(available))
        }
        Line::Offer { plant, hours } => {
            let offer = firm_offer(plant, hours, unit.components);
            writeln!(out, "{}", offer.0)
        }
        Line::Efficient(units) => show_efficient(out, units),
    }
}

// The chosen year and the efficient offers of units, of which flags and offer stand by turns; 0 and 0 of those that are not there.
fn show_efficient<W: Write>(out: &mut W, units: &[u32]) -> io::Result<()> {
    let mut flags = [0; UNITS];
    let mut offers = [0; UNITS];
    for ((flag, offer), pair) in flags.iter_mut().zip(&mut offers).zip(units.chunks(2)) {
        *flag = pair.first().copied().unwrap_or(0);
        *offer = pair.get(1).copied().unwrap_or(0);
    }
    let answer = efficient_offers(flags, offers);
    write!(out, "{}", answer.year)?;
    for (offer, _) in answer.offers.iter().zip(units.chunks(2)) {
        write!(out, " {offer}")?;
    }
    writeln!(out)
}

fn main(rt: HostRuntime) -> io::Result<()> {
    let mut input = Vec::new(rt.alloc());
    rt.stdin().take(MOST_INPUT).read_to_end(&mut input)?;
    let mut out = BufWriter::new(rt.alloc(), io::writer(&rt))?;
    let mut unit = Unit::new(None);
    for line in input.split_inclusive(|byte| *byte == b'\n') {
        let numbers = numbers_of(rt.alloc(), line)?;
        answer(
            &mut out,
            rt.alloc(),
            &mut unit,
            Line::from(numbers.as_slice()),
        )?;
    }
    out.flush()
}
