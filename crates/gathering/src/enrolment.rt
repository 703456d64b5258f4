// An enrolment, once it is in range and its stage is right.
ghost use Rattle.std.specs.Prelude.{◌≡◌};
ghost use Rattle.quantities.specs.Refusals.{decided, decided_by};
ghost use Rattle.gathering.specs.Units.{vacancy, entry_of, enrolled_unit};

use plant::{Kw, Kwh, Plant, fresh_components};
use quantities::{INJECTION_GIVEN, REPORT_HELD, Refusal, is_flagged};
use state::{Entry, Unit};
use table::Enrolling;

// What a unit is enrolled with: PIC if its flag says that it is given. No From: it would stand in `state`, and the definition `entry_of` stands here.
fn entry_of(enrolling: Enrolling) -> Entry
    ensures { result ≡ entry_of enrolling.producer enrolling.kind enrolling.flags enrolling.pic enrolling.ppr enrolling.e1 enrolling.e2 enrolling.cap }
{
    let Enrolling {
        producer,
        kind,
        flags,
        pic,
        ppr,
        e1,
        e2,
        cap,
    } = enrolling;
    Entry {
        producer,
        flags,
        cap: is_flagged(INJECTION_GIVEN, flags).then_some(Kw(pic)),
        plant: Plant {
            kind,
            report: is_flagged(REPORT_HELD, flags),
            ppr: Kw(ppr),
            e1: Kwh(e1),
            e2: Kwh(e2),
            cap: Kwh(cap),
        },
    }
}

// A unit that is enrolled, with no test and no availability.
fn enrolled_unit(entry: Entry) -> Unit
    ensures { result ≡ enrolled_unit entry }
{
    Unit {
        enrolment: Some(entry),
        components: fresh_components(),
    }
}

// An enrolment of a unit that is not enrolled.
// A match: each case has an answer of its own.
pub(crate) fn enrolled(unit: Unit, enrolling: Enrolling) -> Result<Unit, Refusal>
    ensures { decided result ≡ decided_by (vacancy unit.enrolment) (enrolled_unit (entry_of enrolling.producer enrolling.kind enrolling.flags enrolling.pic enrolling.ppr enrolling.e1 enrolling.e2 enrolling.cap)) }
{
    match unit.enrolment {
        None => Ok(enrolled_unit(entry_of(enrolling))),
        Some(_) => Err(Refusal::AlreadyEnrolled),
    }
}
