// The fields of a unit that its kind and flags do not use.
ghost use Rattle.std.specs.Prelude.{◌≡◌};
ghost use Rattle.table.specs.Ranges.{uses_of, unused_zero};

use quantities::{INJECTION_GIVEN, REPORT_HELD, is_flagged};
use table::{Enrolling, Uses};

// None of them.
const NONE: Uses = Uses {
    report: false,
    ppr: false,
    e1: false,
    e2: false,
    cap: false,
};

// The flag of the supply report and the fields PPR, E1, E2 and CAP by kind: a number, since any may be asked, and five kinds are one range.
// Document 01 names this form, a match over the kinds with ranges.
#[tactic(auto, unfolding(table::specs::Ranges::uses_of))]
pub(crate) fn uses_of(kind: u32) -> Uses
    ensures { result ≡ uses_of kind }
{
    match kind {
        1 => Uses {
            report: true,
            ..NONE
        },
        2 => Uses {
            report: true,
            ppr: true,
            ..NONE
        },
        3..=7 => Uses { e1: true, ..NONE },
        8 => Uses {
            e1: true,
            e2: true,
            cap: true,
            ..NONE
        },
        _ => NONE,
    }
}

// The flags and fields of a unit that its kind and flags do not use are 0.
#[tactic(auto, unfolding(table::specs::Ranges::unused_zero))]
pub(crate) fn unused_zero(e: Enrolling) -> bool
    ensures { result ≡ unused_zero (uses_of e.kind) e }
{
    let uses = uses_of(e.kind);
    (uses.report || !is_flagged(REPORT_HELD, e.flags))
        && (is_flagged(INJECTION_GIVEN, e.flags) || e.pic == 0)
        && (uses.ppr || e.ppr == 0)
        && (uses.e1 || e.e1 == 0)
        && (uses.e2 || e.e2 == 0)
        && (uses.cap || e.cap == 0)
}
