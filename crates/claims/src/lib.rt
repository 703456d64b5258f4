// Theorems about the book: each function does nothing, and its contract is one theorem of specs/.

#![tactic(auto)]

ghost use Rattle.std.specs.Prelude.{List, ℕ};
ghost use Rattle.claims.specs.Demand.{Claim};
ghost use Rattle.claims.specs.Refusals.{ExactRefusals};
ghost use Rattle.claims.specs.Cases.{Thirteen};
ghost use Rattle.claims.specs.Printed.{AlwaysPrinted};
ghost use Rattle.claims.specs.Journals.{EveryJournal};
ghost use Rattle.claims.specs.Before.{AsBefore, NarrowReadsAlike};

// Demand 3 holds after every list of calls.
#[tactic(auto, using(crate::proofs::Theorem::demand3))]
pub fn demand3()
    ensures { Claim }
{}

// After every list of calls, any further call answers the number of the listed conditions.
#[tactic(auto, using(crate::proofs::Refusals::exact_refusals))]
pub fn exact_refusals()
    ensures { ExactRefusals }
{}

// The thirteen cases that the papers fix.
#[tactic(auto, using(crate::proofs::Cases::thirteen))]
pub fn thirteen()
    ensures { Thirteen }
{}

// What is promised of the printed close holds after every list of calls.
pub fn always_printed()
    ensures { AlwaysPrinted }
{}

// A journal whose reading meets no mark for consumers above 64 runs as it did under the table of 64.
pub fn as_before()
    ensures { AsBefore }
{}

// What the converter takes is read to its end under that table, record by record, as under the new one.
pub fn narrow_reads_alike()
    ensures { NarrowReadsAlike }
{}

// What is promised of the run holds of every journal.
pub fn every_journal()
    ensures { (journal : List ℕ) → EveryJournal journal }
{}
