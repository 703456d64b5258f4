// Theorems on reading and writing: each function does nothing, and its contract is one of them.
ghost use Rattle.std.specs.Prelude.{List, ℕ};
ghost use Rattle.table.specs.declared.calls.Call.{Call};
ghost use Rattle.table.specs.Old.{MeetsAsBefore};
ghost use Rattle.record.specs.RoundTrip.{WrittenIsRead, ReadIsWritten, ReadIsPlaced, ReadIsAlone};
ghost use Rattle.record.specs.Old.{ReadsAsBefore};

// A call with its fields in range, written to any buffer that is long enough, reads back.
pub fn written_is_read()
    ensures { WrittenIsRead }
{}

// A record read with its fields in range is written again to its own bytes.
pub fn read_is_written()
    ensures { ReadIsWritten }
{}

// A read record's next place is beyond its start and within the journal.
#[tactic(auto, using(crate::proofs::RoundTrip::read_is_placed))]
pub fn read_is_placed()
    ensures { ReadIsPlaced }
{}

// What stands at a place where no mark for consumers above 64 does reads as it did under the table of 64.
#[tactic(auto, using(crate::proofs::Old::reads_as_before))]
pub fn reads_as_before()
    ensures { ReadsAsBefore }
{}

// .. and meets 3 as it did.
pub fn meets_as_before()
    ensures { (call : Call) (readings : List ℕ) → MeetsAsBefore call readings }
{}

// The reading of a record does not depend on what follows it.
pub fn read_is_alone()
    ensures { ReadIsAlone }
{}
