// What refuses a call: the numbered replies, but for the two at which the reading of a journal stops.
ghost use Rattle.std.specs.Prelude.{◌≡◌};
ghost use Rattle.quantities.specs.Refusals.{refusal_number, met};

#[derive(Clone, Copy, Debug, PartialEq, Eq)]
pub enum Refusal {
    // A field outside its range; a division's total, weights or their count.
    OutOfRange,
    WrongStage,
    AlreadyEnrolled,
    NotEnrolled,
    // A component foreign to the unit's kind.
    ForeignComponent,
    // A count of readings against the full time TC.
    CountAgainstTime,
    // Minutes that cannot be.
    ImpossibleMinutes,
    // A consumer that did not declare.
    NotDeclared,
    // More than the producer's efficient offers.
    AboveOffers,
    // More than the pair's balance.
    AboveBalance,
    // Weights that sum to 0.
    NoWeight,
    // An adjusted demand DFA above the greatest power.
    AboveGreatestPower,
    ShortBuffer,
    // A declared consumer with neither a reading nor a mean.
    NoRealDemand,
    // Of an outage log: a window or an entry whose end is not after its start, a window too long, or an entry out of order.
    OutOfOrder,
    // In the converter: a mark for consumers above those that one byte names.
    WideMark,
    // Charges above what a division takes.
    AboveGreatestTotal,
}

impl From<Refusal> for u32 {
    ghost from_gives = { λ refusal n. n ≡ refusal_number refusal };

    fn from(refusal: Refusal) -> u32 {
        match refusal {
            Refusal::OutOfRange => 3,
            Refusal::WrongStage => 4,
            Refusal::AlreadyEnrolled => 5,
            Refusal::NotEnrolled => 6,
            Refusal::ForeignComponent => 7,
            Refusal::CountAgainstTime => 8,
            Refusal::ImpossibleMinutes => 9,
            Refusal::NotDeclared => 10,
            Refusal::AboveOffers => 11,
            Refusal::AboveBalance => 12,
            Refusal::NoWeight => 13,
            Refusal::AboveGreatestPower => 14,
            Refusal::ShortBuffer => 15,
            Refusal::NoRealDemand => 16,
            Refusal::OutOfOrder => 17,
            Refusal::WideMark => 18,
            Refusal::AboveGreatestTotal => 19,
        }
    }
}

// The number that an answer meets, 0 where it is no refusal.
pub fn number_met<T: Copy>(answer: Result<T, Refusal>) -> u32
    ensures { result ≡ met answer }
{
    match answer {
        Ok(_) => 0,
        Err(refusal) => refusal.into(),
    }
}
