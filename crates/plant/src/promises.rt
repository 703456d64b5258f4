// Theorems about powers and offers: each function does nothing, and its contract is one theorem of specs/.
ghost use Rattle.plant.specs.Promises.{TestWithinCap, TestWithinGreatest, ReadyAtMostWhole, OfferAtMostMaximum, EfficientOrNone};

// A test under a cap leaves a maximum power within the cap if it found one.
#[tactic(auto, using(crate::proofs::Results::test_within_cap))]
pub fn test_within_cap()
    ensures { TestWithinCap }
{}

// A test leaves a maximum power of at most 3,000,000 kW, in watts, if it found one.
#[tactic(auto, using(crate::proofs::Results::test_within_greatest))]
pub fn test_within_greatest()
    ensures { TestWithinGreatest }
{}

// A coefficient of availability is at most 1.
pub fn ready_at_most_whole()
    ensures { ReadyAtMostWhole }
{}

// A firm offer, times 1,000, is at most the maximum power of component 0 in watts.
#[tactic(auto, using(crate::proofs::Offers::offer_at_most_maximum))]
pub fn offer_at_most_maximum()
    ensures { OfferAtMostMaximum }
{}

// An efficient offer is the offer or 0.
pub fn efficient_or_none()
    ensures { EfficientOrNone }
{}
