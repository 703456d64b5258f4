// What is promised of a log's figures: a function that does nothing, whose contract is the theorem of specs/.
ghost use Rattle.outages.specs.Promises.{OutagesCount};

// Of every accepted log the figures are right as minutes, counted one by one.
#[tactic(auto, using(crate::proofs::Accepted::counted))]
pub fn outages_count()
    ensures { OutagesCount }
{}
