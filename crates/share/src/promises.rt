// What is promised of a division: a function that does nothing, whose contract is the theorem of specs/.
ghost use Rattle.share.specs.Promises.{SharesDivide};

// The amounts add up to the total, each within a unit of its quotient, and the units left over go to the largest remainders.
pub fn shares_divide()
    ensures { SharesDivide }
{}
