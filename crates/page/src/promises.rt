// Theorems about the pages: each function does nothing, and its contract is one theorem of specs/.
ghost use Rattle.page.specs.Promises.{AlwaysPaged, CaseJ};

// Pages count from 1; all but the last carry 50 lines, the last 1 to 50.
pub fn always_paged()
    ensures { AlwaysPaged }
{}

// The printed close of case J.
#[tactic(auto, using(crate::proofs::Paging::case_j))]
pub fn case_j()
    ensures { CaseJ }
{}
