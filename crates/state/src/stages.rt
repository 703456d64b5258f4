// The four stages by their numbers, and the stage that a call belongs to.
ghost use Rattle.std.specs.Prelude.{◌≡◌, []};
ghost use Rattle.quantities.specs.Refusals.{met};
ghost use Rattle.state.specs.State.{stage_number, ranged, staged};

use crate::kept::Stage;
use quantities::Refusal;
use ranges::check_call;
use table::Call;

impl From<Stage> for u32 {
    ghost from_gives = { λ stage n. n ≡ stage_number stage };

    fn from(stage: Stage) -> u32 {
        match stage {
            Stage::Blank => 0,
            Stage::Gathering => 1,
            Stage::Firm => 2,
            Stage::Closed => 3,
        }
    }
}

// A call that belongs to a stage of its own is refused in another.
pub fn check_stage(stage: Stage, own: Stage) -> Result<(), Refusal>
    ensures { met result ≡ staged own stage 0 }
{
    if stage == own {
        Ok(())
    } else {
        Err(Refusal::WrongStage)
    }
}

// What bars a call before what it concerns is asked: a field out of range, then a stage that is not its own.
#[inline(always)]
pub fn check_open(call: Call, stage: Stage, own: Stage) -> Result<(), Refusal>
    ensures { met result ≡ ranged call [] (staged own stage 0) }
{
    check_call(call, b"")?;
    check_stage(stage, own)
}
