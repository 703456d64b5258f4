// What a call of a consumer comes to.
ghost use Rattle.std.specs.Prelude.{◌≡◌};
ghost use Rattle.quantities.specs.Refusals.{met, decided};
ghost use Rattle.state.specs.declared.kept.Stage.TheVariants.{Firm};
ghost use Rattle.state.specs.State.{staged};
ghost use Rattle.decision.specs.Consumers.{known, consumer_answer_of};

use quantities::Refusal;
use state::{Consumer, Declaration, Figures, Stage, check_stage};
use table::{Call, ConsumerCall, check_fields};

// A consumer that did not declare is refused.
pub(crate) fn check_declared(declaration: Declaration) -> Result<(), Refusal>
    ensures { met result ≡ known declaration 0 }
{
    match declaration {
        Declaration::Undeclared => Err(Refusal::NotDeclared),
        Declaration::Declared(_) => Ok(()),
    }
}

// Real demand is told in stage firm, of who declared: 4, 10.
fn check_metered(stage: Stage, declaration: Declaration) -> Result<(), Refusal>
    ensures { met result ≡ staged Firm stage (known declaration 0) }
{
    check_stage(stage, Stage::Firm)?;
    check_declared(declaration)
}

// A call of a consumer, decided from the stage and the consumer: a refusal, or the consumer that is to be stored. Its parameters come apart,
// as the match over the call that chose this function has them.
#[inline(always)]
#[tactic(auto, unfolding(table::specs::Ranges::call_number, table::specs::Ranges::rest_in_range, crate::specs::Consumers::consumer_answer_of, crate::specs::Consumers::consumer_number, crate::specs::Consumers::consumer_rest, crate::specs::Consumers::consumer_after))]
pub fn consumer_answer(
    consumer: u32,
    act: ConsumerCall,
    stage: Stage,
    x: Consumer,
) -> Result<Consumer, Refusal>
    ensures { decided result ≡ consumer_answer_of consumer act stage x }
{
    check_fields(Call::Consumer { consumer, act })?;
    match act {
        ConsumerCall::Declare { d, a } => {
            check_stage(stage, Stage::Gathering)?;
            let declaration = Declaration::Declared(Figures { d, a, df: 0 });
            Ok(Consumer { declaration, ..x })
        }
        ConsumerCall::Meter { dreal } => {
            check_metered(stage, x.declaration)?;
            Ok(Consumer {
                reading: Some(dreal),
                ..x
            })
        }
        ConsumerCall::Mean { mean } => {
            check_metered(stage, x.declaration)?;
            Ok(Consumer {
                mean: Some(mean),
                ..x
            })
        }
    }
}
