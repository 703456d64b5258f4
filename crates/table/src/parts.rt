// A call as its record has it: the record's mark, and the values of its fields.
ghost use Rattle.table.specs.Records.{parts_of};
ghost use Rattle.std.specs.Prelude.{◌≡◌};

use crate::calls::Call;
use crate::columns::consumer_field;
use crate::consumers::ConsumerCall;
use crate::contracts::ContractCall;
use crate::forms::{FIELDS, Mark};
use crate::units::UnitCall;

// The values are 0 where there is no field.
#[derive(Clone, Copy, Debug, PartialEq, Eq)]
pub struct Parts {
    pub mark: Mark,
    pub values: [u32; FIELDS],
}

impl From<Call> for Parts {
    ghost from_gives = { λ call parts. parts ≡ parts_of call };

    #[inline(always)]
    #[tactic(auto, unfolding(crate::specs::Records::parts_of))]
    fn from(call: Call) -> Parts {
        match call {
            Call::Year(h) => Parts {
                mark: Mark::Year,
                values: [h.nhrm, h.nhmd, h.ndhmd, 0, 0, 0, 0, 0, 0],
            },
            Call::Fix { dmp } => Parts {
                mark: Mark::Fix,
                values: [dmp, 0, 0, 0, 0, 0, 0, 0, 0],
            },
            Call::Close { p } => Parts {
                mark: Mark::Close,
                values: [p, 0, 0, 0, 0, 0, 0, 0, 0],
            },
            Call::Unit {
                unit,
                act: UnitCall::Enrol(e),
            } => Parts {
                mark: Mark::Enrol,
                values: [
                    unit, e.producer, e.kind, e.flags, e.pic, e.ppr, e.e1, e.e2, e.cap,
                ],
            },
            Call::Unit {
                unit,
                act: UnitCall::Test {
                    component,
                    trial: t,
                },
            } => Parts {
                mark: Mark::Test,
                values: [unit, component, t.ending, t.tc, t.count, 0, 0, 0, 0],
            },
            Call::Unit {
                unit,
                act: UnitCall::Availability {
                    component,
                    minutes: m,
                },
            } => Parts {
                mark: Mark::Availability,
                values: [unit, component, m.hd, m.hmp, m.hif, m.hed, 0, 0, 0],
            },
            Call::Consumer {
                consumer,
                act: ConsumerCall::Declare { d, a },
            } => Parts {
                mark: Mark::Declare(consumer_field(consumer)),
                values: [consumer, d, a, 0, 0, 0, 0, 0, 0],
            },
            Call::Consumer {
                consumer,
                act: ConsumerCall::Meter { dreal },
            } => Parts {
                mark: Mark::Meter(consumer_field(consumer)),
                values: [consumer, dreal, 0, 0, 0, 0, 0, 0, 0],
            },
            Call::Consumer {
                consumer,
                act: ConsumerCall::Mean { mean },
            } => Parts {
                mark: Mark::Mean(consumer_field(consumer)),
                values: [consumer, mean, 0, 0, 0, 0, 0, 0, 0],
            },
            // Commit and release apart: each call has its arm, as its record has a mark of its own.
            Call::Contract {
                producer,
                consumer,
                act: ContractCall::Commit { q },
            } => Parts {
                mark: Mark::Commit(consumer_field(consumer)),
                values: [producer, consumer, q, 0, 0, 0, 0, 0, 0],
            },
            Call::Contract {
                producer,
                consumer,
                act: ContractCall::Release { q },
            } => Parts {
                mark: Mark::Release(consumer_field(consumer)),
                values: [producer, consumer, q, 0, 0, 0, 0, 0, 0],
            },
        }
    }
}
