// The calls by what they concern.
ghost use Rattle.table.specs.Records.{call_of};
ghost use Rattle.std.specs.Prelude.{◌≡◌};

use crate::columns::consumer_named;
use crate::consumers::ConsumerCall;
use crate::contracts::ContractCall;
use crate::forms::Mark;
use crate::parts::Parts;
use crate::units::{Enrolling, UnitCall};
use power::{Hours, Minutes, Trial};

// A call by what it concerns, with its fields in the table's order: the whole book, a unit, a consumer, or a producer's contract with a
// consumer.
#[derive(Clone, Copy, Debug, PartialEq, Eq)]
pub enum Call {
    Year(Hours),
    Fix {
        dmp: u32,
    },
    Close {
        p: u32,
    },
    Unit {
        unit: u32,
        act: UnitCall,
    },
    Consumer {
        consumer: u32,
        act: ConsumerCall,
    },
    Contract {
        producer: u32,
        consumer: u32,
        act: ContractCall,
    },
}

impl From<Parts> for Call {
    ghost from_gives = { λ parts call. call ≡ call_of parts.mark parts.values };

    #[inline(always)]
    #[tactic(auto, unfolding(crate::specs::Records::call_of))]
    fn from(parts: Parts) -> Call {
        let Parts { mark, values } = parts;
        match (mark, values) {
            (Mark::Year, [nhrm, nhmd, ndhmd, ..]) => Call::Year(Hours { nhrm, nhmd, ndhmd }),
            (Mark::Enrol, [unit, producer, kind, flags, pic, ppr, e1, e2, cap]) => Call::Unit {
                unit,
                act: UnitCall::Enrol(Enrolling {
                    producer,
                    kind,
                    flags,
                    pic,
                    ppr,
                    e1,
                    e2,
                    cap,
                }),
            },
            (Mark::Test, [unit, component, ending, tc, count, ..]) => Call::Unit {
                unit,
                act: UnitCall::Test {
                    component,
                    trial: Trial { ending, tc, count },
                },
            },
            (Mark::Availability, [unit, component, hd, hmp, hif, hed, ..]) => Call::Unit {
                unit,
                act: UnitCall::Availability {
                    component,
                    minutes: Minutes { hd, hmp, hif, hed },
                },
            },
            (Mark::Declare(field), [number, d, a, ..]) => Call::Consumer {
                consumer: consumer_named(field, number),
                act: ConsumerCall::Declare { d, a },
            },
            (Mark::Fix, [dmp, ..]) => Call::Fix { dmp },
            // Commit and release apart: each call has its arm, as its record has a mark of its own.
            (Mark::Commit(field), [producer, number, q, ..]) => Call::Contract {
                producer,
                consumer: consumer_named(field, number),
                act: ContractCall::Commit { q },
            },
            (Mark::Release(field), [producer, number, q, ..]) => Call::Contract {
                producer,
                consumer: consumer_named(field, number),
                act: ContractCall::Release { q },
            },
            (Mark::Meter(field), [number, dreal, ..]) => Call::Consumer {
                consumer: consumer_named(field, number),
                act: ConsumerCall::Meter { dreal },
            },
            (Mark::Close, [p, ..]) => Call::Close { p },
            (Mark::Mean(field), [number, mean, ..]) => Call::Consumer {
                consumer: consumer_named(field, number),
                act: ConsumerCall::Mean { mean },
            },
        }
    }
}
