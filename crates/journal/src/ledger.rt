// The book of a run. Beside it stand the sum of each producer's balances and, from the fix on, the figures from which a close's number is found:
// what all consumers declared, and the real demand of each, where there is one. All calls are stored in place, so that the book is never copied.
// A ledger itself is neither copied nor compared.
ghost use Rattle.std.specs.Prelude.{◌≡◌};
ghost use Rattle.quantities.specs.Refusals.{met};
ghost use Rattle.state.specs.State.{fresh_book, reply_with};
ghost use Rattle.record.specs.Reading.{part_of};
ghost use Rattle.book.specs.Step.{step_of};
ghost use Rattle.fix.specs.Fix.{fix_of};
ghost use Rattle.close.specs.Close.{close_number, closed, close_of};
ghost use Rattle.book.specs.Year.{year_of};
ghost use Rattle.decision.specs.Consumers.{consumer_of};
ghost use Rattle.decision.specs.ContractCalls.{producer_balance, contract_of};
ghost use Rattle.journal.specs.Ledger.{Ready, Summed};

use book::{settle_consumer, settle_contract_by, settle_unit, settle_year};
use close::{check_close, put_closed, real_demand, real_demands, total_declared};
use fix::{check_fix, settle_fix};
use power::Hours;
use quantities::{CONSUMERS, PRODUCERS, Refusal};
use record::readings_of;
use state::{Book, consumer_place, fresh, place_among};
use table::{Call, ConsumerCall, ContractCall};

#[derive(Drop)]
pub(crate) struct Ledger {
    pub(crate) book: Book,
    // Before the fix 0 and none: the stage tells it, so the whole is no Option.
    pub(crate) total: u64,
    pub(crate) reals: [Option<u32>; CONSUMERS],
    pub(crate) sums: [u64; PRODUCERS],
    ghost ready: { Ready book total reals },
    ghost summed: { Summed book.limits book.balances sums },
}

impl Ledger {
    #[tactic(auto, using(crate::proofs::Ready::not_firm, crate::proofs::Summed::none_summed), unfolding(state::specs::State::fresh_book))]
    pub(crate) fn new() -> Ledger
        ensures { result.book ≡ fresh_book }
    {
        Ledger {
            book: fresh(),
            total: 0,
            reals: [None; CONSUMERS],
            sums: [0; PRODUCERS],
        }
    }

    // The call of a record, whose readings are the part of the journal between two places; only a call of a unit looks at them. It is lent,
    // since a copy of each is felt in a run: a bar of speed binds it.
    #[tactic(auto, using(crate::proofs::Ready::ready_aside, crate::proofs::Summed::summed_aside), unfolding(book::specs::Step::step_of, gathering::specs::Units::unit_of, gathering::specs::Units::after_unit, decision::specs::ContractCalls::contract_of, decision::specs::ContractCalls::after_contract))]
    pub(crate) fn take(
        &mut self,
        call: &Call,
        journal: &[u8],
        from: usize,
        to: usize,
    ) -> Result<(), Refusal>
        ensures { reply_with (met result) self.new.book ≡ step_of self.old.book call.now (part_of journal.now from to) }
    {
        match *call {
            Call::Year(hours) => self.take_year(hours),
            Call::Fix { dmp } => self.take_fix(dmp),
            Call::Close { p } => self.take_close(p),
            Call::Unit { unit, act } => {
                settle_unit(&mut self.book, unit, act, readings_of(journal, from, to))
            }
            Call::Consumer { consumer, act } => self.take_consumer(consumer, act),
            Call::Contract {
                producer,
                consumer,
                act,
            } => self.take_contract(producer, consumer, act),
        }
    }

    // A year, a fix and a close: each differs in what is asked and in what is kept beside the book.
    fn take_year(&mut self, hours: Hours) -> Result<(), Refusal>
        ensures { reply_with (met result) self.new.book ≡ year_of self.old.book hours }
    {
        settle_year(&mut self.book, hours)
    }

    #[tactic(auto, using(state::proofs::Replies::refused_reply), unfolding(fix::specs::Fix::fix_of))]
    fn take_fix(&mut self, dmp: u32) -> Result<(), Refusal>
        ensures { reply_with (met result) self.new.book ≡ fix_of self.old.book dmp }
    {
        check_fix(self.book.stage, &self.book.consumers, dmp)?;
        self.fix(dmp)
    }

    // What is accepted is done in a function of its own, here and below, since memory for what it works out is cleared where the function begins.
    #[inline(never)]
    #[tactic(auto, using(crate::proofs::Ready::refused_book), unfolding(fix::specs::Fix::fix_of))]
    fn fix(&mut self, dmp: u32) -> Result<(), Refusal>
        ensures { reply_with (met result) self.new.book ≡ fix_of self.old.book dmp }
    {
        settle_fix(&mut self.book, dmp)?;
        self.total = total_declared(&self.book.consumers);
        self.reals = real_demands(&self.book.consumers);
        Ok(())
    }

    #[tactic(auto, using(state::proofs::Replies::refused_reply, crate::proofs::Ready::close_found), unfolding(close::specs::Close::close_of))]
    fn take_close(&mut self, p: u32) -> Result<(), Refusal>
        ensures { reply_with (met result) self.new.book ≡ close_of self.old.book p }
    {
        check_close(
            self.book.stage,
            self.book.dmp,
            self.total,
            &self.reals,
            &self.book.consumers,
            p,
        )?;
        self.close(p);
        Ok(())
    }

    #[inline(never)]
    fn close(&mut self, p: u32)
        requires { close_number self.old.book p ≡ 0 }
        ensures { self.new.book ≡ closed self.old.book p }
    {
        put_closed(&mut self.book, p);
    }

    // The sum of a producer's balances, 0 where there is no such producer: a match, of which the proof names each case.
    fn sum_of(&self, producer: u32) -> u64
        ensures { result ≡ producer_balance self.now.book.balances producer }
    {
        match place_among(PRODUCERS, producer) {
            None => 0,
            Some(place) => self.sums[place],
        }
    }

    // Producer, consumer and act come apart, as the match over the call has them, here and below.
    #[tactic(auto, using(crate::proofs::Ready::refused_book), unfolding(decision::specs::ContractCalls::contract_of))]
    fn take_contract(
        &mut self,
        producer: u32,
        consumer: u32,
        act: ContractCall,
    ) -> Result<(), Refusal>
        ensures { reply_with (met result) self.new.book ≡ contract_of self.old.book producer consumer act }
    {
        let total = self.sum_of(producer);
        settle_contract_by(&mut self.book, producer, consumer, act, total)?;
        self.sums[(producer - 1) as usize] = match act {
            ContractCall::Commit { q } => total + u64::from(q),
            ContractCall::Release { q } => total - u64::from(q),
        };
        Ok(())
    }

    // A call of a consumer, whose real demand is kept beside the book.
    #[inline(always)]
    #[tactic(auto, using(crate::proofs::Ready::refused_book), unfolding(decision::specs::Consumers::consumer_of))]
    fn consumer_act(&mut self, consumer: u32, act: ConsumerCall) -> Result<(), Refusal>
        ensures { reply_with (met result) self.new.book ≡ consumer_of self.old.book consumer act }
    {
        settle_consumer(&mut self.book, consumer, act)?;
        let place = consumer_place(consumer);
        self.reals[place] = real_demand(self.book.consumers[place]);
        Ok(())
    }

    // The same, with a copy of the code for each act, which stores what the act changes and nothing else: a bar of speed binds the run.
    fn take_consumer(&mut self, consumer: u32, act: ConsumerCall) -> Result<(), Refusal>
        ensures { reply_with (met result) self.new.book ≡ consumer_of self.old.book consumer act }
    {
        match act {
            ConsumerCall::Declare { d, a } => self.consumer_act(
                consumer,
                ConsumerCall::Declare { d, a },
            ),
            ConsumerCall::Meter { dreal } => self.consumer_act(
                consumer,
                ConsumerCall::Meter { dreal },
            ),
            ConsumerCall::Mean { mean } => self.consumer_act(consumer, ConsumerCall::Mean { mean }),
        }
    }
}
