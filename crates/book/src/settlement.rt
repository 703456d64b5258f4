// What is decided of a call, settled in the book: in place, and in a book by value.
ghost use Rattle.std.specs.Prelude.{◌≡◌};
ghost use Rattle.quantities.specs.Refusals.{met};
ghost use Rattle.state.specs.State.{reply_with, replied};
ghost use Rattle.gathering.specs.Units.{unit_of};
ghost use Rattle.decision.specs.Consumers.{consumer_of};
ghost use Rattle.decision.specs.ContractCalls.{producer_balance, contract_of};

use decision::{consumer_answer, contract_answer_by, producer_balance};
use gathering::unit_answer;
use quantities::Refusal;
use state::{Book, consumer_place, unit_place};
use table::{ConsumerCall, ContractCall, UnitCall};

// A call of a unit.
// Unit and act come apart, as the match over the call has them, here and below; the readings are lent beside the call.
pub fn settle_unit(
    book: &mut Book,
    unit: u32,
    act: UnitCall,
    readings: &[u8],
) -> Result<(), Refusal>
    ensures { reply_with (met result) book.new ≡ unit_of book.old unit act readings.now }
{
    let place = unit_place(unit);
    book.units[place] = unit_answer(unit, act, book.stage, book.units[place], readings)?;
    Ok(())
}

// A call of a consumer. Inlined, with what decides it: where the act is known, only what it changes is stored.
#[inline(always)]
pub fn settle_consumer(book: &mut Book, consumer: u32, act: ConsumerCall) -> Result<(), Refusal>
    ensures { reply_with (met result) book.new ≡ consumer_of book.old consumer act }
{
    let place = consumer_place(consumer);
    book.consumers[place] = consumer_answer(consumer, act, book.stage, book.consumers[place])?;
    Ok(())
}

// A call of a contract, with the sum of the producer's balances, which a run keeps: for our own crates and not for buyers.
pub fn settle_contract_by(
    book: &mut Book,
    producer: u32,
    consumer: u32,
    act: ContractCall,
    total: u64,
) -> Result<(), Refusal>
    requires { total ≡ producer_balance book.old.balances producer }
    ensures { reply_with (met result) book.new ≡ contract_of book.old producer consumer act }
{
    let declaration = book.consumers[consumer_place(consumer)].declaration;
    let settled = contract_answer_by(
        producer,
        consumer,
        act,
        book.stage,
        declaration,
        total,
        &book.balances,
        &book.limits,
    )?;
    book.balances[settled.cell] = settled.balance;
    Ok(())
}

// A call of a contract. A buyer passes plain numbers.
pub fn settle_contract(
    book: &mut Book,
    producer: u32,
    consumer: u32,
    act: ContractCall,
) -> Result<(), Refusal>
    ensures { reply_with (met result) book.new ≡ contract_of book.old producer consumer act }
{
    let total = producer_balance(&book.balances, producer);
    settle_contract_by(book, producer, consumer, act, total)
}

// The book after a call of a unit, and below of a consumer and of a contract.
// Two lines each: one function over a closure would carry the closure's clause.
#[tactic(auto, using(state::proofs::Replies::refused_reply), unfolding(gathering::specs::Units::unit_of))]
pub(crate) fn of_unit(
    mut book: Book,
    unit: u32,
    act: UnitCall,
    readings: &[u8],
) -> Result<Book, Refusal>
    ensures { replied book result ≡ unit_of book unit act readings.now }
{
    settle_unit(&mut book, unit, act, readings)?;
    Ok(book)
}

// The book after a call of a consumer.
#[tactic(auto, using(state::proofs::Replies::refused_reply), unfolding(decision::specs::Consumers::consumer_of))]
pub(crate) fn of_consumer(mut book: Book, consumer: u32, act: ConsumerCall) -> Result<Book, Refusal>
    ensures { replied book result ≡ consumer_of book consumer act }
{
    settle_consumer(&mut book, consumer, act)?;
    Ok(book)
}

// The book after a call of a contract.
#[tactic(auto, using(state::proofs::Replies::refused_reply), unfolding(decision::specs::ContractCalls::contract_of))]
pub(crate) fn of_contract(
    mut book: Book,
    producer: u32,
    consumer: u32,
    act: ContractCall,
) -> Result<Book, Refusal>
    ensures { replied book result ≡ contract_of book producer consumer act }
{
    settle_contract(&mut book, producer, consumer, act)?;
    Ok(book)
}
