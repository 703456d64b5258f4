// A function for each call, and one for any. A refused call leaves its book as it was; an accepted one hands back the book after it. A buyer
// gives plain numbers, and lends the readings.
ghost use Rattle.std.specs.Prelude.{◌≡◌, []};
ghost use Rattle.table.specs.declared.units.UnitCall.TheVariants.{Enrol, Test, Availability};
ghost use Rattle.table.specs.declared.consumers.ConsumerCall.TheVariants.{Declare, Meter, Mean};
ghost use Rattle.table.specs.declared.contracts.ContractCall.TheVariants.{Commit, Release};
ghost use Rattle.state.specs.State.{replied};
ghost use Rattle.gathering.specs.Units.{unit_of};
ghost use Rattle.decision.specs.Consumers.{consumer_of};
ghost use Rattle.decision.specs.ContractCalls.{contract_of};
ghost use Rattle.book.specs.Step.{step_of};

pub use crate::begun::year;
use crate::settlement::{of_consumer, of_contract, of_unit};
pub use close::close;
pub use fix::fix;
use plant::{Minutes, Trial};
use quantities::Refusal;
use state::Book;
use table::{Call, ConsumerCall, ContractCall, Enrolling, UnitCall};

// Any call, with the readings lent to a test.
#[tactic(auto, unfolding(crate::specs::Step::step_of))]
pub fn step(book: Book, call: Call, readings: &[u8]) -> Result<Book, Refusal>
    ensures { replied book result ≡ step_of book call readings.now }
{
    match call {
        Call::Year(hours) => year(book, hours),
        Call::Fix { dmp } => fix(book, dmp),
        Call::Close { p } => close(book, p),
        Call::Unit { unit, act } => of_unit(book, unit, act, readings),
        Call::Consumer { consumer, act } => of_consumer(book, consumer, act),
        Call::Contract {
            producer,
            consumer,
            act,
        } => of_contract(book, producer, consumer, act),
    }
}

// A unit of a producer, with the fields of its record.
pub fn unit(book: Book, unit: u32, enrolling: Enrolling) -> Result<Book, Refusal>
    ensures { replied book result ≡ unit_of book unit (Enrol enrolling) [] }
{
    of_unit(book, unit, UnitCall::Enrol(enrolling), b"")
}

// A test of a component, with its readings, four bytes each, low byte first.
pub fn test(
    book: Book,
    unit: u32,
    component: u32,
    trial: Trial,
    readings: &[u8],
) -> Result<Book, Refusal>
    ensures { replied book result ≡ unit_of book unit (Test component trial) readings.now }
{
    of_unit(book, unit, UnitCall::Test { component, trial }, readings)
}

// The availability of a component.
pub fn availability(
    book: Book,
    unit: u32,
    component: u32,
    minutes: Minutes,
) -> Result<Book, Refusal>
    ensures { replied book result ≡ unit_of book unit (Availability component minutes) [] }
{
    of_unit(
        book,
        unit,
        UnitCall::Availability { component, minutes },
        b"",
    )
}

// A consumer's declaration D and the administrator's projection A, kW.
pub fn declare(book: Book, consumer: u32, d: u32, a: u32) -> Result<Book, Refusal>
    ensures { replied book result ≡ consumer_of book consumer (Declare d a) }
{
    of_consumer(book, consumer, ConsumerCall::Declare { d, a })
}

// A contract of q kW.
pub fn commit(book: Book, producer: u32, consumer: u32, q: u32) -> Result<Book, Refusal>
    ensures { replied book result ≡ contract_of book producer consumer (Commit q) }
{
    of_contract(book, producer, consumer, ContractCall::Commit { q })
}

// A release of q kW.
pub fn release(book: Book, producer: u32, consumer: u32, q: u32) -> Result<Book, Refusal>
    ensures { replied book result ≡ contract_of book producer consumer (Release q) }
{
    of_contract(book, producer, consumer, ContractCall::Release { q })
}

// A consumer's real demand, kW.
pub fn meter(book: Book, consumer: u32, dreal: u32) -> Result<Book, Refusal>
    ensures { replied book result ≡ consumer_of book consumer (Meter dreal) }
{
    of_consumer(book, consumer, ConsumerCall::Meter { dreal })
}

// The mean of a consumer's daily maxima at the system's peak hours, kW.
pub fn mean(book: Book, consumer: u32, mean: u32) -> Result<Book, Refusal>
    ensures { replied book result ≡ consumer_of book consumer (Mean mean) }
{
    of_consumer(book, consumer, ConsumerCall::Mean { mean })
}
