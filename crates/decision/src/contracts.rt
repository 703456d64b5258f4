// What a call of a contract comes to.
// The cells are one flat list: see `CELLS` of `state`. Places are made by `as`: std has no From from u32 to usize.
ghost use Rattle.std.specs.Prelude.{◌≡◌, ◌+◌, ◌-◌, ◌≤◌, length, take, drop};
ghost use Rattle.basis.specs.Sums.{sum};
ghost use Rattle.quantities.specs.Limits.{consumers};
ghost use Rattle.quantities.specs.Refusals.{decided, decided_by};
ghost use Rattle.state.specs.State.{cells};
ghost use Rattle.decision.specs.ContractCalls.{producer_balance, commit_rest, release_rest, contract_answer_of};

use crate::consumers::check_declared;
use quantities::{CONSUMERS, PRODUCERS, Refusal};
use state::{CELLS, Declaration, Stage, check_stage, place_among};
use table::{Call, ContractCall, check_fields};

// The balance that is to be stored, and its cell.
#[derive(Clone, Copy, Debug, PartialEq, Eq)]
pub struct Balance {
    pub cell: usize,
    pub balance: u32,
}

// The sum of so many balances.
fn sum_of(balances: &[u32]) -> u64
    requires { length balances.now ≤ consumers }
    ensures { result ≡ sum balances.now }
{
    balances.iter().map(|balance| u64::from(*balance)).sum()
}

// The sum of the balances of a row.
fn row_sum(balances: &[u32; CELLS], from: usize) -> u64
    requires { from + consumers ≤ cells }
    ensures { result ≡ sum (take consumers (drop from balances.now)) }
{
    sum_of(&balances[from..from + CONSUMERS])
}

// The sum of a producer's balances, 0 where there is no such producer.
pub fn producer_balance(balances: &[u32; CELLS], producer: u32) -> u64
    ensures { result ≡ producer_balance balances.now producer }
{
    place_among(PRODUCERS, producer).map_or(0, |row| row_sum(balances, row * CONSUMERS))
}

// A contract: 11, or the pair's balance with the amount on top.
fn committed(limit: u32, total: u64, balance: u32, q: u32) -> Result<u32, Refusal>
    requires { balance ≤ total }
    ensures { decided result ≡ decided_by (commit_rest limit total q) (balance + q) }
{
    match u64::from(limit).checked_sub(total) {
        Some(free) if u64::from(q) <= free => Ok(balance + q),
        _ => Err(Refusal::AboveOffers),
    }
}

// A release: 12, or the pair's balance less the amount.
fn released(balance: u32, q: u32) -> Result<u32, Refusal>
    ensures { decided result ≡ decided_by (release_rest balance q) (balance - q) }
{
    balance.checked_sub(q).ok_or(Refusal::AboveBalance)
}

// A call of a contract, decided from the stage, the consumer's declaration, the balances, the sum of the producer's, and what producers may commit:
// a refusal, or the balance that is to be stored. The sum comes beside the balances, since a run keeps it: for our own crates and not for buyers.
// The parameters come apart, here and below, as the match over the call that chose this function has them.
#[tactic(auto, unfolding(table::specs::Ranges::call_number, table::specs::Ranges::rest_in_range, crate::specs::ContractCalls::contract_answer_of, crate::specs::ContractCalls::contract_number, crate::specs::ContractCalls::contract_rest, crate::specs::ContractCalls::balance_after))]
pub fn contract_answer_by(
    producer: u32,
    consumer: u32,
    act: ContractCall,
    stage: Stage,
    declaration: Declaration,
    total: u64,
    balances: &[u32; CELLS],
    limits: &[u32; PRODUCERS],
) -> Result<Balance, Refusal>
    requires { total ≡ producer_balance balances.now producer }
    ensures { decided result ≡ contract_answer_of producer consumer act stage declaration balances.now limits.now }
{
    check_fields(Call::Contract {
        producer,
        consumer,
        act,
    })?;
    check_stage(stage, Stage::Firm)?;
    check_declared(declaration)?;
    // Both are in range here, so that no Option of a place is left.
    let row = (producer - 1) as usize;
    let cell = row * CONSUMERS + (consumer - 1) as usize;
    let balance = match act {
        ContractCall::Commit { q } => committed(limits[row], total, balances[cell], q)?,
        ContractCall::Release { q } => released(balances[cell], q)?,
    };
    Ok(Balance { cell, balance })
}

// The same, from the balances alone.
pub fn contract_answer(
    producer: u32,
    consumer: u32,
    act: ContractCall,
    stage: Stage,
    declaration: Declaration,
    balances: &[u32; CELLS],
    limits: &[u32; PRODUCERS],
) -> Result<Balance, Refusal>
    ensures { decided result ≡ contract_answer_of producer consumer act stage declaration balances.now limits.now }
{
    let total = producer_balance(balances, producer);
    contract_answer_by(
        producer,
        consumer,
        act,
        stage,
        declaration,
        total,
        balances,
        limits,
    )
}
