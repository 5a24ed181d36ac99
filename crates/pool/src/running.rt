// A whole run: it makes a pool and a register, loads a stock, opens the pool and performs a list of calls.
ghost use Rattle.std.specs.Prelude.{◌≡◌, ◌≤◌, [], map, length, Some, MatchResult, vec_capacity};
ghost use Rattle.calls.specs.Faults.{facts_of, seen};
ghost use Rattle.pool.specs.declared.running.RunFault.TheVariants.{Memory, Pool};
ghost use Rattle.pool.specs.Whole.{Ran, StoppedBy, stop_facts};

use crate::loading::Loading;
use calls::call::Call;
use calls::faults::Fault;
use calls::reports::Report;
use calls::stock::Stock;
use keys::key::Key;
use keys::register::Register;
use rules::plan::Plan;
use std::alloc::{AllocError, Global};
use transport::interface::Transport;

// Why a run stopped before its first call: want of memory for the results, or a refusal of the stock.
#[derive(Clone, Copy)]
pub enum RunFault {
    Memory,
    Pool(Fault),
}

// Both written out: which case they make is stated, and the derive of such impls states nothing.
impl From<AllocError> for RunFault {
    ghost from_gives = { λ _ r. r ≡ Memory };

    fn from(_e: AllocError) -> RunFault {
        RunFault::Memory
    }
}

impl From<Fault> for RunFault {
    ghost from_gives = { λ f r. r ≡ Pool f };

    fn from(f: Fault) -> RunFault {
        RunFault::Pool(f)
    }
}

// The stock and then the calls, each result into the row that is reserved for them. Apart from `run`, which finds the memory first.
fn run_into<T: Transport + Drop, K: Key + Copy>(
    plan: Plan,
    transport: T,
    row: &mut [K],
    stock: &[Stock<K>],
    calls: &[Call<K>],
    answers: &mut Vec<Result<Report, Fault>>,
) -> Result<(), Fault>
    requires { (answers.old.items ≡ []) × (length calls.now ≤ vec_capacity answers.old) }
    ensures { MatchResult result (λ _. Ran T.room K.meaning plan (length row.old) stock.now calls.now (map seen answers.new.items)) (λ f. StoppedBy T.room K.meaning plan (length row.old) stock.now calls.now (Some (facts_of f))) }
{
    let mut register = Register::new(row);
    let mut loading = Loading::new(plan, transport);
    loading.load_all(&mut register, stock)?;
    let mut pool = loading.open();
    pool.perform(&mut register, calls, answers);
    Ok(())
}

// Want of memory is found before anything is done. The results obey the law over runs.
pub fn run<T: Transport + Drop, K: Key + Copy>(
    plan: Plan,
    transport: T,
    row: &mut [K],
    stock: &[Stock<K>],
    calls: &[Call<K>],
    heap: Global,
) -> Result<Vec<Result<Report, Fault>>, RunFault>
    ensures { MatchResult result (λ v. Ran T.room K.meaning plan (length row.old) stock.now calls.now (map seen v.items)) (λ f. StoppedBy T.room K.meaning plan (length row.old) stock.now calls.now (stop_facts f)) }
{
    let mut answers = Vec::with_capacity(heap, calls.len())?;
    run_into(plan, transport, row, stock, calls, &mut answers)?;
    Ok(answers)
}
