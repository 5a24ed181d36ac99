// The calls by one name, and lists of them.
ghost use Rattle.std.specs.Prelude.{◌≡◌, ◌≤◌, [], map, length, IfOk, vec_capacity, OnErr, OnOk};
ghost use Rattle.keys.specs.Registers.{in_use, row_of, RowKept};
ghost use Rattle.calls.specs.Faults.{seen};
ghost use Rattle.calls.specs.Outcomes.{called};
ghost use Rattle.calls.specs.Runs.{results, after_run};
ghost use Rattle.pool.specs.Laws.{LawfulRun};
ghost use Rattle.pool.specs.Pools.{model_of};

use crate::opened::Opened;
use calls::call::Call;
use calls::faults::Fault;
use calls::reports::Report;
use keys::key::Key;
use keys::register::Register;
use std::alloc::{AllocError, Global};
use transport::interface::Transport;

impl<T: Transport> Opened<T> {
    #[tactic(auto, using(crate::proofs::Turns::keyless, crate::proofs::Turns::refused_also))]
    pub fn call<K: Key + Copy>(
        &mut self,
        register: &mut Register<'_, K>,
        call: Call<K>,
    ) -> Result<Report, Fault>
        ensures outcome { (seen result, model_of T.Transport self.new, in_use register.new) ≡ called T.room K.meaning (length (row_of register.old)) (model_of T.Transport self.old) (in_use register.old) call }
        ensures row { length (row_of register.new) ≡ length (row_of register.old) }
        ensures kept { RowKept register.old register.new }
        ensures refusal_changes_nothing { OnErr result ((model_of T.Transport self.new ≡ model_of T.Transport self.old) × (in_use register.new ≡ in_use register.old)) }
    {
        match call {
            Call::Start {
                zone,
                key,
                request,
                board,
            } => self.start(register, &board, zone, key, request),
            Call::DeliverUp { zone } => self.deliver_up(zone),
            Call::DeliverDown { zone } => self.deliver_down(zone),
            Call::TakeUp { key } => self.take_up(register, key),
            Call::LetGo { zone, key } => self.let_go(register, zone, key),
        }
    }

    // The calls one after the other, each result into the row that is reserved for them.
    pub(crate) fn perform<K: Key + Copy>(
        &mut self,
        register: &mut Register<'_, K>,
        calls: &[Call<K>],
        answers: &mut Vec<Result<Report, Fault>>,
    )
        requires { (answers.old.items ≡ []) × (length calls.now ≤ vec_capacity answers.old) }
        ensures told { map seen answers.new.items ≡ results T.room K.meaning (length (row_of register.old)) (model_of T.Transport self.old) (in_use register.old) calls.now }
        ensures after { (model_of T.Transport self.new, in_use register.new) ≡ after_run T.room K.meaning (length (row_of register.old)) (model_of T.Transport self.old) (in_use register.old) calls.now }
        ensures row { length (row_of register.new) ≡ length (row_of register.old) }
        ensures kept { RowKept register.old register.new }
        ensures law { LawfulRun K.meaning (model_of T.Transport self.old) (in_use register.old) calls.now (map seen answers.new.items) (model_of T.Transport self.new) (in_use register.new) }
    {
        for call in calls {
            let answer = self.call(register, *call);
            answers.push_reserved(answer);
        }
    }

    // The calls one after the other. Want of memory for the results is found before the first.
    pub fn run<K: Key + Copy>(
        &mut self,
        register: &mut Register<'_, K>,
        calls: &[Call<K>],
        heap: Global,
    ) -> Result<Vec<Result<Report, Fault>>, AllocError>
        ensures told { IfOk result (λ v. map seen v.items ≡ results T.room K.meaning (length (row_of register.old)) (model_of T.Transport self.old) (in_use register.old) calls.now) }
        ensures after { OnOk result ((model_of T.Transport self.new, in_use register.new) ≡ after_run T.room K.meaning (length (row_of register.old)) (model_of T.Transport self.old) (in_use register.old) calls.now) }
        ensures row { length (row_of register.new) ≡ length (row_of register.old) }
        ensures kept { RowKept register.old register.new }
        ensures law { IfOk result (λ v. LawfulRun K.meaning (model_of T.Transport self.old) (in_use register.old) calls.now (map seen v.items) (model_of T.Transport self.new) (in_use register.new)) }
        ensures refusal_changes_nothing { OnErr result ((model_of T.Transport self.new ≡ model_of T.Transport self.old) × (in_use register.new ≡ in_use register.old)) }
    {
        let mut answers = Vec::with_capacity(heap, calls.len())?;
        self.perform(register, calls, &mut answers);
        Ok(answers)
    }
}
