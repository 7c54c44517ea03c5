// Calls: a new caller, the callee's Params, and a receiver's methods.
#![tactic(auto)]

pub mod calls;
pub mod passing;

ghost use Rattle.std.specs.Prelude.{true, ◌≡◌, List, ℕ, ◌<◌};
ghost use Rattle.ids.specs.Sets.{members_of};
ghost use Rattle.rules.specs.Actions.{each};
ghost use Rattle.rules.specs.Machine.{add_call, pass_arguments};
ghost use Rattle.program.specs.Rows.{name_in, opnd_of};
ghost use Rattle.state.specs.Methods.{Did};
ghost use Rattle.machine.specs.opnds.Reads.{OperandInside};
ghost use Rattle.sends.specs.passing.Passing.{PassIdle};
ghost use Rattle.sends.specs.Sends.{call_to, call_static, send_to, send_all, CallingOf, CallsOf};

use chains::Indexed;
use ids::{ClassId, FunId, InsnId};
use program::{Name, Opnd};
use refusals::Refusal;
use state::{Held, State};

// Call i, which has `args` arguments, of a program with its chains.
#[derive(Clone, Copy)]
struct Call<'a> {
    code: &'a Indexed<'a>,
    i: InsnId,
    args: usize,
}

impl<'a> Call<'a> {
    // It is a caller of f, or 16 or 20.
    // Stays: `calling` ties the call to the state, here and below, and f is bounded by the program's count: in one value of them all each change of the state
    // would have to promise that the program stays.
    #[tactic(auto, using(crate::proofs::Called::params_there))]
    fn enter(&self, state: &mut State, f: FunId) -> Result<(), Refusal>
        requires calling { CallingOf self.now.code.now state.old.sizes self.now.i.0 }
        requires f_lt_functions { f.0 < self.now.code.now.program.counts.functions }
        ensures { (s : List ℕ) → Did (CallsOf self.now.code.now s self.now.i.0 self.now.args)
            (λ L program. add_call L program self.now.i.0 f.0) state.old state.new result }
    {
        if state.has_called(f, self.i) {
            return Ok(());
        }
        let entry = self.code.program.fun(f).entry;
        let params = passing::count_params(self.code.chains, state.sizes.insns, entry);
        calls::add_call(state, self.i, f, entry, params, self.args)
    }

    // The Params of f wait whose kinds its arguments would change, or 19 or 20.
    #[tactic(auto, using(crate::proofs::Called::params_there))]
    fn pass(&self, state: &mut State, f: FunId) -> Result<(), Refusal>
        requires calling { CallingOf self.now.code.now state.old.sizes self.now.i.0 }
        requires f_lt_functions { f.0 < self.now.code.now.program.counts.functions }
        ensures { (s : List ℕ) (k : ℕ) → Did (CallsOf self.now.code.now s self.now.i.0 k)
            (λ L program. pass_arguments L program self.now.i.0 f.0) state.old state.new result }
    {
        let entry = self.code.program.fun(f).entry;
        passing::pass_arguments(&self.code.program, self.code.chains, state, self.i, entry)
    }

    // Both.
    fn set_off(&self, state: &mut State, f: FunId) -> Result<(), Refusal>
        requires calling { CallingOf self.now.code.now state.old.sizes self.now.i.0 }
        requires f_lt_functions { f.0 < self.now.code.now.program.counts.functions }
        ensures { (s : List ℕ) → Did (CallsOf self.now.code.now s self.now.i.0 self.now.args)
            (λ L program. call_to L program self.now.i.0 f.0) state.old state.new result }
    {
        self.enter(state, f)?;
        self.pass(state, f)
    }

    // A quick test that a call of f changes nothing: it is no new caller, and its arguments leave the kinds of f's Params as they are.
    #[tactic(auto, using(crate::proofs::Called::params_there))]
    fn settled(&self, state: &Held, f: FunId) -> bool
        requires calling { CallingOf self.now.code.now state.now.sizes self.now.i.0 }
        requires f_lt_functions { f.0 < self.now.code.now.program.counts.functions }
        ensures { result ≡ true → (s : List ℕ) (k : ℕ) → PassIdle state.now.sizes (CallsOf self.now.code.now s self.now.i.0 k)
            (λ L program. call_to L program self.now.i.0 f.0) state.now.words.now }
    {
        if state.has_called(f, self.i) {
            let entry = self.code.program.fun(f).entry;
            return passing::surely_keeps_all(
                &self.code.program,
                self.code.chains,
                state,
                self.i,
                entry,
            );
        }
        false
    }

    // The method n of class k, or 15.
    #[tactic(auto, using(crate::proofs::Called::method_below))]
    fn send_to(&self, state: &mut State, n: Name, k: ClassId) -> Result<(), Refusal>
        requires calling { CallingOf self.now.code.now state.old.sizes self.now.i.0 }
        ensures { Did (CallsOf self.now.code.now self.now.code.now.program.script.now self.now.i.0 self.now.args)
            (λ L program. send_to L program self.now.i.0 (name_in self.now.code.now.program.script.now n) k.0) state.old state.new result }
    {
        let f = lookups::method_named(&self.code.program, k, n).ok_or(Refusal::UnknownMember)?;
        if self.settled(&state.tables(), f) {
            return Ok(());
        }
        self.set_off(state, f)
    }

    // The method n of each class of a set.
    fn send_each(&self, state: &mut State, n: Name, set: u64) -> Result<(), Refusal>
        requires calling { CallingOf self.now.code.now state.old.sizes self.now.i.0 }
        ensures { Did (CallsOf self.now.code.now self.now.code.now.program.script.now self.now.i.0 self.now.args)
            (λ L program. each (members_of set) (send_to L program self.now.i.0 (name_in self.now.code.now.program.script.now n))) state.old state.new result }
    {
        for k in ids::classes(set) {
            self.send_to(state, n, k)?;
        }
        Ok(())
    }
}

// What the bare call i of f sets off: 16 or 20, then 17, then 19 or 20.
pub fn send_static(
    code: &Indexed,
    state: &mut State,
    i: InsnId,
    args: usize,
    f: FunId,
) -> Result<(), Refusal>
    requires calling { CallingOf code.now state.old.sizes i.0 }
    requires f_lt_functions { f.0 < code.now.program.counts.functions }
    ensures { (s : List ℕ) → Did (CallsOf code.now s i.0 args)
        (λ L program. call_static L program i.0 f.0) state.old state.new result }
{
    let class = code.program.fun(f).class;
    let call = Call { code, i, args };
    call.enter(state, f)?;
    match class {
        Some(_) => Err(Refusal::NeedsReceiver),
        None => call.pass(state, f),
    }
}

// What call i of the method n of receiver o sets off: 14, then for each class 15, 16 or 20, 19 or 20.
pub fn send_dynamic(
    code: &Indexed,
    state: &mut State,
    i: InsnId,
    args: usize,
    n: Name,
    o: Opnd,
) -> Result<(), Refusal>
    requires calling { CallingOf code.now state.old.sizes i.0 }
    requires operand_inside { OperandInside state.old.sizes o }
    ensures { Did (CallsOf code.now code.now.program.script.now i.0 args)
        (λ L program. send_all L program i.0 (name_in code.now.program.script.now n) (opnd_of o)) state.old state.new result }
{
    let set = machine::receivers::classes_of(&state.tables(), o)?;
    Call { code, i, args }.send_each(state, n, set)
}
