// The kinds of operands, and the rules of the instructions that look at no other instruction.
ghost use Rattle.std.specs.Prelude.{cond, ◌≡◌, ℕ, ◌<◌};
ghost use Rattle.kinds.specs.Union.{join_of};
ghost use Rattle.rules.specs.Program.{IfTrue, Return, Compute, Phi};
ghost use Rattle.rules.specs.Machine.{leave, rule};
ghost use Rattle.program.specs.Rows.{opnd_of};
ghost use Rattle.state.specs.View.{kinds_of};
ghost use Rattle.state.specs.Changes.{Every};
ghost use Rattle.state.specs.Methods.{Did};
ghost use Rattle.machine.specs.opnds.Reads.{OperandInside, kind_in, StateReads, FunctionIs};

use ids::{BlockId, FunId};
use kinds::{Arith, Kind};
use program::Opnd;
use refusals::Refusal;
use state::{Held, State};

// Stays: an operand is inside by the sizes of the state that is asked, so a type could say it only of an operand that holds the state's loan.
pub fn kind_of(state: &Held, o: Opnd) -> Kind
    requires { OperandInside state.now.sizes o }
    ensures { result ≡ kind_in (kinds_of state.now.sizes state.now.words.now) (opnd_of o) }
{
    match o {
        Opnd::Const(k) => k,
        Opnd::Insn(i) => state.kind_at(i),
    }
}

// The admitted arms of a choice wait, the then arm first.
pub fn choose(state: &mut State, o: Opnd, t: BlockId, e: BlockId) -> Result<(), Refusal>
    requires operand_inside { OperandInside state.old.sizes o }
    requires t_lt_blocks { (t.0 < state.old.sizes.blocks) × (e.0 < state.old.sizes.blocks) }
    ensures { (i : ℕ) → Did Every (λ L p. leave L p i (IfTrue (opnd_of o) t.0 e.0)) state.old state.new result }
{
    let k = kind_of(&state.tables(), o);
    if k.admits(true) {
        state.push_block(t)?;
    }
    if k.admits(false) {
        state.push_block(e)?;
    }
    Ok(())
}

// A Return of function f: the callers wait whose kinds the operand's would change.
// Stays: f is bounded by the state's sizes, as in its methods.
pub fn give_back(state: &mut State, f: FunId, o: Opnd) -> Result<(), Refusal>
    requires operand_inside { OperandInside state.old.sizes o }
    requires f_lt_functions { f.0 < state.old.sizes.functions }
    ensures { (i : ℕ) → Did (FunctionIs i f.0) (λ L p. leave L p i (Return (opnd_of o))) state.old state.new result }
{
    let k = kind_of(&state.tables(), o);
    if k.is_empty() {
        return Ok(());
    }
    state.wake_callers(f, k)
}

pub fn compute(state: &Held, o: Arith, v: Opnd, w: Opnd) -> Result<Kind, Refusal>
    requires { OperandInside state.now.sizes v × OperandInside state.now.sizes w }
    ensures { (i : ℕ) → StateReads state.now.sizes Every (λ L p. rule L p i (Compute o (opnd_of v) (opnd_of w))) state.now.words.now result }
{
    kinds::combine(o, kind_of(state, v), kind_of(state, w))
}

// A union with an operand's kind, where the operand's block is live.
fn join_if(state: &Held, j: Result<Kind, Refusal>, live: bool, v: Opnd) -> Result<Kind, Refusal>
    requires { OperandInside state.now.sizes v }
    ensures { result ≡ cond live (join_of j (kind_in (kinds_of state.now.sizes state.now.words.now) (opnd_of v))) j }
{
    if live {
        return kinds::join(j, kind_of(state, v));
    }
    j
}

pub fn phi(state: &Held, b: BlockId, v: Opnd, c: BlockId, w: Opnd) -> Result<Kind, Refusal>
    requires operand_inside { OperandInside state.now.sizes v × OperandInside state.now.sizes w }
    requires b_lt_blocks { (b.0 < state.now.sizes.blocks) × (c.0 < state.now.sizes.blocks) }
    ensures { (i : ℕ) → StateReads state.now.sizes Every (λ L p. rule L p i (Phi b.0 (opnd_of v) c.0 (opnd_of w))) state.now.words.now result }
{
    let one = join_if(state, Ok(Kind::Empty), state.is_live(b), v);
    join_if(state, one, state.is_live(c), w)
}
