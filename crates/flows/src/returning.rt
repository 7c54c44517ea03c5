// What has flowed back to a call: the returned operands of the functions that it has called.
ghost use Rattle.std.specs.Prelude.{◌+◌, ◌≤◌, ◌<◌};
ghost use Rattle.state.specs.View.{called_of};
ghost use Rattle.machine.specs.opnds.Reads.{StateReads};
ghost use Rattle.flows.specs.returning.Returning.{call_kind, Returns, ReturnsAt, BacksOf, BackIn, PassedBack, PassedAll, JoinsBack, JoinedAll};

use crate::{Classes, Pass};
use chains::Indexed;
use ids::{FunId, InsnId};
use kinds::Kind;
use program::{Opnd, Program};
use refusals::Refusal;
use state::Held;

// Stays: that j is one of the program's instructions ties two arguments, since an id doesn't hold its program.
// Where the operand of Return j stands; it returns nil where it has none.
#[tactic(auto, using(crate::proofs::Callers::row_inside))]
fn returned_at(program: &Program, j: InsnId) -> Option<usize>
    requires j_lt_insns { j.0 < program.now.counts.insns }
    ensures { ReturnsAt program.now.words.now program.now.counts j.0 result }
{
    let row = program.insn(j);
    if 0 < row.count {
        return Some(program::OPNDS + 2 * row.first);
    }
    None
}

// The operand of Return j.
// Stays: beside visits' `operand` and settled's `operand_words` (which says why).
#[tactic(auto, using(crate::proofs::returning::Sets::returns_some, crate::proofs::returning::Sets::returns_none))]
fn returned(program: &Program, j: InsnId) -> Opnd
    requires j_lt_insns { j.0 < program.now.counts.insns }
    ensures { Returns program.now.words.now program.now.counts j.0 result }
{
    match returned_at(program, j) {
        Some(at) => program::read_opnd(program.words, at),
        None => Opnd::Const(Kind::Nil),
    }
}

// Stays: what is known of code and state ties two values that are lent apart. A struct of both, to be read, was tried and proved: it takes the clause from four
// functions, but is three lines longer, its promises name all through `self.now`, and its field must be truncated, since `Backs` holds a script. Functions and
// instructions are bounded by the state's sizes, since an id doesn't hold them.
// The operands of the Returns of f, in a pass.
#[tactic(auto, using(crate::proofs::returning::Passes::back_done))]
fn pass_returns(code: &Indexed, state: &Held, f: FunId, start: Pass) -> Pass
    requires backs { BacksOf code.now state.now.sizes }
    requires f_lt_functions { f.0 < state.now.sizes.functions }
    ensures { PassedBack code.now.program.words.now code.now.program.counts state.now.sizes state.now.words.now f.0 start result }
{
    let mut y = start;
    for j in code.returns(f) {
        y = crate::pass_one(state, y, returned(&code.program, j));
    }
    y
}

// Stays: a first function and a number of them, here and below, since a bare call has one and a send all, and both are promised by these two numbers.
// The operands of the Returns of those of n functions from `first` on that i has called, in a pass.
fn pass_called(code: &Indexed, state: &Held, i: InsnId, first: FunId, n: usize, start: Pass) -> Pass
    requires backs { BacksOf code.now state.now.sizes }
    requires i_lt_insns { (i.0 < state.now.sizes.insns) × (first.0 + n ≤ state.now.sizes.functions) }
    ensures { PassedAll code.now.program.words.now code.now.program.counts state.now.sizes state.now.words.now i.0 first.0 n start result }
{
    let mut y = start;
    let from = first.index();
    for f in from..from + n {
        let f = FunId(f as u32);
        if state.has_called(f, i) {
            y = pass_returns(code, state, f, y);
        }
    }
    y
}

// The classes of the kinds of the operands of the Returns of f, joined to those met before, unless a kind is a name or Any.
#[tactic(auto, using(crate::proofs::returning::Sets::gather_done))]
fn join_returns(code: &Indexed, state: &Held, f: FunId, met: Classes) -> Option<Classes>
    requires backs { BacksOf code.now state.now.sizes }
    requires f_lt_functions { f.0 < state.now.sizes.functions }
    ensures { JoinsBack code.now.program.words.now code.now.program.counts state.now.sizes state.now.words.now f.0 met result }
{
    let mut sum = met;
    for j in code.returns(f) {
        let at = returned_at(&code.program, j)?;
        let k = crate::opnd_words(code.program.words, state, Some(at));
        sum = sum.with_kind(k)?;
    }
    Some(sum)
}

// The union of the kinds of what has flowed back to i, if none is a name or Any and one is a set; 0 where none is a set.
fn join_called(code: &Indexed, state: &Held, i: InsnId, first: FunId, n: usize) -> Option<u64>
    requires backs { BacksOf code.now state.now.sizes }
    requires i_lt_insns { (i.0 < state.now.sizes.insns) × (first.0 + n ≤ state.now.sizes.functions) }
    ensures { JoinedAll code.now.program.words.now code.now.program.counts state.now.sizes state.now.words.now i.0 first.0 n result }
{
    let mut sum = Classes::NONE;
    let from = first.index();
    for f in from..from + n {
        let f = FunId(f as u32);
        if state.has_called(f, i) {
            sum = join_returns(code, state, f, sum)?;
        }
    }
    Some(sum.set())
}

// The kind of call i, which has called none but the n functions from `first` on. Classes are joined at once, since their order means nothing.
pub fn call_kind(
    code: &Indexed,
    state: &Held,
    i: InsnId,
    first: FunId,
    n: usize,
) -> Result<Kind, Refusal>
    requires backs { BacksOf code.now state.now.sizes }
    requires i_lt_insns { (i.0 < state.now.sizes.insns) × (first.0 + n ≤ state.now.sizes.functions) }
    ensures { StateReads state.now.sizes (BackIn code.now.program.words.now code.now.program.counts state.now.sizes (called_of state.now.sizes state.now.words.now) i.0 first.0 n)
        (λ L program. call_kind L program i.0) state.now.words.now result }
{
    let set = join_called(code, state, i, first, n);
    crate::joined(
        set,
        state.sizes.insns,
        |x| pass_called(code, state, i, first, n, x),
    )
}
