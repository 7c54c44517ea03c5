// The union of a set of operands in the reference's order, by one or two passes over the operands as they come; and what has flowed to a Param.
#![tactic(auto)]

mod calls;
pub mod returning;

ghost use Rattle.std.specs.Prelude.{true, false, ◌≡◌, [], ◌∷◌, ℕ, ◌+◌, ◌<◌, length, get_or};
ghost use Rattle.rules.specs.Program.{Param};
ghost use Rattle.rules.specs.Machine.{rule};
ghost use Rattle.program.specs.Rows.{opnd_of};
ghost use Rattle.state.specs.View.{kinds_of, called_of};
ghost use Rattle.machine.specs.opnds.Reads.{OperandInside, kind_in, StateReads};
ghost use Rattle.flows.specs.Tally.{lower, before, take as taken, close, finish};
ghost use Rattle.kinds.specs.InWords.{words_of, as_set};
ghost use Rattle.flows.specs.Flows.{tally_of, TallyAdds, Passed, Argues, standing, PlaceInside, ArguesAt, operand_of, FlowsOf, PassedIn, ByPasses, SetsFrom, Joins, ParamIs};

use calls::Callers;
use ids::{FunId, InsnId};
use kinds::{Kind, Words};
use program::{Op, Opnd, Program};
use refusals::Refusal;
use state::Held;

// What was met so far: no operand, one operand and its kind, or the union of several.
#[derive(Clone, Copy)]
pub enum Tally {
    Nothing,
    One(Opnd, Kind),
    Many(Result<Kind, Refusal>),
}

// A pass finds the least instruction whose kind is Any, and takes what stands before its bound. The first has no bound; where it finds an Any, that is the bound of a second.
// Stays: n and no `None` where there is no bound, and where no Any was met: the definitions `lower` and `finish` are by a number, so that an option would be
// made of it and unmade for each operand.
#[derive(Clone, Copy)]
pub struct Pass {
    pub bound: usize,
    pub least: usize,
    pub tally: Tally,
}

impl Pass {
    ghost use Rattle.std.specs.Prelude.{◌≡◌};
    ghost use Rattle.flows.specs.Flows.{pass_before};

    // A pass at its start, which is to take what stands before an instruction.
    fn before(a: usize) -> Pass
        ensures { result ≡ pass_before a }
    {
        Pass {
            bound: a,
            least: a,
            tally: Tally::Nothing,
        }
    }
}

#[tactic(auto, using(crate::proofs::Tallied::before_insn))]
fn before(a: usize, o: Opnd) -> bool
    ensures { result ≡ before [] a (opnd_of o) }
{
    match o {
        Opnd::Const(_) => true,
        Opnd::Insn(i) => i.index() < a,
    }
}

// Stays: the operand's clause, as at `machine::opnds::kind_of`.
fn lower(state: &Held, a: usize, o: Opnd) -> usize
    requires operand_inside { OperandInside state.now.sizes o }
    ensures { result ≡ lower (kinds_of state.now.sizes state.now.words.now) a (opnd_of o) }
{
    match o {
        Opnd::Const(_) => a,
        Opnd::Insn(i) => {
            let j = i.index();
            if state.kind_at(i).is_any() & (j < a) {
                return j;
            }
            a
        }
    }
}

#[tactic(auto, using(crate::proofs::Tallied::add_first, crate::proofs::Tallied::add_more))]
fn add(t: Tally, k: Kind, o: Opnd) -> Tally
    ensures { TallyAdds t k o result }
{
    match t {
        Tally::Nothing => Tally::One(o, k),
        Tally::One(w, j) => {
            if o == w {
                return t;
            }
            Tally::Many(kinds::union(j, k))
        }
        Tally::Many(j) => Tally::Many(kinds::join(j, k)),
    }
}

#[tactic(auto, using(crate::proofs::Tallied::take_none, crate::proofs::Tallied::take_void, crate::proofs::Tallied::take_it))]
fn take(state: &Held, a: usize, t: Tally, o: Opnd) -> Tally
    requires operand_inside { OperandInside state.now.sizes o }
    ensures { tally_of result ≡ taken (kinds_of state.now.sizes state.now.words.now) a (tally_of t) (opnd_of o) }
{
    if before(a, o) {
        let k = machine::opnds::kind_of(state, o);
        if k.is_empty() {
            return t;
        }
        if k.is_any() {
            return t;
        }
        return add(t, k, o);
    }
    t
}

// One operand in a pass.
pub fn pass_one(state: &Held, x: Pass, o: Opnd) -> Pass
    requires operand_inside { OperandInside state.now.sizes o }
    ensures { Passed (kinds_of state.now.sizes state.now.words.now) (opnd_of o ∷ []) x result }
{
    Pass {
        bound: x.bound,
        least: lower(state, x.least, o),
        tally: take(state, x.bound, x.tally, o),
    }
}

// Stays: that i is one of the program's instructions ties two arguments, since an id doesn't hold its program.
// Where the argument that call i has for place n stands among the operands.
#[tactic(auto, using(crate::proofs::Callers::row_inside))]
pub fn argument_at(program: &Program, i: InsnId, n: usize) -> Option<usize>
    requires i_lt_insns { i.0 < program.now.counts.insns }
    ensures { ArguesAt program.now.words.now program.now.counts i.0 n result }
{
    let row = program.insn(i);
    let skip = matches!(row.op, Op::SendDynamic(_)) as usize;
    if n < row.count {
        let j = skip + n;
        if j < row.count {
            return Some(program::OPNDS + 2 * row.first + 2 * j);
        }
    }
    None
}

// The argument that call i has for place n; Empty where it has none.
#[tactic(auto, using(crate::proofs::Standing::argues_none, crate::proofs::Standing::argues_some))]
pub fn argument(program: &Program, i: InsnId, n: usize) -> Opnd
    requires i_lt_insns { i.0 < program.now.counts.insns }
    ensures { Argues program.now.words.now program.now.counts i.0 n result }
{
    match argument_at(program, i, n) {
        Some(at) => program::read_opnd(program.words, at),
        None => Opnd::Const(Kind::Empty),
    }
}

// The kind of instruction i, in words: they are read faster than the kind is made.
// Stays: i is bounded by the state's sizes, as in `Held`'s readers.
pub fn insn_words(state: &Held, i: InsnId) -> Words
    requires i_lt_insns { i.0 < state.now.sizes.insns }
    ensures { words_of result ≡ get_or (kinds_of state.now.sizes state.now.words.now) i.0 Kind.Empty }
{
    let at = i.index();
    Words {
        tag: state.words[at],
        bits: state.words[state::BITS + at],
    }
}

// Stays: that the place lies in the words ties two arguments, since a number doesn't hold the memory that it is a place of.
// The operand that stands at a word, in words; Empty for none.
#[tactic(auto, using(crate::proofs::Standing::stood_none, crate::proofs::Standing::stood))]
fn standing_words(words: &[usize], at: Option<usize>) -> Words
    requires { PlaceInside words.now at }
    ensures { operand_of result ≡ standing words.now at }
{
    match at {
        Some(at) => Words {
            tag: words[at],
            bits: words[at + 1],
        },
        None => Words::EMPTY,
    }
}

// The kind of an operand, both in words.
#[tactic(auto, using(crate::proofs::Standing::words_insn, crate::proofs::Standing::words_const))]
fn words_of(state: &Held, o: Words) -> Words
    requires operand_inside { OperandInside state.now.sizes (operand_of o) }
    ensures { words_of result ≡ kind_in (kinds_of state.now.sizes state.now.words.now) (opnd_of (operand_of o)) }
{
    if o.tag == program::INSN_TAG {
        return insn_words(state, InsnId(ids::number_in(o.bits)));
    }
    o
}

// The kind of the operand that stands at a word, in words; Empty for none.
pub fn opnd_words(words: &[usize], state: &Held, at: Option<usize>) -> Words
    requires at_in_bounds { PlaceInside words.now at }
    requires operand_inside { OperandInside state.now.sizes (standing words.now at) }
    ensures { words_of result ≡ kind_in (kinds_of state.now.sizes state.now.words.now) (opnd_of (standing words.now at)) }
{
    let o = standing_words(words, at);
    words_of(state, o)
}

// Stays: what is known of program and state ties two values that are lent apart: a struct of both, to be read, would take the clause from two functions, and `param`
// would make it of that same clause. f is bounded by the state's sizes, since an id doesn't hold them.
// The arguments for place n of the callers of f, in a pass.
fn pass_callers(program: &Program, state: &Held, f: FunId, n: usize, start: Pass) -> Pass
    requires flows_known { FlowsOf program.now state.now.sizes state.now.words.now }
    requires f_lt_functions { f.0 < state.now.sizes.functions }
    ensures { PassedIn program.now.words.now program.now.counts state.now.sizes state.now.words.now f.0 n 0 start result }
{
    let mut x = start;
    for i in Callers::of(state, f) {
        x = pass_one(state, x, argument(program, i, n));
    }
    x
}

// The classes of the kinds that were joined so far, and whether one of these was a set: nil, numbers and truths have classes too, but make no set alone.
#[derive(Clone, Copy)]
struct Classes {
    union: u64,
    met: bool,
}

impl Classes {
    ghost use Rattle.std.specs.Prelude.{◌≡◌};
    ghost use Rattle.kinds.specs.InWords.{words_of};
    ghost use Rattle.flows.specs.Flows.{with_kind, set_from};

    const NONE: Classes = Classes {
        union: 0,
        met: false,
    };

    // The classes with those of one kind more, unless it is a name or Any.
    #[inline(always)]
    fn with_kind(self, k: Words) -> Option<Classes>
        ensures { result ≡ with_kind self (words_of k) }
    {
        Some(Classes {
            union: self.union | k.as_set()?,
            met: self.met | k.is_set(),
        })
    }

    // Their set; empty where none of the kinds was a set.
    // Stays: 0 and no `None` where none was a set, as in the definition `join_sets`, whose `None` says that a name or Any was met.
    fn set(self) -> u64
        ensures { result ≡ set_from self }
    {
        if self.met { self.union } else { 0 }
    }
}

// The union of the kinds of the arguments for place n of the callers of f, if none is a name or Any and one is a set; 0 where none is a set. An operand
// that came just before adds nothing.
fn join_sets(program: &Program, state: &Held, f: FunId, n: usize) -> Option<u64>
    requires flows_known { FlowsOf program.now state.now.sizes state.now.words.now }
    requires f_lt_functions { f.0 < state.now.sizes.functions }
    ensures { SetsFrom program.now.words.now program.now.counts state.now.sizes state.now.words.now f.0 n 0 false 0 result }
{
    let mut sum = Classes::NONE;
    let mut last = Words::EMPTY;
    for i in Callers::of(state, f) {
        let at = argument_at(program, i, n);
        let o = standing_words(program.words, at);
        if o != last {
            sum = sum.with_kind(words_of(state, o))?;
            last = o;
        }
    }
    Some(sum.set())
}

#[tactic(auto, using(crate::proofs::Tallied::close_none, crate::proofs::Tallied::close_one))]
fn close_tally(t: Tally) -> Result<Kind, Refusal>
    ensures { result ≡ close [] (tally_of t) }
{
    match t {
        Tally::Nothing => Ok(Kind::Empty),
        Tally::One(_, k) => Ok(k),
        Tally::Many(j) => j,
    }
}

#[tactic(auto, using(crate::proofs::Tallied::finish_any, crate::proofs::Tallied::finish_all))]
pub fn finish_pass(n: usize, a: usize, t: Tally) -> Result<Kind, Refusal>
    ensures { result ≡ finish [] n a (tally_of t) }
{
    let j = close_tally(t);
    if a < n {
        return kinds::join(j, Kind::Any);
    }
    j
}

// The union of the operands that a walk goes over, whatever their kinds.
fn by_passes<F: Fn(Pass) -> Pass>(n: usize, walk: F) -> Result<Kind, Refusal>
    requires { F.IsAlwaysCallable walk }
    ensures { ByPasses n (F.post walk) result }
{
    let once = walk(Pass::before(n));
    let a = once.least;
    if a == n {
        return finish_pass(n, a, once.tally);
    }
    let twice = walk(Pass::before(a));
    finish_pass(n, a, twice.tally)
}

// The kind of a set of classes, if there is one and it isn't empty; else the union of the operands that a walk goes over.
fn joined<F: Fn(Pass) -> Pass>(set: Option<u64>, n: usize, walk: F) -> Result<Kind, Refusal>
    requires { F.IsAlwaysCallable walk }
    ensures { Joins set n (F.post walk) result }
{
    match set {
        Some(s) if 0 < s => Ok(Kind::Objects(s)),
        _ => by_passes(n, walk),
    }
}

// The kind of a Param of function f with place n. Classes are joined at once, since their order means nothing.
pub fn param(program: &Program, state: &Held, f: FunId, n: usize) -> Result<Kind, Refusal>
    requires flows_known { FlowsOf program.now state.now.sizes state.now.words.now }
    requires f_lt_functions { f.0 < state.now.sizes.functions }
    ensures { (i : ℕ) → StateReads state.now.sizes (ParamIs program.now.words.now program.now.counts state.now.sizes (called_of state.now.sizes state.now.words.now) i f.0 n)
        (λ L program. rule L program i (Param n)) state.now.words.now result }
{
    let set = join_sets(program, state, f, n);
    joined(
        set,
        state.sizes.insns,
        |x| pass_callers(program, state, f, n, x),
    )
}
