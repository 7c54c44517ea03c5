// A call passes its arguments to its callee's Params.
ghost use Rattle.std.specs.Prelude.{true, ◌≡◌, List, ℕ, ◌<◌, length, Ok};
ghost use Rattle.kinds.specs.Union.{union_of};
ghost use Rattle.rules.specs.Machine.{pass_arguments};
ghost use Rattle.state.specs.Methods.{Did};
ghost use Rattle.chains.specs.Chains.{ChainIs};
ghost use Rattle.kinds.specs.InWords.{words_of};
ghost use Rattle.sends.specs.passing.Passing.{pass_to, ParamPlaced, HasParams, CallerOf, CallIn, PassesOf, CoversTells, KeepsOf, PassOf, PassIdle};

use chains::{Chain, Sort};
use ids::{BlockId, InsnId};
use kinds::Words;
use program::{Op, Program};
use refusals::Refusal;
use state::{Held, State};

// A Param's place.
// Stays: that j is one of the program's instructions ties two arguments, since an id doesn't hold its program.
fn place_of(program: &Program, j: InsnId) -> usize
    requires j_lt_insns { j.0 < program.now.counts.insns }
    ensures { ParamPlaced program.now.words.now program.now.counts j.0 result }
{
    match program.insn(j).op {
        Op::Param(n) => n,
        _ => 0,
    }
}

// The kind of the argument that call i has for Param j, in words.
// Stays: what ties the program to the state is a clause, here and below: a struct of both and of i would take it from two readers, and their two callers
// would each make the struct of that same clause. The next bounds one argument by another.
fn passed_words(program: &Program, state: &Held, i: InsnId, j: InsnId) -> Words
    requires caller { CallerOf program.now state.now.sizes i.0 }
    requires j_lt_insns { j.0 < state.now.sizes.insns }
    ensures { PassesOf program.now state.now.sizes state.now.words.now i.0 j.0 (words_of result) }
{
    let n = place_of(program, j);
    let at = flows::argument_at(program, i, n);
    flows::opnd_words(program.words, state, at)
}

// A quick test that the union of a with k is a: k is Empty, a is Any, a is a set that has k's classes, or they are one kind and no name.
pub fn surely_covers(a: Words, k: Words) -> bool
    ensures { result ≡ true → union_of (words_of a) (words_of k) ≡ Ok (words_of a) }
{
    compare(a, k).unwrap_or(false)
}

// The same test, which also tells where the union is surely another kind: a is a set that lacks a class of k, and k is no name and not Any. None where it
// doesn't tell.
// Stays: no equality and no order of two values is asked here, which a derive would give, but what their union is.
fn compare(a: Words, k: Words) -> Option<bool>
    ensures { CoversTells (words_of a) (words_of k) result }
{
    if k.is_empty() {
        return Some(true);
    }
    if a.is_set() {
        let t = k.as_set()? as usize;
        return Some((a.bits | t) == a.bits);
    }
    if a.is_any() {
        return Some(true);
    }
    if a.is_name() {
        return None;
    }
    (a == k).then_some(true)
}

// A quick test that the argument of call i for Param j leaves the Param's kind as it is.
fn surely_keeps(program: &Program, state: &Held, i: InsnId, j: InsnId) -> bool
    requires caller { CallerOf program.now state.now.sizes i.0 }
    requires j_lt_insns { j.0 < state.now.sizes.insns }
    ensures { result ≡ true → KeepsOf program.now state.now.sizes state.now.words.now i.0 j.0 }
{
    let k = passed_words(program, state, i, j);
    let old = flows::insn_words(state, j);
    surely_covers(old, k)
}

// Param j waits if the argument of call i would change its kind. A union is made only where the quick test doesn't tell.
fn pass_to(program: &Program, state: &mut State, i: InsnId, j: InsnId) -> Result<(), Refusal>
    requires caller { CallerOf program.now state.old.sizes i.0 }
    requires j_lt_insns { j.0 < state.old.sizes.insns }
    ensures { Did (CallIn program.now.words.now program.now.counts i.0) (λ L program. pass_to L program i.0 j.0) state.old state.new result }
{
    let tables = state.tables();
    let k = passed_words(program, &tables, i, j);
    let old = flows::insn_words(&tables, j);
    match compare(old, k) {
        Some(true) => Ok(()),
        Some(false) => state.push_insn(j),
        None => state.wake_if_wider(k.kind(), j),
    }
}

// The Params of a function with this entry wait whose kinds the arguments of call i would change.
pub fn pass_arguments(
    program: &Program,
    chains: &[usize],
    state: &mut State,
    i: InsnId,
    entry: BlockId,
) -> Result<(), Refusal>
    requires caller { CallerOf program.now state.old.sizes i.0 }
    requires has_params { HasParams state.old.sizes.insns chains.now entry.0 }
    ensures { (f : ℕ) → Did (PassOf program.now chains.now state.old.sizes i.0 f entry.0)
        (λ L program. pass_arguments L program i.0 f) state.old state.new result }
{
    for j in Chain::new(chains, Sort::Params, entry.index(), state.sizes.insns) {
        pass_to(program, state, i, j)?;
    }
    Ok(())
}

// A quick test that the arguments of call i leave the kinds of all Params of a function with this entry as they are.
pub fn surely_keeps_all(
    program: &Program,
    chains: &[usize],
    state: &Held,
    i: InsnId,
    entry: BlockId,
) -> bool
    requires caller { CallerOf program.now state.now.sizes i.0 }
    requires has_params { HasParams state.now.sizes.insns chains.now entry.0 }
    ensures { result ≡ true → (f : ℕ) → PassIdle state.now.sizes
        (PassOf program.now chains.now state.now.sizes i.0 f entry.0)
        (λ L program. pass_arguments L program i.0 f) state.now.words.now }
{
    let mut params = Chain::new(chains, Sort::Params, entry.index(), state.sizes.insns);
    params.all(|j| surely_keeps(program, state, i, j))
}

// How many Params a function with this entry has, in a program of n instructions.
pub fn count_params(chains: &[usize], n: usize, entry: BlockId) -> usize
    requires { HasParams n chains.now entry.0 }
    ensures { (l : List ℕ) → ChainIs chains.now n 1 entry.0 l → length l ≡ result }
{
    Chain::new(chains, Sort::Params, entry.index(), n).count()
}
