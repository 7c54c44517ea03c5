// Variables as operands, and their join at an `if`.
#![tactic(auto)]

ghost use Rattle.std.specs.Prelude.{◌≡◌, ◌+◌, ◌≤◌, ◌<◌, length, IfSome};
ghost use Rattle.variables.specs.Promises.{opnd_of as stored_of, Lies, BothAside, NotesBoth};
ghost use Rattle.program.specs.Drafts.{DraftKept};
ghost use Rattle.program.specs.Rows.{opnd_of, name_in};
ghost use Rattle.memory.specs.Layout.{script_most};
ghost use Rattle.variables.specs.Layout.{bindings_most, entries_most, variables_size};
ghost use Rattle.phis.specs.Joining.{PhisSets, PhisFinds, Phis, One, RowsJoined, Arms, IfEnd};

use ids::BlockId;
use program::{Draft, Given, Name, Op, Opnd};
use refusals::Refusal;
use variables::{Joint, Row, Rows, Scope, Stored};

// ---- stored operands

#[tactic(auto, using(crate::proofs::Laws::load_is))]
fn load(o: Stored) -> Opnd
    ensures { opnd_of result ≡ stored_of o }
{
    program::opnd_from(o.tag, o.bits)
}

#[tactic(auto, using(crate::proofs::Laws::store_is))]
fn store(o: Opnd) -> Stored
    ensures { stored_of result ≡ opnd_of o }
{
    let (tag, bits) = program::opnd_words(o);
    Stored { tag, bits }
}

// ---- variables
// Stays: each clause names the size of scratch memory: a struct over the `&mut` would promise in each contract that it keeps its loan, as `DraftKept` does, a clause for a clause.

// The name is bound to o, as binding n.
pub fn set_var(scratch: &mut [usize], n: usize, name: Name, o: Opnd)
    requires variables_size_in_bounds { (variables_size ≤ length scratch.old) × (n < bindings_most) }
    requires name_in_bounds { (name.start ≤ script_most) × (name.len ≤ script_most) }
    ensures { PhisSets n name.start name.len o scratch.old scratch.new }
{
    variables::bind(scratch, n, name.start, name.len, store(o));
}

// What the name is among n bindings.
pub fn get_var(script: &[u8], scratch: &[usize], n: usize, name: Name) -> Option<Opnd>
    requires { (variables_size ≤ length scratch.now) × (n ≤ entries_most) }
    ensures { PhisFinds script.now scratch.now n (name_in script.now name) result }
{
    let scope = Scope { script, scratch };
    let o = scope.find(n, name.of(script))?;
    Some(load(o))
}

// ---- joins

// For more names than these the bindings are noted before the join; so many are looked up one by one.
const FEW: usize = 8;

// The block that takes instructions, and the blocks of the two sides.
#[derive(Clone, Copy)]
pub struct Blocks {
    pub at: BlockId,
    pub left: BlockId,
    pub right: BlockId,
}

// What the arms of an `if` bound: of n bindings the first mark are older than it, and the right arm's are still in force;
// the left arm's row is set aside.
#[derive(Clone, Copy)]
pub struct Sides {
    pub mark: usize,
    pub n: usize,
    pub left: Row,
}

// Stays: the block that takes instructions is bounded by the draft's blocks in each contract: no type says it without holding both.

// v on the left side and w on the right are joined: two equal operands need no instruction.
pub fn phi(draft: &mut Draft, q: Blocks, v: Opnd, w: Opnd) -> Result<Opnd, Refusal>
    requires at_lt_blocks { q.at.0 < draft.old.counts.blocks }
    ensures kept { DraftKept draft.old draft.new }
    ensures did { Phis draft.old.limits q v w draft.old.words.now draft.old.counts draft.new.words.now draft.new.counts result }
{
    if v == w {
        return Ok(v);
    }
    let i = draft.push_insn(q.at, Op::Phi(q.left, q.right), Given::Two(v, w))?;
    Ok(Opnd::Insn(i))
}

// One name is joined, and bound as binding n: how many bindings there are then.
fn join_one(
    scratch: &mut [usize],
    draft: &mut Draft,
    q: Blocks,
    n: usize,
    x: Joint,
) -> Result<usize, Refusal>
    requires at_lt_blocks { q.at.0 < draft.old.counts.blocks }
    requires variables_size_in_bounds { (variables_size ≤ length scratch.old) × (n < bindings_most) }
    ensures kept { DraftKept draft.old draft.new }
    ensures did { One draft.old.limits q n x scratch.old draft.old.words.now draft.old.counts scratch.new draft.new.words.now draft.new.counts result }
{
    let o = phi(draft, q, load(x.left), load(x.right))?;
    variables::bind_again(scratch, n, x.word, store(o));
    Ok(n + 1)
}

// What the two rows set over base bindings is joined, in rising order of names; g has the rows' notes, if there are any.
// How many bindings there are then.
fn join_rows(
    script: &[u8],
    scratch: &mut [usize],
    draft: &mut Draft,
    g: Option<&[u16]>,
    q: Blocks,
    base: usize,
    rows: Rows,
) -> Result<usize, Refusal>
    requires at_lt_blocks { q.at.0 < draft.old.counts.blocks }
    requires variables_size_in_bounds { variables_size ≤ length scratch.old }
    requires aside { BothAside script.now scratch.old rows }
    requires room { base + (rows.left.len + rows.right.len) ≤ bindings_most }
    requires notes_both { IfSome g (λ t. NotesBoth script.now scratch.old base rows.left.lo rows.left.len rows.right.lo rows.right.len t.now) }
    ensures kept { DraftKept draft.old draft.new }
    ensures did { RowsJoined script.now draft.old.limits q base rows
        scratch.old draft.old.words.now draft.old.counts scratch.new draft.new.words.now draft.new.counts result }
{
    let mut n = base;
    let mut rest = rows;
    while let Some(x) = (Scope {
        script,
        scratch: &*scratch,
    })
    .next_join(g, base, rest)
    {
        n = join_one(scratch, draft, q, n, x)?;
        rest.left.lo += x.lefts;
        rest.left.len -= x.lefts;
        rest.right.lo += x.rights;
        rest.right.len -= x.rights;
    }
    Ok(n)
}

// The end of an `if`. How many bindings there are then.
pub fn join_arms(
    script: &[u8],
    scratch: &mut [usize],
    draft: &mut Draft,
    q: Blocks,
    sides: Sides,
) -> Result<usize, Refusal>
    requires at_lt_blocks { q.at.0 < draft.old.counts.blocks }
    requires variables_size_in_bounds { variables_size ≤ length scratch.old }
    requires arms { Arms sides.mark sides.n sides.left.lo sides.left.len }
    requires lies { Lies script.now scratch.old sides.left }
    ensures kept { DraftKept draft.old draft.new }
    ensures did { IfEnd script.now draft.old.limits q sides.mark sides.n sides.left.lo sides.left.len
        scratch.old draft.old.words.now draft.old.counts scratch.new draft.new.words.now draft.new.counts result }
{
    let Sides { mark, n, left } = sides;
    let hi = left.lo + left.len;
    let rn = variables::set_aside(script, scratch, mark, n - mark, hi);
    let rows = Rows {
        left,
        right: Row { lo: hi, len: rn },
    };
    if left.len + rn <= FEW {
        return join_rows(script, scratch, draft, None, q, mark, rows);
    }
    // Stays: there is no heap, so the notes have a fixed array.
    let mut g = [0u16; variables::BINDINGS_MOST];
    let scope = Scope {
        script,
        scratch: &*scratch,
    };
    scope.note_rows(&mut g, mark, rows);
    join_rows(script, scratch, draft, Some(&g), q, mark, rows)
}
