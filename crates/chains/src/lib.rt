// For each block its instructions and its Params, and for each function its Returns: chains through the instructions, in lent memory.
#![tactic(auto)]

pub mod cells;
pub mod view;

ghost use Rattle.std.specs.Prelude.{◌≡◌, ◌+◌, ◌≤◌, ◌<◌, length};
ghost use Rattle.memory.specs.Layout.{instructions_most};
ghost use Rattle.chains.specs.Layout.{chains_size};
ghost use Rattle.chains.specs.Chains.{is_param, is_return, key_of, place_of, ChainsFilled, Copied, Chains, Index, Carried};

pub use cells::Chain;
use ids::InsnId;
use program::{Counts, Op, Program};
pub use view::Indexed;

// A sort's heads, the words of a sort, and of all three: the code, the Params and the Returns.
// Stays: there is no heap, so a chain is linked numbers in lent memory, and the number of instructions ends it.
const HEADS: usize = memory::BLOCKS_ROOM;

const SORT: usize = HEADS + memory::INSTRUCTIONS_MOST;

pub const SIZE: usize = 3 * SORT;

// The published length of the program part: its tables, and the chains behind them.
pub const PROGRAM_LEN: usize = program::SIZE + SIZE;

// The sorts of chains, in the order in which they stand.
#[derive(Clone, Copy)]
pub enum Sort {
    Code,
    Params,
    Returns,
}

impl From<Sort> for usize {
    ghost from_gives = { λ s n. n ≡ place_of s };

    fn from(s: Sort) -> usize {
        s as usize
    }
}

fn is_param(op: Op) -> bool
    ensures { result ≡ is_param op }
{
    matches!(op, Op::Param(_))
}

fn is_return(op: Op) -> bool
    ensures { result ≡ is_return op }
{
    matches!(op, Op::Return)
}

// The chain of a sort that an instruction belongs to: its block, its block if it is a Param, its function if it is a Return.
fn key_of(program: &Program, sort: Sort, i: InsnId) -> Option<usize>
    // Stays: an id's bound is its program's count; no type of the id alone can say it.
    requires { i.0 < program.now.counts.insns }
    ensures { result ≡ key_of program.now.words.now (place_of sort) i.0 }
{
    let row = program.insn(i);
    match sort {
        Sort::Code => Some(row.block.index()),
        Sort::Params => is_param(row.op).then_some(row.block.index()),
        Sort::Returns => {
            // Stays: `then` was tried in three forms, and its closure's contract says nothing of the function that it gives.
            if is_return(row.op) {
                Some(program.function_of(row.block).index())
            } else {
                None
            }
        }
    }
}

// n words from a place on.
// Stays: a place and a number, since contracts and laws of three crates speak of a memory by its places; with the library's `fill` in place the proof didn't
// close.
pub fn fill(scratch: &mut [usize], at: usize, n: usize, v: usize)
    requires { at + n ≤ length scratch.old }
    ensures { ChainsFilled at n v scratch.old scratch.new }
{
    scratch[at..at + n].fill(v);
}

// The chains of a sort, from the last instruction down: each instruction goes in front.
fn chain(program: &Program, scratch: &mut [usize], sort: Sort)
    // Stays: the words are lent; a struct that says how long they are would be made in build_index alone, and taken apart behind it.
    requires { chains_size ≤ length scratch.old }
    ensures { Chains program.now.words.now program.now.counts.insns (place_of sort) scratch.old scratch.new }
{
    let n = program.counts.insns;
    let heads = SORT * usize::from(sort);
    fill(scratch, heads, HEADS, n);
    for i in (0..n).rev() {
        if let Some(k) = key_of(program, sort, InsnId(i as u32)) {
            if k < HEADS {
                scratch[heads + HEADS + i] = scratch[heads + k];
                scratch[heads + k] = i;
            }
        }
    }
}

pub fn build_index(program: &Program, scratch: &mut [usize])
    requires { chains_size ≤ length scratch.old }
    ensures { Index program.now.words.now program.now.counts scratch.new }
{
    chain(program, scratch, Sort::Code);
    chain(program, scratch, Sort::Params);
    chain(program, scratch, Sort::Returns);
}

// n words from a place on go to another memory, to a part of it that starts at `base`.
// Stays: a loop and no `copy_from_slice`, which calls `memmove`: a program in C would have to bring it.
fn copy(scratch: &[usize], t: &mut [usize], base: usize, at: usize, n: usize)
    requires { (at + n ≤ length scratch.now) × (base + (at + n) ≤ length t.old) }
    ensures { Copied base at n scratch.now t.old t.new }
{
    for i in 0..n {
        t[base + (at + i)] = scratch[at + i];
    }
}

// What is in use of an index goes to another memory, from `base` on.
pub fn copy_index(scratch: &[usize], counts: Counts, t: &mut [usize], base: usize)
    requires chains_size_in_bounds { (chains_size ≤ length scratch.now) × (counts.insns ≤ instructions_most) }
    requires chains_size_in_bounds_2 { base + chains_size ≤ length t.old }
    ensures { Carried counts base scratch.now t.old t.new }
{
    let n = HEADS + counts.insns;
    copy(scratch, t, base, 0, n);
    copy(scratch, t, base, SORT, n);
    copy(scratch, t, base, SORT + SORT, n);
}
