// The analysis machine's state in one lent memory, and its small changes.
#![tactic(auto)]

ghost use Rattle.std.specs.Prelude.{◌≡◌, ◌+◌, ◌*◌, ◌≤◌, ◌<◌};
ghost use Rattle.memory.specs.Layout.{functions_most, row_words};
ghost use Rattle.state.specs.Layout.{state_size};
ghost use Rattle.state.specs.View.{StateHeld, StateReady};

use ids::{BlockId, ClassId, FunId, InsnId};
use kinds::Kind;
use memory::ROW_WORDS;
use refusals::Refusal;

// How many things the program has.
#[derive(Clone, Copy)]
pub struct Sizes {
    pub functions: usize,
    pub classes: usize,
    pub blocks: usize,
    pub insns: usize,
}

// Where a worklist starts in its ring, and how many entries wait.
// Stays: a place and a length and no slice, since behind its last word a ring goes on at its first.
#[derive(Clone, Copy)]
pub struct Ring {
    pub head: usize,
    pub len: usize,
}

#[derive(Clone, Copy)]
pub struct Regs {
    pub insns: Ring,
    pub blocks: Ring,
    pub draining: bool,
    pub count: u64,
}

// The tables in lent words, for so many things, to be read.
#[derive(Clone, Copy)]
pub struct Held<'a> {
    pub words: &'a [usize],
    pub sizes: Sizes,
    pub ghost held: { StateHeld sizes words.now },
}

// The tables in lent words, for so many things, and the registers.
#[derive(Drop)]
pub struct State<'a> {
    pub words: &'a mut [usize],
    pub sizes: Sizes,
    pub regs: Regs,
    pub ghost ready: { StateReady sizes words.now regs },
}

// Where the tables start; kind bytes stand at 0.
// Stays: tables told apart by where they start: of a struct of slices each method would promise that the other tables stay, where `Put` says it of one memory;
// and before the analysis starts, the reader and the uses work in the same memory.
pub const BITS: usize = memory::INSTRUCTIONS_MOST;

pub const LIVE: usize = BITS + memory::INSTRUCTIONS_MOST;

pub const IVARS: usize = LIVE + memory::BLOCKS_ROOM;

pub const IVAR_BITS: usize = IVARS + memory::CLASSES_MOST * memory::IVARS_MOST;

pub const CALLERS: usize = IVAR_BITS + memory::CLASSES_MOST * memory::IVARS_MOST;

pub const READS: usize = CALLERS + memory::FUNCTIONS_MOST * ROW_WORDS;

const INSNS: usize = READS + memory::CLASSES_MOST * ROW_WORDS;

const BLOCKS: usize = INSNS + memory::WORKLIST_MOST;

// The most entries of a worklist.
const ROOM: usize = memory::WORKLIST_MOST;

// The words of the tables; a run has a stamp for each instruction behind them.
pub const SIZE: usize = BLOCKS + memory::WORKLIST_MOST;

// The published length of the state part.
pub const STATE_LEN: usize = SIZE + memory::INSTRUCTIONS_MOST;

impl Regs {
    ghost use Rattle.std.specs.Prelude.{◌≡◌, List, ℕ, ◌≤◌, ◌<◌, ◌^◌};
    ghost use Rattle.rules.specs.Machine.{at_rest};
    ghost use Rattle.memory.specs.Layout.{worklist_most};
    ghost use Rattle.state.specs.View.{Attrs, state_view, no_entries, StateReady};
    ghost use Rattle.state.specs.Changes.{TookInsn, TookBlock};

    // The registers at the start.
    pub fn no_entries() -> Regs
        ensures { result ≡ no_entries }
    {
        Regs {
            insns: Ring { head: 0, len: 0 },
            blocks: Ring { head: 0, len: 0 },
            draining: false,
            count: 0,
        }
    }

    // Nothing waits.
    pub fn at_rest(&self) -> bool
        requires { (self.now.insns.len ≤ worklist_most) × (self.now.blocks.len ≤ worklist_most) }
        ensures { (z : Sizes) (v : Attrs) (m : List ℕ) → result ≡ at_rest (state_view z v m self.now) }
    {
        self.insns.len + self.blocks.len == 0
    }

    // The instruction in front is taken off.
    pub fn take_insn(&mut self, tables: &Held) -> InsnId
        requires state_ready { StateReady tables.now.sizes tables.now.words.now self.old }
        requires len_nonzero { (0 < self.old.insns.len) × (self.old.count < 2 ^ 63) }
        ensures { TookInsn tables.now.sizes tables.now.words.now self.old result.0 self.new }
    {
        self.draining = false;
        self.count += 1;
        InsnId(self.insns.take(tables.words, INSNS) as u32)
    }

    // The block in front is taken off.
    // Stays: beside `take_insn`, since what the two have in common is `Ring::take` and the count; ring, words, flag and result differ. `State` has a call of each.
    pub fn take_block(&mut self, tables: &Held) -> BlockId
        requires state_ready { StateReady tables.now.sizes tables.now.words.now self.old }
        requires len_nonzero { (0 < self.old.blocks.len) × (self.old.count < 2 ^ 63) }
        ensures { TookBlock tables.now.sizes tables.now.words.now self.old result.0 self.new }
    {
        self.draining = true;
        self.count += 1;
        BlockId(self.blocks.take(tables.words, BLOCKS) as u32)
    }
}

impl Ring {
    ghost use Rattle.std.specs.Prelude.{◌≡◌, ◌+◌, ◌≤◌, ◌<◌, length, get_or};
    ghost use Rattle.memory.specs.Layout.{worklist_most};
    ghost use Rattle.state.specs.Rings.{Pushed, behind};

    // Entry x waits in the ring whose first word is at `start`, or 20.
    fn push(&mut self, words: &mut [usize], start: usize, x: usize) -> Result<(), Refusal>
        requires head { self.old.head < worklist_most }
        requires room { start + worklist_most ≤ length words.old }
        ensures { Pushed start x words.old self.old words.new self.new result }
    {
        if self.len < ROOM {
            words[start + (self.head + self.len) % ROOM] = x;
            self.len += 1;
            Ok(())
        } else {
            Err(Refusal::WaitingListFull)
        }
    }

    // The entry in front is taken off.
    fn take(&mut self, words: &[usize], start: usize) -> usize
        requires head { (0 < self.old.len) × (self.old.head < worklist_most) }
        requires room { start + worklist_most ≤ length words.now }
        ensures { (result ≡ get_or words.now (start + self.old.head) 0) × (self.new ≡ behind self.old) }
    {
        let x = words[start + self.head];
        self.head = (self.head + 1) % ROOM;
        self.len -= 1;
        x
    }
}

impl Held<'_> {
    ghost use Rattle.std.specs.Prelude.{false, ◌≡◌, [], ◌+◌, ◌*◌, ◌≤◌, ◌<◌, get_or};
    ghost use Rattle.rules.specs.Machine.{marked};
    ghost use Rattle.memory.specs.tables.Bits.{bit_at, Next, RowWord};
    ghost use Rattle.memory.specs.Layout.{ivars_most, row_words};
    ghost use Rattle.state.specs.Layout.{state_size};
    ghost use Rattle.state.specs.View.{Attrs, kinds_of, live_of, ivars_of, called_of, reads_of};
    ghost use Rattle.state.specs.Changes.{Following};
    ghost use Rattle.state.specs.Methods.{bit_of};

    // Stays: that a number is one of the sizes' is a clause of each method that takes it, here and at `State`, since no type of the number alone knows them.
    #[tactic(auto, using(crate::proofs::Tables::kind_at))]
    pub fn kind_at(&self, i: InsnId) -> Kind
        requires i_lt_insns { i.0 < self.now.sizes.insns }
        ensures { result ≡ get_or (kinds_of self.now.sizes self.now.words.now) i.0 Kind.Empty }
    {
        let at = i.index();
        kinds::kind_from(self.words[at], self.words[BITS + at])
    }

    #[tactic(auto, using(crate::proofs::Tables::live_at_lem))]
    pub fn is_live(&self, b: BlockId) -> bool
        requires b_lt_blocks { b.0 < self.now.sizes.blocks }
        ensures { result ≡ get_or (live_of self.now.sizes self.now.words.now) b.0 false }
    {
        self.words[LIVE + b.index()] != 0
    }

    // The kind of the attribute at place a of class c.
    #[tactic(auto, using(crate::proofs::Tables::ivar_at_lem))]
    pub fn ivar_at(&self, c: ClassId, a: usize) -> Kind
        requires c_lt_classes { (c.0 < self.now.sizes.classes) × (a < ivars_most) }
        ensures { (v : Attrs) → a < v.count c.0 → result ≡ get_or (get_or (ivars_of self.now.sizes v self.now.words.now) c.0 []) a Kind.Empty }
    {
        let at = c.index() * memory::IVARS_MOST + a;
        kinds::kind_from(self.words[IVARS + at], self.words[IVAR_BITS + at])
    }

    // Stays: callers and reads are rows of two tables for ids of two sorts; what they share is `has_mark`, `add_mark` and `next_mark`.
    // Instruction i has called f.
    #[tactic(auto, using(crate::proofs::Tables::called_at_lem))]
    pub fn has_called(&self, f: FunId, i: InsnId) -> bool
        requires f_lt_functions { (f.0 < self.now.sizes.functions) × (i.0 < self.now.sizes.insns) }
        ensures { result ≡ marked (called_of self.now.sizes self.now.words.now) f.0 i.0 }
    {
        self.has_mark(row(CALLERS, f.index()), i)
    }

    // Read i has met class c.
    #[tactic(auto, using(crate::proofs::Tables::read_at))]
    pub fn has_read(&self, c: ClassId, i: InsnId) -> bool
        requires c_lt_classes { (c.0 < self.now.sizes.classes) × (i.0 < self.now.sizes.insns) }
        ensures { result ≡ marked (reads_of self.now.sizes self.now.words.now) c.0 i.0 }
    {
        self.has_mark(row(READS, c.index()), i)
    }

    // The first caller of f that is not below `from`.
    #[tactic(auto, using(crate::proofs::Puts::caller_next))]
    pub fn next_caller(&self, f: FunId, from: InsnId) -> Option<InsnId>
        requires f_lt_functions { f.0 < self.now.sizes.functions }
        ensures { Following (called_of self.now.sizes self.now.words.now) f.0 self.now.sizes.insns from.0 result }
    {
        self.next_mark(row(CALLERS, f.index()), from)
    }

    // The first read that met class c and is not below `from`.
    #[tactic(auto, using(crate::proofs::Puts::read_next))]
    pub fn next_read(&self, c: ClassId, from: InsnId) -> Option<InsnId>
        requires c_lt_classes { c.0 < self.now.sizes.classes }
        ensures { Following (reads_of self.now.sizes self.now.words.now) c.0 self.now.sizes.insns from.0 result }
    {
        self.next_mark(row(READS, c.index()), from)
    }

    // Word k of the callers of f: a bit for each instruction.
    pub fn caller_word(&self, f: FunId, k: usize) -> usize
        requires f_lt_functions { (f.0 < self.now.sizes.functions) × (k < row_words) }
        ensures { RowWord (get_or (called_of self.now.sizes self.now.words.now) f.0 []) k result }
    {
        memory::tables::row_word(self.words, row(CALLERS, f.index()), self.sizes.insns, k)
    }

    // Bit i of the row of bits at a word, one for each instruction.
    fn has_mark(&self, at: usize, i: InsnId) -> bool
        requires at_bound { (at + row_words ≤ state_size) × (i.0 < self.now.sizes.insns) }
        ensures { result ≡ bit_at self.now.words.now at i.0 }
    {
        memory::tables::test_bit(self.words, at, i.index())
    }

    // The first set bit of such a row that is not below `from`.
    fn next_mark(&self, at: usize, from: InsnId) -> Option<InsnId>
        requires at_bound { at + row_words ≤ state_size }
        ensures { Next (bit_at self.now.words.now at) self.now.sizes.insns from.0 (bit_of result) }
    {
        let j = memory::tables::next_bit(self.words, at, from.index(), self.sizes.insns)?;
        Some(InsnId(j as u32))
    }
}

impl State<'_> {
    ghost use Rattle.std.specs.Prelude.{false, ◌≡◌, List, [], ℕ, ◌+◌, ◌*◌, ◌/◌, ◌≤◌, ◌<◌, ◌^◌, get_or};
    ghost use Rattle.rules.specs.Machine.{set_kind, set_live, marked, add_read, set_ivar_kind, at_rest, push_insn, push_block, wake_if_wider};
    ghost use Rattle.memory.specs.tables.Bits.{RowWord};
    ghost use Rattle.memory.specs.Layout.{ivars_most, row_words};
    ghost use Rattle.state.specs.Layout.{called_at, insn_ring_at};
    ghost use Rattle.state.specs.View.{Attrs, kinds_of, live_of, ivars_of, called_of, reads_of};
    ghost use Rattle.state.specs.Changes.{Every, Following, push_where, wake_callers};
    ghost use Rattle.state.specs.Methods.{view, Put, Did, Added, Marked, InFront, TookInsn, TookBlock};

    // The tables, to be read.
    pub fn tables(&self) -> Held<'_>
        ensures { (result.words.now ≡ self.now.words.now) × (result.sizes ≡ self.now.sizes) }
    {
        Held {
            words: self.words,
            sizes: self.sizes,
        }
    }

    // Stays: the readers of `Held` again, for what changes a state: asked by `tables()` at each place, each proof there would carry its two equations.
    pub fn kind_at(&self, i: InsnId) -> Kind
        requires i_lt_insns { i.0 < self.now.sizes.insns }
        ensures { result ≡ get_or (kinds_of self.now.sizes self.now.words.now) i.0 Kind.Empty }
    {
        self.tables().kind_at(i)
    }

    pub fn set_kind(&mut self, i: InsnId, k: Kind)
        requires i_lt_insns { i.0 < self.old.sizes.insns }
        ensures { Put (set_kind i.0 k) self.old self.new }
    {
        let at = i.index();
        self.words[at] = k.tag();
        self.words[BITS + at] = k.payload();
    }

    pub fn is_live(&self, b: BlockId) -> bool
        requires b_lt_blocks { b.0 < self.now.sizes.blocks }
        ensures { result ≡ get_or (live_of self.now.sizes self.now.words.now) b.0 false }
    {
        self.tables().is_live(b)
    }

    pub fn set_live(&mut self, b: BlockId)
        requires b_lt_blocks { b.0 < self.old.sizes.blocks }
        ensures { Put (set_live b.0) self.old self.new }
    {
        self.words[LIVE + b.index()] = 1;
    }

    // The kind of the attribute at place a of class c.
    pub fn ivar_at(&self, c: ClassId, a: usize) -> Kind
        requires c_lt_classes { (c.0 < self.now.sizes.classes) × (a < ivars_most) }
        ensures { (v : Attrs) → a < v.count c.0 → result ≡ get_or (get_or (ivars_of self.now.sizes v self.now.words.now) c.0 []) a Kind.Empty }
    {
        self.tables().ivar_at(c, a)
    }

    pub fn set_ivar(&mut self, c: ClassId, a: usize, k: Kind)
        requires c_lt_classes { (c.0 < self.old.sizes.classes) × (a < ivars_most) }
        ensures { Put (set_ivar_kind c.0 a k) self.old self.new }
    {
        let at = c.index() * memory::IVARS_MOST + a;
        self.words[IVARS + at] = k.tag();
        self.words[IVAR_BITS + at] = k.payload();
    }

    // Instruction i has called f.
    pub fn has_called(&self, f: FunId, i: InsnId) -> bool
        requires f_lt_functions { (f.0 < self.now.sizes.functions) × (i.0 < self.now.sizes.insns) }
        ensures { result ≡ marked (called_of self.now.sizes self.now.words.now) f.0 i.0 }
    {
        self.tables().has_called(f, i)
    }

    // Instruction i is a caller of f from now on; true where it is a new one.
    pub fn add_caller(&mut self, f: FunId, i: InsnId) -> bool
        requires f_lt_functions { (f.0 < self.old.sizes.functions) × (i.0 < self.old.sizes.insns) }
        ensures { Added f.0 i.0 self.old self.new result }
    {
        if self.has_called(f, i) {
            return false;
        }
        self.add_mark(row(CALLERS, f.index()), i);
        true
    }

    // Read i has met class c.
    pub fn has_read(&self, c: ClassId, i: InsnId) -> bool
        requires c_lt_classes { (c.0 < self.now.sizes.classes) × (i.0 < self.now.sizes.insns) }
        ensures { result ≡ marked (reads_of self.now.sizes self.now.words.now) c.0 i.0 }
    {
        self.tables().has_read(c, i)
    }

    pub fn add_read(&mut self, c: ClassId, i: InsnId)
        requires c_lt_classes { (c.0 < self.old.sizes.classes) × (i.0 < self.old.sizes.insns) }
        ensures { Put (add_read c.0 i.0) self.old self.new }
    {
        self.add_mark(row(READS, c.index()), i);
    }

    // The first caller of f that is not below `from`.
    pub fn next_caller(&self, f: FunId, from: InsnId) -> Option<InsnId>
        requires f_lt_functions { f.0 < self.now.sizes.functions }
        ensures { Following (called_of self.now.sizes self.now.words.now) f.0 self.now.sizes.insns from.0 result }
    {
        self.tables().next_caller(f, from)
    }

    // The first read that met class c and is not below `from`.
    pub fn next_read(&self, c: ClassId, from: InsnId) -> Option<InsnId>
        requires c_lt_classes { c.0 < self.now.sizes.classes }
        ensures { Following (reads_of self.now.sizes self.now.words.now) c.0 self.now.sizes.insns from.0 result }
    {
        self.tables().next_read(c, from)
    }

    // Word k of the callers of f: a bit for each instruction.
    pub fn caller_word(&self, f: FunId, k: usize) -> usize
        requires f_lt_functions { (f.0 < self.now.sizes.functions) × (k < row_words) }
        ensures { RowWord (get_or (called_of self.now.sizes self.now.words.now) f.0 []) k result }
    {
        self.tables().caller_word(f, k)
    }

    // Instruction i waits, or 20.
    pub fn push_insn(&mut self, i: InsnId) -> Result<(), Refusal>
        requires i_lt_insns { i.0 < self.old.sizes.insns }
        ensures { Did Every (λ L p. push_insn L p i.0) self.old self.new result }
    {
        self.regs.insns.push(self.words, INSNS, i.index())
    }

    // Block b waits, or 20.
    pub fn push_block(&mut self, b: BlockId) -> Result<(), Refusal>
        requires b_lt_blocks { b.0 < self.old.sizes.blocks }
        ensures { Did Every (λ L p. push_block L p b.0) self.old self.new result }
    {
        self.regs.blocks.push(self.words, BLOCKS, b.index())
    }

    // The instruction in front is taken off.
    pub fn take_insn(&mut self) -> InsnId
        requires len_nonzero { (0 < self.old.regs.insns.len) × (self.old.regs.count < 2 ^ 63) }
        ensures { TookInsn result.0 self.old self.new }
    {
        // Lent as a whole, and then shared, here and in `take_block`: of words that are shared at once the check doesn't know that they are left as they were.
        let words: &[usize] = &mut *self.words;
        let sizes = self.sizes;
        self.regs.take_insn(&Held { words, sizes })
    }

    // The instruction in front, which stays there.
    #[tactic(auto, using(crate::proofs::Pushes::in_front))]
    pub fn front_insn(&self) -> InsnId
        requires { 0 < self.now.regs.insns.len }
        ensures { InFront result.0 self.now }
    {
        InsnId(self.words[INSNS + self.regs.insns.head] as u32)
    }

    // The block in front is taken off.
    pub fn take_block(&mut self) -> BlockId
        requires len_nonzero { (0 < self.old.regs.blocks.len) × (self.old.regs.count < 2 ^ 63) }
        ensures { TookBlock result.0 self.old self.new }
    {
        let words: &[usize] = &mut *self.words;
        let sizes = self.sizes;
        self.regs.take_block(&Held { words, sizes })
    }

    // Nothing waits.
    pub fn at_rest(&self) -> bool
        ensures { (v : Attrs) → result ≡ at_rest (view v self.now) }
    {
        self.regs.at_rest()
    }

    // Instruction i waits if k would change its kind.
    pub fn wake_if_wider(&mut self, k: Kind, i: InsnId) -> Result<(), Refusal>
        requires i_lt_insns { i.0 < self.old.sizes.insns }
        ensures { Did Every (λ L p. wake_if_wider L p k i.0) self.old self.new result }
    {
        let old = self.kind_at(i);
        if kinds::union(old, k)? == old {
            return Ok(());
        }
        self.push_insn(i)
    }

    // Instruction j waits where block b is live.
    pub fn push_live(&mut self, b: BlockId, j: InsnId) -> Result<(), Refusal>
        requires b_lt_blocks { (b.0 < self.old.sizes.blocks) × (j.0 < self.old.sizes.insns) }
        ensures { Did Every (λ L p. push_where L p b.0 j.0) self.old self.new result }
    {
        if self.is_live(b) {
            return self.push_insn(j);
        }
        Ok(())
    }

    // The callers of f wait whose kinds k would change.
    pub fn wake_callers(&mut self, f: FunId, k: Kind) -> Result<(), Refusal>
        requires f_lt_functions { f.0 < self.old.sizes.functions }
        ensures { Did Every (λ L p. wake_callers L p f.0 k) self.old self.new result }
    {
        // Stays: no iterator over the callers, since the state is changed within the loop, so that nothing may borrow them meanwhile.
        let mut from = InsnId(0);
        while let Some(i) = self.next_caller(f, from) {
            self.wake_if_wider(k, i)?;
            from = InsnId(i.0 + 1);
        }
        Ok(())
    }

    fn add_mark(&mut self, at: usize, i: InsnId)
        requires at_bound { (called_at ≤ at) × (at + row_words ≤ insn_ring_at) × (i.0 < self.old.sizes.insns) }
        ensures { Marked at i.0 self.old self.new }
    {
        memory::tables::set_bit(self.words, at, i.index());
    }
}

// Where row n of a table of such rows starts.
fn row(table: usize, n: usize) -> usize
    requires { (table ≤ state_size) × (n < functions_most) }
    ensures { result ≡ table + n * row_words }
{
    table + n * ROW_WORDS
}
