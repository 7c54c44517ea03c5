// A program that is written: its tables while a script is read.
ghost use Rattle.std.specs.Prelude.{◌≡◌, [], ◌∷◌, ◌++◌, ◌+◌, ◌*◌, ◌/◌, ◌≤◌, ◌<◌, length, cond, set, OnErr};
ghost use Rattle.memory.specs.Layout.{functions_most, instructions_most, blocks_room};
ghost use Rattle.program.specs.Layout.{blocks_at, program_size};
ghost use Rattle.program.specs.Rows.{opnds_in, given, listed_in, ends_block};
ghost use Rattle.program.specs.View.{
  OwnsFrom,
  ProgramReady,
  limits_of,
  Puts,
  PutsRow,
  Asks,
  ProgramRoom,
  PutsBlock,
  PutsFun,
  PutsClass,
  Commits,
  ProgramAdds,
  ProgramDid,
  DidFun,
  Starts,
  insn_of,
  block_of,
  class_of,
  asked,
  pushing_of,
  call_of,
  block_for,
  next_block,
  class_for,
  more_insns,
  more_calls,
  more_blocks,
  more_classes,
  unchanged,
};

use crate::{
    BLOCKS, CLASS_WORDS, CLASSES, Callee, Counts, FUNCTION_WORDS, FUNCTIONS, Function, Given,
    INSN_WORDS, INSNS, Limits, Name, OPNDS, Op, Program, Row, ends_block, is_owned, listed_in,
    op_words, owner_word, put_opnd,
};
use ids::{BlockId, ClassId, FunId, InsnId};
use refusals::Refusal;

// The words that the tables stand in, how many rows of each are in use, and how many there may be.
#[derive(Drop)]
pub struct Draft<'a> {
    pub words: &'a mut [usize],
    pub counts: Counts,
    pub limits: Limits,
    pub ghost ready: { ProgramReady words.now counts },
}

impl<'a> Draft<'a> {
    ghost use Rattle.program.specs.Drafts.{DraftKept, DraftStays};

    // The program before any reading: the four built-in classes.
    // Stays: there is no draft yet, whose type would say that the tables fit in the words.
    pub fn no_program(words: &'a mut [usize], limits: Limits) -> Draft<'a>
        requires { program_size ≤ length words.old }
        ensures starts { Starts result.words.now result.counts }
        ensures limits { result.limits ≡ limits }
        ensures loan { result.words.ghost_name ≡ words.entry.ghost_name }
    {
        let nameless = Name { start: 0, len: 0 };
        put_class(words, ClassId::NIL, nameless, 0);
        put_class(words, ClassId::INT, nameless, 0);
        put_class(words, ClassId::TRUE, nameless, 0);
        put_class(words, ClassId::FALSE, nameless, 0);
        Draft {
            words,
            counts: Counts {
                functions: 0,
                classes: 4,
                blocks: 0,
                insns: 0,
                opnds: 0,
                listed: 0,
            },
            limits,
        }
    }

    // The program as far as it is written, to be read beside the script.
    pub fn program<'b>(&'b self, script: &'b [u8]) -> Program<'b>
        ensures script { result.script.now ≡ script.now }
        ensures words { result.words.now ≡ self.now.words.now }
        ensures counts { result.counts ≡ self.now.counts }
    {
        Program {
            script,
            words: &*self.words,
            counts: self.counts,
        }
    }

    // ---- instructions

    // Questions 10 and 11 for an instruction of block b with k listed operands.
    // Stays: a block's number doesn't hold the draft that it belongs to, so that it is below the count is said where it is used.
    #[tactic(auto, using(crate::proofs::Pushing::asked))]
    fn may_push(&self, b: BlockId, k: usize) -> Result<(), Refusal>
        requires { b.0 < self.now.counts.blocks }
        ensures { Asks self.now.limits self.now.words.now self.now.counts b.0 k (asked result) }
    {
        let at = BLOCKS + 2 * b.index();
        if self.words[at + 1] != 0 {
            return Err(Refusal::BlockEnded);
        }
        if self.limits.instructions <= self.counts.insns {
            return Err(Refusal::OverLimit);
        }
        if self.limits.operands < self.counts.listed {
            return Err(Refusal::OverLimit);
        }
        if self.limits.operands - self.counts.listed < k {
            return Err(Refusal::OverLimit);
        }
        Ok(())
    }

    // An instruction whose n operands stand right behind those in use.
    #[tactic(auto, using(crate::proofs::Committing::commit_is))]
    fn commit(&mut self, b: BlockId, op: Op, n: usize)
        requires { ProgramRoom b.0 op n self.old.counts }
        ensures commits { Commits b.0 op n self.old.words.now self.old.counts self.new.words.now self.new.counts }
        ensures kept { DraftKept self.old self.new }
    {
        let row = Row {
            block: b,
            op,
            first: self.counts.opnds,
            count: n,
        };
        put_insn(self.words, InsnId(self.counts.insns as u32), row);
        end_block(self.words, b, op);
        self.counts.insns += 1;
        self.counts.opnds += n;
        self.counts.listed += listed_in(op, n);
    }

    // An instruction of block b with the operands given, and behind them those that stand in another memory.
    fn push(&mut self, b: BlockId, op: Op, g: Given, args: &[usize]) -> Result<InsnId, Refusal>
        requires b_lt_blocks { b.0 < self.old.counts.blocks }
        requires few { length (given g) + length args.now / 2 ≤ listed_in op (length (given g) + length args.now / 2) + 2 }
        ensures did { ProgramDid (pushing_of (limits_of self.old.limits) b.0 op (given g ++ opnds_in args.now 0 (length args.now / 2))) unchanged self.old.counts.insns
            (more_insns op (length (given g) + length args.now / 2) self.old.counts) self.old.words.now self.old.counts self.new.words.now (insn_of self.new.counts result) }
        ensures kept { DraftKept self.old self.new }
        ensures stays { OnErr result (DraftStays self.old self.new) }
    {
        let first = count_of(g);
        let count = first + args.len() / 2;
        self.may_push(b, listed_in(op, count))?;
        let i = InsnId(self.counts.insns as u32);
        let at = OPNDS + 2 * self.counts.opnds;
        put_given(self.words, at, g);
        copy_opnds(args, self.words, at + 2 * first);
        self.commit(b, op, count);
        Ok(i)
    }

    // An instruction that is no call is added to block b.
    pub fn push_insn(&mut self, b: BlockId, op: Op, g: Given) -> Result<InsnId, Refusal>
        requires { b.0 < self.old.counts.blocks }
        ensures did { ProgramDid (pushing_of (limits_of self.old.limits) b.0 op (given g)) unchanged self.old.counts.insns
            (more_insns op (length (given g)) self.old.counts) self.old.words.now self.old.counts self.new.words.now (insn_of self.new.counts result) }
        ensures kept { DraftKept self.old self.new }
        ensures stays { OnErr result (DraftStays self.old self.new) }
    {
        self.push(b, op, g, &[])
    }

    // A call is added to block b; its arguments stand in another memory.
    pub fn push_call(
        &mut self,
        b: BlockId,
        callee: Callee,
        args: &[usize],
    ) -> Result<InsnId, Refusal>
        requires { b.0 < self.old.counts.blocks }
        ensures did { ProgramDid (call_of (limits_of self.old.limits) b.0 callee (opnds_in args.now 0 (length args.now / 2))) unchanged self.old.counts.insns
            (more_calls callee (length args.now / 2) self.old.counts) self.old.words.now self.old.counts self.new.words.now (insn_of self.new.counts result) }
        ensures kept { DraftKept self.old self.new }
        ensures stays { OnErr result (DraftStays self.old self.new) }
    {
        match callee {
            Callee::Static(f) => self.push(b, Op::SendStatic(f), Given::Zero, args),
            Callee::Dynamic(v, name) => self.push(b, Op::SendDynamic(name), Given::One(v), args),
        }
    }

    // ---- blocks, functions and classes

    // A block of function f is opened.
    fn new_block(&mut self, f: FunId) -> Result<BlockId, Refusal>
        ensures did { ProgramDid (block_for (limits_of self.old.limits) f.0) unchanged self.old.counts.blocks (more_blocks self.old.counts)
            self.old.words.now self.old.counts self.new.words.now (block_of self.new.counts result) }
        ensures kept { DraftKept self.old self.new }
        ensures stays { OnErr result (DraftStays self.old self.new) }
    {
        if self.limits.blocks <= self.counts.blocks {
            return Err(Refusal::OverLimit);
        }
        let b = BlockId(self.counts.blocks as u32);
        put_block(self.words, b, f);
        self.counts.blocks += 1;
        Ok(b)
    }

    // A block of the function being read, which is the last.
    pub fn next_block(&mut self) -> Result<BlockId, Refusal>
        ensures did { ProgramDid (next_block (limits_of self.old.limits)) unchanged self.old.counts.blocks (more_blocks self.old.counts)
            self.old.words.now self.old.counts self.new.words.now (block_of self.new.counts result) }
        ensures kept { DraftKept self.old self.new }
        ensures stays { OnErr result (DraftStays self.old self.new) }
    {
        self.new_block(FunId(self.counts.functions.saturating_sub(1) as u32))
    }

    // A function with its entry block.
    pub fn new_fun(
        &mut self,
        name: Name,
        class: Option<ClassId>,
    ) -> Result<(FunId, BlockId), Refusal>
        ensures did { DidFun self.old.limits name class self.old.words.now self.old.counts self.new.words.now self.new.counts result }
        ensures kept { DraftKept self.old self.new }
        ensures stays { OnErr result (DraftStays self.old self.new) }
    {
        let n = self.counts.functions;
        if self.limits.functions <= n {
            return Err(Refusal::OverLimit);
        }
        let f = FunId(n as u32);
        let entry = self.new_block(f)?;
        put_fun(self.words, f, Function { name, class, entry });
        self.counts.functions += 1;
        Ok((f, entry))
    }

    // The first function of class k, else the number of functions. The reader adds a class before its methods.
    // Stays: a number and no option, since the class's row holds it: where its methods will begin.
    #[tactic(auto, unfolding(crate::specs::Rows::fun_at))]
    fn first_owned(&self, k: ClassId) -> usize
        ensures { OwnsFrom self.now.words.now self.now.counts.functions k.0 result }
    {
        for f in 0..self.counts.functions {
            if is_owned(self.words[FUNCTIONS + FUNCTION_WORDS * f + 2], k) {
                return f;
            }
        }
        self.counts.functions
    }

    pub fn new_class(&mut self, name: Name) -> Result<ClassId, Refusal>
        ensures did { ProgramDid (class_for (limits_of self.old.limits) name) unchanged self.old.counts.classes (more_classes self.old.counts)
            self.old.words.now self.old.counts self.new.words.now (class_of self.new.counts result) }
        ensures kept { DraftKept self.old self.new }
        ensures stays { OnErr result (DraftStays self.old self.new) }
    {
        let n = self.counts.classes;
        if self.limits.classes <= n {
            return Err(Refusal::OverLimit);
        }
        let k = ClassId(n as u32);
        let first = self.first_owned(k);
        put_class(self.words, k, name, first);
        self.counts.classes += 1;
        Ok(k)
    }
}

// ---- rows
// Stays: these write into a lent slice, and each asks that the tables fit in it. As methods of Draft they would have to leave the tables
// ready, which they aren't between two rows of one addition (a block's flag is set before its terminator counts); and `no_program` has no
// draft yet.

fn count_of(g: Given) -> usize
    ensures { result ≡ length (given g) }
{
    match g {
        Given::Zero => 0,
        Given::One(_) => 1,
        Given::Two(_, _) => 2,
    }
}

#[tactic(auto, using(crate::proofs::Areas::puts_none))]
fn put_given(words: &mut [usize], at: usize, g: Given)
    requires { at + 4 ≤ length words.old }
    ensures { Puts at (given g) words.old words.new }
{
    match g {
        Given::Zero => {}
        Given::One(v) => {
            put_opnd(words, at, v);
        }
        Given::Two(v, w) => {
            put_opnd(words, at, v);
            put_opnd(words, at + 2, w);
        }
    }
}

// Operands that stand in another memory.
// Stays: a loop and no `copy_from_slice`, which calls `memmove`: a program in C would have to bring it.
fn copy_opnds(args: &[usize], words: &mut [usize], at: usize)
    requires { at + 2 * (length args.now / 2) ≤ length words.old }
    ensures { Puts at (opnds_in args.now 0 (length args.now / 2)) words.old words.new }
{
    for i in 0..args.len() / 2 {
        words[at + 2 * i] = args[2 * i];
        words[at + 2 * i + 1] = args[2 * i + 1];
    }
}

#[tactic(auto, unfolding(crate::specs::Rows::insn_at))]
fn put_insn(words: &mut [usize], i: InsnId, x: Row)
    requires program_size_in_bounds { program_size ≤ length words.old }
    requires i_lt_instructions_most { i.0 < instructions_most }
    ensures { PutsRow i.0 x words.old words.new }
{
    let at = INSNS + INSN_WORDS * i.index();
    let (tag, a, b) = op_words(x.op);
    words[at] = tag;
    words[at + 1] = x.block.index();
    words[at + 2] = a;
    words[at + 3] = b;
    words[at + 4] = x.first;
    words[at + 5] = x.count;
}

// Block b has a terminator from now on, if the instruction is one.
fn end_block(words: &mut [usize], b: BlockId, op: Op)
    requires { blocks_at + 2 * b.0 + 1 < length words.old }
    ensures { words.new ≡ cond (ends_block op) (set words.old (blocks_at + 2 * b.0 + 1) 1) words.old }
{
    if ends_block(op) {
        words[BLOCKS + 2 * b.index() + 1] = 1;
    }
}

#[tactic(auto, unfolding(crate::specs::Rows::block_at))]
fn put_block(words: &mut [usize], b: BlockId, f: FunId)
    requires program_size_in_bounds { program_size ≤ length words.old }
    requires b_lt_blocks_room { b.0 < blocks_room }
    ensures { PutsBlock b.0 f.0 words.old words.new }
{
    let at = BLOCKS + 2 * b.index();
    words[at] = f.index();
    words[at + 1] = 0;
}

#[tactic(auto, unfolding(crate::specs::Rows::fun_at))]
fn put_fun(words: &mut [usize], f: FunId, x: Function)
    requires program_size_in_bounds { program_size ≤ length words.old }
    requires f_lt_functions_most { f.0 < functions_most }
    ensures { PutsFun f.0 x words.old words.new }
{
    let at = FUNCTIONS + FUNCTION_WORDS * f.index();
    words[at] = x.name.start;
    words[at + 1] = x.name.len;
    words[at + 2] = owner_word(x.class);
    words[at + 3] = x.entry.index();
}

fn put_class(words: &mut [usize], k: ClassId, x: Name, first: usize)
    requires program_size_in_bounds { program_size ≤ length words.old }
    requires k_bound { k.0 < 64 }
    ensures { PutsClass k.0 x first words.old words.new }
{
    let at = CLASSES + CLASS_WORDS * k.index();
    words[at] = x.start;
    words[at + 1] = x.len;
    words[at + 2] = 0;
    words[at + 3] = first;
}
