// The program that a reading leaves: its tables in one lent memory of words.
#![tactic(auto)]

pub mod bounds;
pub mod reader;
pub mod writer;

ghost use Rattle.std.specs.Prelude.{◌≡◌, [], ◌∷◌, map, ◌+◌, ◌*◌, ◌≤◌, ◌<◌, length};
ghost use Rattle.rules.specs.Lists.{is_just};
ghost use Rattle.program.specs.Layout.{opnds_at};
ghost use Rattle.program.specs.Rows.{opnd_from, opnd_at, opnds_in, opnd_of, nth, name_in, op_from, listed_in, ends_block, owner_from, owner_in};
ghost use Rattle.program.specs.View.{OwnsFrom, ProgramReady, ReadsInsn, ReadsFun, ReadsBlock, Puts};

pub use bounds::Limits;
use ids::{BlockId, ClassId, FunId, InsnId};
use kinds::{Arith, Kind};
pub use reader::Program;
pub use writer::Draft;

// The words of a row of each table; a class has as many rows of names as it can have attributes.
pub const INSN_WORDS: usize = 6;

pub const OPND_WORDS: usize = 2;

pub const BLOCK_WORDS: usize = 2;

pub const FUNCTION_WORDS: usize = 4;

pub const CLASS_WORDS: usize = 4;

pub const NAME_WORDS: usize = 2;

pub const IVAR_ROW_WORDS: usize = NAME_WORDS * memory::IVARS_MOST;

// Where the tables start, in words, and how many words they take together.
pub const INSNS: usize = 0;

pub const OPNDS: usize = INSNS + INSN_WORDS * memory::INSTRUCTIONS_MOST;

pub const BLOCKS: usize = OPNDS + OPND_WORDS * memory::USES_MOST;

pub const FUNCTIONS: usize = BLOCKS + BLOCK_WORDS * memory::BLOCKS_ROOM;

pub const CLASSES: usize = FUNCTIONS + FUNCTION_WORDS * memory::FUNCTIONS_MOST;

pub const IVARS: usize = CLASSES + CLASS_WORDS * memory::CLASSES_MOST;

pub const SIZE: usize = IVARS + IVAR_ROW_WORDS * memory::CLASSES_MOST;

// A place in the script.
// Stays: tables, scratch memory and records hold a name as these two numbers. A function that reads two words as a name, and one that writes them, would be called
// with the memory and the place and have a clause that both words lie there, at seven places of two words; a record has two fields. `Name::of` gives the bytes.
#[derive(Clone, Copy)]
pub struct Name {
    pub start: usize,
    pub len: usize,
}

impl Name {
    // The bytes of a name.
    pub fn of<'a>(self, script: &'a [u8]) -> &'a [u8]
        ensures { result.now ≡ name_in script.now self }
    {
        lexer::bytes_at(script, self.start, self.len)
    }
}

// A constant, or the result of an instruction.
#[derive(Clone, Copy, PartialEq, Eq)]
pub enum Opnd {
    Const(Kind),
    Insn(InsnId),
}

// The sorts of instructions, without their operands.
#[derive(Clone, Copy)]
pub enum Op {
    Jump(BlockId),
    IfTrue(BlockId, BlockId),
    Return,
    SendStatic(FunId),
    SendDynamic(Name),
    Compute(Arith),
    Phi(BlockId, BlockId),
    Param(usize),
    SelfParam(ClassId),
    New(ClassId),
    GetIvar(Name),
    SetIvar(Name),
}

// An instruction: its operands are a part of the operand table.
// Stays: the place and the number of its operands, and no slice of their table: a `Record` is made into a Row too, with no program at hand to lend them from.
#[derive(Clone, Copy)]
pub struct Row {
    pub block: BlockId,
    pub op: Op,
    pub first: usize,
    pub count: usize,
}

// A function, with its class if it is a method.
#[derive(Clone, Copy)]
pub struct Function {
    pub name: Name,
    pub class: Option<ClassId>,
    pub entry: BlockId,
}

// The operands of an instruction that is no call.
// Stays: the type says that there are two at most, which a slice would ask for in a clause.
#[derive(Clone, Copy)]
pub enum Given {
    Zero,
    One(Opnd),
    Two(Opnd, Opnd),
}

// Whom a call calls: a function, or the method of a name on a receiver.
#[derive(Clone, Copy)]
pub enum Callee {
    Static(FunId),
    Dynamic(Opnd, Name),
}

// How many rows of each table are in use, and how many operands are call arguments or join operands.
#[derive(Clone, Copy)]
pub struct Counts {
    pub functions: usize,
    pub classes: usize,
    pub blocks: usize,
    pub insns: usize,
    pub opnds: usize,
    pub listed: usize,
}

// ---- stored forms
// Stays: the layout of the words is published; tuples and no structs (for an operand `kinds::Words`), since who asks for the words takes them apart at once, in a `let`.

// The sorts of instructions, as a row's first word has them.
const JUMP: usize = 0;

const IF_TRUE: usize = 1;

const RETURN: usize = 2;

const SEND_STATIC: usize = 3;

const SEND_DYNAMIC: usize = 4;

const ADD: usize = 5;

const SUB: usize = 6;

const MUL: usize = 7;

const LESS: usize = 8;

const PHI: usize = 9;

const PARAM: usize = 10;

const SELF_PARAM: usize = 11;

const NEW: usize = 12;

pub const GET_IVAR: usize = 13;

const SET_IVAR: usize = 14;

// The tag of an operand that is an instruction's result; that of a constant is its kind's.
pub const INSN_TAG: usize = 10;

#[tactic(auto, unfolding(crate::specs::Rows::opnd_from))]
pub fn opnd_from(tag: usize, bits: usize) -> Opnd
    ensures { result ≡ opnd_from tag bits }
{
    if tag == INSN_TAG {
        Opnd::Insn(InsnId(ids::number_in(bits)))
    } else {
        Opnd::Const(kinds::kind_from(tag, bits))
    }
}

#[tactic(auto, unfolding(crate::specs::Rows::opnd_from))]
pub fn opnd_words(o: Opnd) -> (usize, usize)
    ensures { (opnd_from result.0 result.1 ≡ o) × (result.0 < 16) }
{
    match o {
        Opnd::Const(k) => (k.tag(), k.payload()),
        Opnd::Insn(i) => (INSN_TAG, i.index()),
    }
}

#[tactic(auto, unfolding(crate::specs::Rows::op_from))]
pub fn op_from(tag: usize, x: usize, y: usize) -> Op
    ensures { result ≡ op_from tag x y }
{
    match tag {
        JUMP => Op::Jump(BlockId(ids::number_in(x))),
        IF_TRUE => Op::IfTrue(BlockId(ids::number_in(x)), BlockId(ids::number_in(y))),
        RETURN => Op::Return,
        SEND_STATIC => Op::SendStatic(FunId(ids::number_in(x))),
        SEND_DYNAMIC => Op::SendDynamic(Name { start: x, len: y }),
        ADD => Op::Compute(Arith::Add),
        SUB => Op::Compute(Arith::Sub),
        MUL => Op::Compute(Arith::Mul),
        LESS => Op::Compute(Arith::Less),
        PHI => Op::Phi(BlockId(ids::number_in(x)), BlockId(ids::number_in(y))),
        PARAM => Op::Param(x),
        SELF_PARAM => Op::SelfParam(ClassId(ids::number_in(x))),
        NEW => Op::New(ClassId(ids::number_in(x))),
        GET_IVAR => Op::GetIvar(Name { start: x, len: y }),
        _ => Op::SetIvar(Name { start: x, len: y }),
    }
}

#[tactic(auto, unfolding(crate::specs::Rows::op_from))]
fn op_words(op: Op) -> (usize, usize, usize)
    ensures { op_from result.0 result.1 result.2 ≡ op }
{
    match op {
        Op::Jump(b) => (JUMP, b.index(), 0),
        Op::IfTrue(b, e) => (IF_TRUE, b.index(), e.index()),
        Op::Return => (RETURN, 0, 0),
        Op::SendStatic(f) => (SEND_STATIC, f.index(), 0),
        Op::SendDynamic(n) => (SEND_DYNAMIC, n.start, n.len),
        Op::Compute(Arith::Add) => (ADD, 0, 0),
        Op::Compute(Arith::Sub) => (SUB, 0, 0),
        Op::Compute(Arith::Mul) => (MUL, 0, 0),
        Op::Compute(Arith::Less) => (LESS, 0, 0),
        Op::Phi(b, e) => (PHI, b.index(), e.index()),
        Op::Param(n) => (PARAM, n, 0),
        Op::SelfParam(c) => (SELF_PARAM, c.index(), 0),
        Op::New(c) => (NEW, c.index(), 0),
        Op::GetIvar(n) => (GET_IVAR, n.start, n.len),
        Op::SetIvar(n) => (SET_IVAR, n.start, n.len),
    }
}

// How many of n operands are call arguments or join operands.
pub fn listed_in(op: Op, n: usize) -> usize
    ensures { result ≡ listed_in op n }
{
    match op {
        Op::SendStatic(_) => n,
        Op::SendDynamic(_) => n.saturating_sub(1),
        Op::Phi(_, _) => 2,
        _ => 0,
    }
}

fn ends_block(op: Op) -> bool
    ensures { result ≡ ends_block op }
{
    matches!(op, Op::Jump(_) | Op::IfTrue(_, _) | Op::Return)
}

#[tactic(auto, unfolding(crate::specs::Rows::owner_from))]
fn owner_from(x: usize) -> Option<ClassId>
    ensures { result ≡ owner_from x }
{
    if x == 0 {
        None
    } else {
        Some(ClassId(ids::number_in(x - 1)))
    }
}

#[tactic(auto, unfolding(crate::specs::Rows::owner_from))]
fn owner_word(o: Option<ClassId>) -> usize
    ensures { owner_from result ≡ o }
{
    match o {
        Some(c) => c.index() + 1,
        None => 0,
    }
}

// The word of an owner stands for class k.
pub fn is_owned(x: usize, k: ClassId) -> bool
    ensures { result ≡ is_just (owner_in (owner_from x)) k.0 }
{
    owner_from(x) == Some(k)
}

// ---- operands in words

// The operand that stands at a word of a memory.
pub fn read_opnd(words: &[usize], at: usize) -> Opnd
    requires { at + 1 < length words.now }
    ensures { result ≡ opnd_at words.now at }
{
    opnd_from(words[at], words[at + 1])
}

// The operand stands at a word of a memory.
pub fn put_opnd(words: &mut [usize], at: usize, o: Opnd)
    requires { at + 1 < length words.old }
    ensures { Puts at (o ∷ []) words.old words.new }
{
    let (tag, bits) = opnd_words(o);
    words[at] = tag;
    words[at + 1] = bits;
}
