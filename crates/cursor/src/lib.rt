// The parser, and its steps that read no expression.
#![tactic(auto)]

pub mod terms;
pub mod words;

ghost use Rattle.std.specs.Prelude.{◌≡◌, List, map, ℕ, ◌+◌, ◌≤◌, ◌<◌, length, Ok};
ghost use Rattle.kinds.specs.declared.Kind.TheVariants.{Num};
ghost use Rattle.lexer.specs.declared.Token.TheVariants.{EndOfText};
ghost use Rattle.rules.specs.Program as P;
ghost use Rattle.rules.specs.Reading.{push as push_of};
ghost use Rattle.program.specs.Rows.{opnd_of, op_in, given, name_in};
ghost use Rattle.program.specs.View.{limits_of, callee_in};
ghost use Rattle.program.specs.Drafts.{DraftKept};
ghost use Rattle.memory.specs.Layout.{operands_most};
ghost use Rattle.cursor.specs.Layout.{scratch_size};
ghost use Rattle.cursor.specs.Cursor.{opnds_of, waiting};
ghost use Rattle.cursor.specs.Steps.{sets_ivar, gets_ivar, calls, reads_attr, operator_of, weigh as weigh_of};
ghost use Rattle.cursor.specs.Promises.{Sees, CursorAdds, AddsAt, Stacks, StacksAt};

use ids::{BlockId, ClassId, InsnId};
use kinds::{Arith, Kind};
use lexer::{Token, Word};
use program::{Callee, Draft, Given, Name, Op, Opnd, Program};
use refusals::Refusal;

// Where the stack of call arguments starts in scratch memory.
pub const STACK: usize = variables::SIZE;

// A script, the program that is read from it, the scratch memory of the reading, and the place in the script; the class and the
// receiver of the method being read; the block that takes instructions; how many variables are bound, where the rows set aside
// end, how many call arguments wait.
#[derive(Drop)]
pub struct Parser<'a> {
    pub script: &'a [u8],
    pub program: Draft<'a>,
    pub scratch: &'a mut [usize],
    pub at: usize,
    pub class: Option<ClassId>,
    pub receiver: Option<InsnId>,
    pub block: BlockId,
    pub vars: usize,
    pub aside: usize,
    pub args: usize,
}

impl<'a> Parser<'a> {
    // The program as far as it is read.
    pub fn program_so_far(&self) -> Program<'_>
        ensures script { result.script.now ≡ self.now.script.now }
        ensures words { result.words.now ≡ self.now.program.words.now }
        ensures counts { result.counts ≡ self.now.program.counts }
    {
        self.program.program(self.script)
    }
}

// ---- words: read only when they are looked at

impl<'a> Parser<'a> {
    ghost use Rattle.cursor.specs.Parsers.{cursor_of, ParserIdents, ParserExpects, ParserMatches};

    pub fn peek(&self) -> Result<Word, Refusal>
        ensures { Sees self.now.script.now (cursor_of self.now) result }
    {
        lexer::read_word(self.script, self.at)
    }

    // The name that the next word x is.
    pub fn take_name(&mut self, x: Word) -> Result<Name, Refusal>
        ensures { Sees self.old.script.now (cursor_of self.old) (Ok x) → ParserIdents self.old self.new result }
    {
        let n = words::name_of(x)?;
        self.at = x.next;
        Ok(n)
    }

    pub fn expect_ident(&mut self) -> Result<Name, Refusal>
        ensures { ParserIdents self.old self.new result }
    {
        let (n, next) = words::expect_ident(self.script, self.at)?;
        self.at = next;
        Ok(n)
    }

    // Whether the next word is the one asked for; if so it is taken.
    // Stays: the end of text is excluded, here and below, as in `words`.
    pub fn match_token(&mut self, k: Token) -> Result<bool, Refusal>
        requires { k ≡ EndOfText → ⊥ }
        ensures { ParserMatches k self.old self.new result }
    {
        let Some(next) = words::match_token(self.script, self.at, k)? else {
            return Ok(false);
        };
        self.at = next;
        Ok(true)
    }

    // The word k is taken.
    pub fn expect(&mut self, k: Token) -> Result<(), Refusal>
        requires { k ≡ EndOfText → ⊥ }
        ensures { ParserExpects k self.old self.new result }
    {
        self.at = words::expect(self.script, self.at, k)?;
        Ok(())
    }
}

// ---- names and operands

// A number as an operand.
pub fn number(n: i64) -> Opnd
    ensures { opnd_of result ≡ P.Const (Num n) }
{
    Opnd::Const(Kind::Num(n))
}

// The operator that a sign is, and how tightly one on its right side has to bind; none where it binds less tightly than prec itself.
#[tactic(auto, unfolding(crate::specs::Steps::operator_of))]
pub fn operator_of(k: u8, prec: usize) -> Option<(Arith, usize)>
    ensures { result ≡ operator_of k prec }
{
    match k {
        b'<' => weigh(Arith::Less, 0, 1, prec),
        b'+' => weigh(Arith::Add, 1, 1, prec),
        b'-' => weigh(Arith::Sub, 1, 2, prec),
        b'*' => weigh(Arith::Mul, 3, 3, prec),
        _ => None,
    }
}

fn weigh(o: Arith, n: usize, right: usize, prec: usize) -> Option<(Arith, usize)>
    ensures { result ≡ weigh_of o n right prec }
{
    if n < prec { None } else { Some((o, right)) }
}

// ---- additions

impl<'a> Parser<'a> {
    ghost use Rattle.cursor.specs.Parsers.{cursor_of, CanAdd, ParserKept, AddsKept, operand};

    // Stays: whether an instruction may be added is a fact of a moment; before the first function there is no block.

    // An instruction that is no call, in the block that takes instructions; its result as an operand.
    pub fn push(&mut self, op: Op, g: Given) -> Result<Opnd, Refusal>
        requires { CanAdd self.old }
        ensures kept { AddsKept self.old self.new }
        ensures adds { (s w : List ℕ) → CursorAdds s w (push_of (limits_of self.old.program.limits) (op_in s op (map opnd_of (given g))))
            self.old.program.words.now (cursor_of self.old) self.new.program.words.now (operand self.new result) }
    {
        let i = self.program.push_insn(self.block, op, g)?;
        Ok(Opnd::Insn(i))
    }

    // The attribute n of the receiver is set.
    pub fn set_ivar(&mut self, n: Name, v: Opnd) -> Result<Opnd, Refusal>
        requires { CanAdd self.old }
        ensures kept { AddsKept self.old self.new }
        ensures adds { (s w : List ℕ) → CursorAdds s w (sets_ivar (limits_of self.old.program.limits) (name_in s n) (opnd_of v))
            self.old.program.words.now (cursor_of self.old) self.new.program.words.now (operand self.new result) }
    {
        let me = self.receiver.ok_or(Refusal::OutsideMethod)?;
        self.push(Op::SetIvar(n), Given::Two(Opnd::Insn(me), v))
    }

    // The attribute n of the receiver is read.
    pub fn get_ivar(&mut self, n: Name) -> Result<Opnd, Refusal>
        requires { CanAdd self.old }
        ensures kept { AddsKept self.old self.new }
        ensures adds { (s w : List ℕ) → CursorAdds s w (gets_ivar (limits_of self.old.program.limits) (name_in s n))
            self.old.program.words.now (cursor_of self.old) self.new.program.words.now (operand self.new result) }
    {
        let me = self.receiver.ok_or(Refusal::OutsideMethod)?;
        self.push(Op::GetIvar(n), Given::One(Opnd::Insn(me)))
    }

    // The attribute n of v is read, which `new` can't be.
    pub fn read_attr(&mut self, v: Opnd, n: Name) -> Result<Opnd, Refusal>
        requires { CanAdd self.old }
        ensures kept { AddsKept self.old self.new }
        ensures adds { (w : List ℕ) → CursorAdds self.old.script.now w
            (reads_attr (limits_of self.old.program.limits) (opnd_of v) (name_in self.old.script.now n))
            self.old.program.words.now (cursor_of self.old) self.new.program.words.now (operand self.new result) }
    {
        if lexer::same_bytes(n.of(self.script), b"new") {
            return Err(Refusal::NotCallable);
        }
        self.push(Op::GetIvar(n), Given::One(v))
    }

    // Stays: that n more arguments find room ties n to those that wait.

    // A call of the function that v names, with the n arguments that stand behind those that wait.
    pub fn bare_call(&mut self, v: Opnd, n: usize) -> Result<Opnd, Refusal>
        requires can { CanAdd self.old }
        requires scratch_size_in_bounds { scratch_size ≤ length self.old.scratch.now }
        requires n_bound { self.old.args + n ≤ operands_most }
        ensures kept { AddsKept self.old self.new }
        ensures adds { (s : List ℕ) → CursorAdds s self.old.scratch.now
            (calls (limits_of self.old.program.limits) (opnd_of v) (waiting self.old.scratch.now self.old.args n))
            self.old.program.words.now (cursor_of self.old) self.new.program.words.now (operand self.new result) }
    {
        let k = self.args;
        // `&mut`, though it is only read: the check takes no shared loan of a field beside a loan that changes another.
        let args = waiting(&mut *self.scratch, k, n);
        bare_call(&mut self.program, self.block, v, args)
    }

    // An argument waits behind those that do.
    pub fn push_arg(&mut self, v: Opnd)
        requires scratch_size_in_bounds { scratch_size ≤ length self.old.scratch.now }
        requires args_bound { self.old.args < operands_most }
        ensures kept { ParserKept self.old self.new }
        ensures program { self.new.program ≡ self.old.program }
        ensures stacks { Stacks v (cursor_of self.old) self.old.scratch.now self.new.scratch.now (cursor_of self.new) }
    {
        self.args = push_arg(self.scratch, self.args, v);
    }
}

// Stays: that scratch memory is large enough is a clause of each function that works in it, here, in `terms` and above: a struct over the `&mut` would promise in each
// contract that it keeps its loan, a clause for a clause.

// An argument waits behind n others; so many wait then.
pub fn push_arg(scratch: &mut [usize], n: usize, v: Opnd) -> usize
    requires scratch_size_in_bounds { scratch_size ≤ length scratch.old }
    requires n_bound { n < operands_most }
    ensures { StacksAt n v scratch.old scratch.new result }
{
    program::put_opnd(scratch, STACK + 2 * n, v);
    n + 1
}

// The n arguments that stand behind k others.
#[tactic(auto, using(crate::proofs::Leaves::cut))]
pub fn waiting(scratch: &[usize], k: usize, n: usize) -> &[usize]
    requires scratch_size_in_bounds { scratch_size ≤ length scratch.now }
    requires n_bound { k + n ≤ operands_most }
    ensures { opnds_of result.now ≡ waiting scratch.now k n }
{
    let at = STACK + 2 * k;
    &scratch[at..at + 2 * n]
}

// ---- calls in a block of a draft; the arguments stand in words that are lent to be read

// Stays: a block's number doesn't hold the draft that it belongs to: so that it is one of the draft's is said here and in `terms`.

// A call, its result as an operand.
pub fn push_call(
    draft: &mut Draft,
    b: BlockId,
    callee: Callee,
    args: &[usize],
) -> Result<Opnd, Refusal>
    requires { b.0 < draft.old.counts.blocks }
    ensures kept { DraftKept draft.old draft.new }
    ensures adds { AddsAt b (λ s. push_of (limits_of draft.old.limits) (P.Send (callee_in s callee) (opnds_of args.now))) draft.old draft.new result }
{
    let i = draft.push_call(b, callee, args)?;
    Ok(Opnd::Insn(i))
}

// A call of the function that v names.
#[tactic(auto, unfolding(crate::specs::Steps::calls))]
pub fn bare_call(draft: &mut Draft, b: BlockId, v: Opnd, args: &[usize]) -> Result<Opnd, Refusal>
    requires { b.0 < draft.old.counts.blocks }
    ensures kept { DraftKept draft.old draft.new }
    ensures adds { AddsAt b (λ s. calls (limits_of draft.old.limits) (opnd_of v) (opnds_of args.now)) draft.old draft.new result }
{
    match v {
        Opnd::Const(Kind::Fun(f)) => push_call(draft, b, Callee::Static(f), args),
        _ => Err(Refusal::NotCallable),
    }
}
