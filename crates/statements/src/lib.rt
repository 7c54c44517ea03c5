// Statements: the readers' second cycle.
#![tactic(auto)]

ghost use Rattle.std.specs.Prelude.{◌≡◌, ◌-◌, ◌<◌, Ok};
ghost use Rattle.rules.specs.Reading.{parse_expr, parse_return, parse_if, parse_statements, parse_statement};
ghost use Rattle.variables.specs.Scopes.{Sorted};
ghost use Rattle.variables.specs.Memory.{row, vars};
ghost use Rattle.program.specs.Rows.{opnd_of};
ghost use Rattle.cursor.specs.Cursor.{Cursor};
ghost use Rattle.cursor.specs.Promises.{Sees};
ghost use Rattle.cursor.specs.Parsers.{cursor_of, Reading, ParserKept, ParserDid, operand};
ghost use Rattle.statements.specs.Acts.{stops_at, parse_arm, join_value, finish_if, parse_else};
ghost use Rattle.statements.specs.Shape.{StatementInside, Halts, stops_in, before_of, Within, Arm, InArm};
ghost use Rattle.statements.specs.Shape.{ParserOpens, ParserAddsEnd, ParserEndsBlock, ParserDidFrom, ParserOpensElse, ParserJoinsArms, ParserFinishesElse};

use cursor::Parser;
use ids::BlockId;
use kinds::Kind;
use lexer::{Token, Word};
use phis::{Blocks, Sides};
use program::{Given, Op, Opnd};
use refusals::Refusal;
use variables::Row;

// Where an `if` begins: the block that takes instructions, how many variables are bound, where the rows set aside end.
#[derive(Clone, Copy)]
pub struct Before {
    pub block: BlockId,
    pub vars: usize,
    pub aside: usize,
}

// What an `if` keeps while its arms are read: where it began, the condition, the blocks of the then arm and of the join, and of
// the then arm its last block and its value.
#[derive(Clone, Copy)]
pub struct Branch {
    pub before: Before,
    pub cond: Opnd,
    pub first: BlockId,
    pub join: BlockId,
    pub last: BlockId,
    pub value: Opnd,
}

// ---- additions to the tables

// A block of the function being read, which is the last.
fn new_block(p: &mut Parser) -> Result<BlockId, Refusal>
    ensures { ParserOpens p.old p.new result }
{
    p.program.next_block()
}

// A terminator is added to block b.
fn add_end(p: &mut Parser, b: BlockId, op: Op, g: Given) -> Result<(), Refusal>
    requires { b.0 < p.old.program.counts.blocks }
    ensures { ParserAddsEnd b op g p.old p.new result }
{
    p.program.push_insn(b, op, g)?;
    Ok(())
}

// The block that takes instructions gets a terminator, unless it has one.
pub fn end_block(p: &mut Parser, op: Op, g: Given) -> Result<(), Refusal>
    requires { p.old.block.0 < p.old.program.counts.blocks }
    ensures { ParserEndsBlock op g p.old p.new result }
{
    let b = p.block;
    let program = p.program_so_far();
    if lookups::is_terminated(&program, b) {
        return Ok(());
    }
    add_end(p, b, op, g)
}

// Stays: `Reading` holds inside of a function, up to a refusal; what a field says would have to hold before, between and behind them too.

// Behind `return`.
fn parse_return(p: &mut Parser, depth: usize) -> Result<Opnd, Refusal>
    requires { Reading p.old }
    ensures { ParserDid (λ L s. parse_return L s (parse_expr L s depth)) 1 p.old p.new (operand p.new result) }
{
    let v = expressions::parse_expr(p, 0, depth)?;
    let b = p.block;
    add_end(p, b, Op::Return, Given::One(v))?;
    Ok(Opnd::Const(Kind::Nil))
}

// ---- the end of an `if`, whose condition was read up to c₀

// Stays: `InArm` is about two values, the parser and what the `if` keeps, and holds only behind the then arm; a field of either would have to hold always.

// What the then arm bound is set aside; the else arm's first block is opened, and the choice is added.
fn open_else(p: &mut Parser, q: Branch) -> Result<BlockId, Refusal>
    requires reading { Reading p.old }
    requires arm { InArm (cursor_of p.old) q }
    ensures kept { ParserKept p.old p.new }
    ensures opens { (c₀ : Cursor) → Arm c₀ (cursor_of p.old) q → ParserOpensElse c₀ q p.old p.new result }
{
    let Before { block, vars, aside } = q.before;
    let b = new_block(p)?;
    add_end(p, block, Op::IfTrue(q.first, b), Given::One(q.cond))?;
    let n = variables::set_aside(p.script, p.scratch, vars, p.vars - vars, aside);
    p.vars = vars;
    p.aside = aside + n;
    p.block = b;
    Ok(b)
}

// The join of the arms takes instructions, first a join for each variable that an arm bound.
fn join_vars(p: &mut Parser, before: Before, q: Blocks) -> Result<(), Refusal>
    requires reading { Reading p.old }
    requires within { Within (cursor_of p.old) before }
    requires at_lt_blocks { q.at.0 < p.old.program.counts.blocks }
    requires sorted { Sorted (row p.old.script.now p.old.scratch.now before.aside (p.old.aside - before.aside)) }
    ensures kept { ParserKept p.old p.new }
    ensures joins { (c₀ : Cursor) → before ≡ before_of c₀ → StatementInside c₀ (cursor_of p.old) → ParserJoinsArms c₀ q p.old p.new result }
{
    let sides = Sides {
        mark: before.vars,
        n: p.vars,
        left: Row {
            lo: before.aside,
            len: p.aside - before.aside,
        },
    };
    p.vars = phis::join_arms(p.script, p.scratch, &mut p.program, q, sides)?;
    p.aside = before.aside;
    p.block = q.at;
    Ok(())
}

// `end`, and the join of the arms' values.
fn join_value(
    p: &mut Parser,
    left: BlockId,
    v: Opnd,
    right: BlockId,
    x: Opnd,
) -> Result<Opnd, Refusal>
    requires { Reading p.old }
    ensures { ParserDid (λ L s. join_value L s left.0 (opnd_of v) right.0 (opnd_of x)) 1 p.old p.new (operand p.new result) }
{
    p.expect(Token::End)?;
    let at = p.block;
    phis::phi(&mut p.program, Blocks { at, left, right }, v, x)
}

// An `if` without an else arm: the choice, and the joins.
fn finish_if(p: &mut Parser, q: Branch) -> Result<Opnd, Refusal>
    requires reading { Reading p.old }
    requires arm { InArm (cursor_of p.old) q }
    ensures kept { ParserKept p.old p.new }
    ensures did { (c₀ : Cursor) → Arm c₀ (cursor_of p.old) q → ParserDidFrom
        (λ L s. finish_if L s c₀.block.0 (vars s p.old.scratch.now c₀.vars)
        (opnd_of q.cond) q.first.0 q.join.0 q.last.0 (opnd_of q.value)
        (vars s p.old.scratch.now p.old.vars))
        1 c₀ p.old p.new (operand p.new result) }
{
    let before = q.before.block;
    add_end(p, before, Op::IfTrue(q.first, q.join), Given::One(q.cond))?;
    let arms = Blocks {
        at: q.join,
        left: before,
        right: q.first,
    };
    join_vars(p, q.before, arms)?;
    join_value(p, before, Opnd::Const(Kind::Nil), q.last, q.value)
}

// An `if` with an else arm, whose first block and value are b and y.
fn finish_else(p: &mut Parser, q: Branch, b: BlockId, y: Opnd) -> Result<Opnd, Refusal>
    requires reading { Reading p.old }
    requires within { Within (cursor_of p.old) q.before }
    requires join_lt_blocks { q.join.0 < p.old.program.counts.blocks }
    requires sorted { Sorted (row p.old.script.now p.old.scratch.now q.before.aside (p.old.aside - q.before.aside)) }
    ensures kept { ParserKept p.old p.new }
    ensures finishes { (c₀ : Cursor) → q.before ≡ before_of c₀ → StatementInside c₀ (cursor_of p.old)
        → ParserFinishesElse c₀ q b y p.old p.new result }
{
    let right = p.block;
    let arms = Blocks {
        at: q.join,
        left: q.first,
        right: b,
    };
    join_vars(p, q.before, arms)?;
    join_value(p, q.last, q.value, right, y)
}

// ---- the cycle

// The next word, unless it ends an arm, or a function's statements.
fn word_ahead(p: &Parser, arm: bool) -> Result<Option<Word>, Refusal>
    ensures { Halts p.now.script.now arm (cursor_of p.now) (stops_in result) }
{
    let x = p.peek()?;
    if x.token == Token::End {
        return Ok(None);
    }
    if arm && x.token == Token::Else {
        return Ok(None);
    }
    Ok(Some(x))
}

// The value is that of the last statement, nil if there is none.
#[cycle(statement)]
pub fn parse_statements(p: &mut Parser, arm: bool, depth: usize) -> Result<Opnd, Refusal>
    requires { Reading p.old }
    ensures { ParserDid (λ L s. parse_statements L s (stops_at arm) (parse_statement L s depth)) 0 p.old p.new (operand p.new result) }
{
    let mut v = Opnd::Const(Kind::Nil);
    while let Some(x) = word_ahead(p, arm)? {
        v = parse_statement(p, x, depth)?;
    }
    Ok(v)
}

// An arm, whose first block takes instructions; its last jumps to the join, unless it has a terminator.
#[cycle(statement)]
fn parse_block(p: &mut Parser, join: BlockId, depth: usize) -> Result<Opnd, Refusal>
    requires { Reading p.old }
    ensures { ParserDid (λ L s. parse_arm L s (parse_statement L s depth) join.0) 0 p.old p.new (operand p.new result) }
{
    let v = parse_statements(p, true, depth)?;
    end_block(p, Op::Jump(join), Given::Zero)?;
    Ok(v)
}

// Behind the then arm.
#[cycle(statement)]
fn parse_else(p: &mut Parser, q: Branch, depth: usize) -> Result<Opnd, Refusal>
    requires reading { Reading p.old }
    requires arm { InArm (cursor_of p.old) q }
    ensures kept { ParserKept p.old p.new }
    ensures did { (c₀ : Cursor) → Arm c₀ (cursor_of p.old) q → ParserDidFrom
        (λ L s. parse_else L s (parse_statement L s depth) c₀.block.0
        (vars s p.old.scratch.now c₀.vars) (opnd_of q.cond) q.first.0 q.join.0 q.last.0 (opnd_of q.value))
        1 c₀ p.old p.new (operand p.new result) }
{
    if p.match_token(Token::Else)? {
        let b = open_else(p, q)?;
        let y = parse_block(p, q.join, depth)?;
        return finish_else(p, q, b, y);
    }
    finish_if(p, q)
}

// Behind `if`. The blocks are numbered then, join, else.
#[cycle(statement)]
fn parse_if(p: &mut Parser, depth: usize) -> Result<Opnd, Refusal>
    requires { Reading p.old }
    ensures { ParserDid (λ L s. parse_if L s (parse_expr L s depth) (parse_statement L s depth)) 1 p.old p.new (operand p.new result) }
{
    let cond = expressions::parse_expr(p, 0, depth)?;
    // Stays: the one place that makes a `Before`; a `From` would hold these very lines.
    let before = Before {
        block: p.block,
        vars: p.vars,
        aside: p.aside,
    };
    let first = new_block(p)?;
    let join = new_block(p)?;
    p.block = first;
    let value = parse_block(p, join, depth)?;
    let q = Branch {
        before,
        cond,
        first,
        join,
        last: p.block,
        value,
    };
    parse_else(p, q, depth)
}

// Stays: the clause is about two values, that x is the next word of p: the first step of p past x ends that, and the callers go on with p behind it, so that a struct
// of both would have to give p back; without x the word would be read twice.

// From the word x on, which is the next.
#[cycle(statement)]
fn parse_statement(p: &mut Parser, x: Word, depth: usize) -> Result<Opnd, Refusal>
    requires reading { Reading p.old }
    requires sees { Sees p.old.script.now (cursor_of p.old) (Ok x) }
    ensures { ParserDid (λ L s. parse_statement L s depth) 1 p.old p.new (operand p.new result) }
{
    if x.token == Token::Return {
        p.at = x.next;
        return parse_return(p, depth);
    }
    if x.token == Token::If {
        if depth == 0 {
            return Err(Refusal::OverLimit);
        }
        p.at = x.next;
        return parse_if(p, depth - 1);
    }
    expressions::parse_from(p, x, 0, depth)
}
