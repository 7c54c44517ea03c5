// Expressions: readers that call each other, one level of depth down at each `parse_expr`.
#![tactic(auto)]

ghost use Rattle.std.specs.Prelude.{◌≡◌, ◌*◌, ◌≤◌, ◌<◌, Ok};
ghost use Rattle.rules.specs.Actions.{loop as loop_of};
ghost use Rattle.rules.specs.Reading.{turns, parse_group, parse_ivar, parse_name, parse_primary, parse_args, parse_call, parse_member, parse_right, operator, parse_suffix, parse_expr};
ghost use Rattle.program.specs.Rows.{opnd_of};
ghost use Rattle.cursor.specs.Promises.{Sees};
ghost use Rattle.cursor.specs.Parsers.{cursor_of, Reading, ParserDid, operand};
ghost use Rattle.expressions.specs.Readers.{ParserArg, ParserArgs, ParserSuffix};

use cursor::Parser;
use kinds::Arith;
use lexer::{Token, Word};
use program::{Given, Op, Opnd};
use refusals::Refusal;

// Stays: `Reading` holds inside of a function, up to a refusal; what a field says would have to hold before, between and behind them too.

#[cycle(expression)]
fn parse_group(p: &mut Parser, depth: usize) -> Result<Opnd, Refusal>
    requires { Reading p.old }
    ensures { ParserDid (λ L s. parse_group L s (parse_expr L s depth)) 1 p.old p.new (operand p.new result) }
{
    let v = parse_expr(p, 0, depth)?;
    p.expect(Token::Sign(b')'))?;
    Ok(v)
}

#[cycle(expression)]
fn parse_ivar(p: &mut Parser, depth: usize) -> Result<Opnd, Refusal>
    requires { Reading p.old }
    ensures { ParserDid (λ L s. parse_ivar L s (parse_expr L s depth)) 1 p.old p.new (operand p.new result) }
{
    let n = p.expect_ident()?;
    if p.match_token(Token::Sign(b'='))? {
        let v = parse_expr(p, 0, depth)?;
        return p.set_ivar(n, v);
    }
    p.get_ivar(n)
}

// Stays: the clause is about two values, that x is the next word of p: the first step of p past x ends that, and the callers go on with p behind it, so that a struct
// of both would have to give p back; without x the word would be read twice.

// From the word x on, which is the next.
#[cycle(expression)]
fn parse_name(p: &mut Parser, x: Word, depth: usize) -> Result<Opnd, Refusal>
    requires reading { Reading p.old }
    requires sees { Sees p.old.script.now (cursor_of p.old) (Ok x) }
    ensures { ParserDid (λ L s. parse_name L s (parse_expr L s depth)) 1 p.old p.new (operand p.new result) }
{
    let n = p.take_name(x)?;
    let sets = p.match_token(Token::Sign(b'='));
    if sets? {
        let v = parse_expr(p, 0, depth)?;
        return p.assign(n, v);
    }
    p.name_value(n)
}

// From the word x on, which is the next.
#[cycle(expression)]
fn parse_primary(p: &mut Parser, x: Word, depth: usize) -> Result<Opnd, Refusal>
    requires reading { Reading p.old }
    requires sees { Sees p.old.script.now (cursor_of p.old) (Ok x) }
    ensures { ParserDid (λ L s. parse_primary L s (parse_expr L s depth)) 1 p.old p.new (operand p.new result) }
{
    if let Token::Number(n) = x.token {
        p.at = x.next;
        return Ok(cursor::number(n));
    }
    if x.token == Token::Sign(b'(') {
        p.at = x.next;
        return parse_group(p, depth);
    }
    if x.token == Token::Sign(b'@') {
        p.at = x.next;
        return parse_ivar(p, depth);
    }
    parse_name(p, x, depth)
}

// Stays: `args_bound` holds behind a `(` or a comma, whose byte pays for one more argument, and no longer behind the argument; a field would have to hold there too.

// One argument, if there is one: whether a comma stands behind it, so that there may be another.
#[cycle(expression)]
fn parse_arg(p: &mut Parser, depth: usize) -> Result<bool, Refusal>
    requires reading { Reading p.old }
    requires args_bound { 2 * p.old.args < p.old.at }
    ensures { ParserArg (λ L s. parse_expr L s depth) p.old p.new result }
{
    let x = p.peek()?;
    if x.token == Token::Sign(b')') {
        return Ok(false);
    }
    let v = parse_from(p, x, 0, depth)?;
    p.push_arg(v);
    p.match_token(Token::Sign(b','))
}

// The arguments up to `)`: how many stand behind those that wait.
#[cycle(expression)]
fn parse_args(p: &mut Parser, depth: usize) -> Result<usize, Refusal>
    requires reading { Reading p.old }
    requires args_bound { 2 * p.old.args < p.old.at }
    ensures { ParserArgs (λ L s. parse_args L s (parse_expr L s depth)) p.old p.new result }
{
    let base = p.args;
    while parse_arg(p, depth)? {}
    p.expect(Token::Sign(b')'))?;
    let n = p.args - base;
    p.args = base;
    Ok(n)
}

#[cycle(expression)]
fn parse_call(p: &mut Parser, v: Opnd, depth: usize) -> Result<Opnd, Refusal>
    requires reading { Reading p.old }
    requires args_bound { 2 * p.old.args < p.old.at }
    ensures { ParserDid (λ L s. parse_call L s (parse_expr L s depth) (opnd_of v)) 1 p.old p.new (operand p.new result) }
{
    let n = parse_args(p, depth)?;
    p.bare_call(v, n)
}

#[cycle(expression)]
fn parse_member(p: &mut Parser, v: Opnd, depth: usize) -> Result<Opnd, Refusal>
    requires { Reading p.old }
    ensures { ParserDid (λ L s. parse_member L s (parse_expr L s depth) (opnd_of v)) 1 p.old p.new (operand p.new result) }
{
    let n = p.expect_ident()?;
    if p.match_token(Token::Sign(b'('))? {
        let k = parse_args(p, depth)?;
        return p.send(v, n, k);
    }
    p.read_attr(v, n)
}

#[cycle(expression)]
fn parse_right(
    p: &mut Parser,
    v: Opnd,
    o: Arith,
    right: usize,
    depth: usize,
) -> Result<Opnd, Refusal>
    requires { Reading p.old }
    ensures { ParserDid (λ L s. parse_right L s (parse_expr L s depth) (operator o 0 right) (opnd_of v)) 1 p.old p.new (operand p.new result) }
{
    let w = parse_expr(p, right, depth)?;
    p.push(Op::Compute(o), Given::Two(v, w))
}

// One thing behind the operand v, which begins with a sign: what it makes of v, if there is one.
#[cycle(expression)]
fn parse_suffix(p: &mut Parser, v: Opnd, prec: usize, depth: usize) -> Result<Option<Opnd>, Refusal>
    requires { Reading p.old }
    ensures { ParserSuffix (λ L s. parse_suffix L s (parse_expr L s depth) prec (opnd_of v)) v p.old p.new result }
{
    let Some((k, next)) = lexer::glance(p.script, p.at)? else {
        return Ok(None);
    };
    match k {
        b'(' => {
            p.at = next;
            let w = parse_call(p, v, depth)?;
            Ok(Some(w))
        }
        b'.' => {
            p.at = next;
            let w = parse_member(p, v, depth)?;
            Ok(Some(w))
        }
        _ => {
            let Some((o, right)) = cursor::operator_of(k, prec) else {
                return Ok(None);
            };
            p.at = next;
            let w = parse_right(p, v, o, right, depth)?;
            Ok(Some(w))
        }
    }
}

#[cycle(expression)]
fn parse_suffixes(p: &mut Parser, v: Opnd, prec: usize, depth: usize) -> Result<Opnd, Refusal>
    requires { Reading p.old }
    ensures { ParserDid (λ L s. loop_of (parse_suffix L s (parse_expr L s depth) prec) (turns s) (opnd_of v)) 0
        p.old p.new (operand p.new result) }
{
    let mut left = v;
    while let Some(w) = parse_suffix(p, left, prec, depth)? {
        left = w;
    }
    Ok(left)
}

// From the word x on, which is the next.
#[cycle(expression)]
pub fn parse_from(p: &mut Parser, x: Word, prec: usize, depth: usize) -> Result<Opnd, Refusal>
    requires reading { Reading p.old }
    requires sees { Sees p.old.script.now (cursor_of p.old) (Ok x) }
    ensures { ParserDid (λ L s. parse_expr L s depth prec) 1 p.old p.new (operand p.new result) }
{
    if depth < 1 {
        return Err(Refusal::OverLimit);
    }
    let d = depth - 1;
    let v = parse_primary(p, x, d)?;
    parse_suffixes(p, v, prec, d)
}

// The reference's `parse_`: it counts towards the depth as it is entered, before a word is looked at.
#[cycle(expression)]
pub fn parse_expr(p: &mut Parser, prec: usize, depth: usize) -> Result<Opnd, Refusal>
    requires { Reading p.old }
    ensures { ParserDid (λ L s. parse_expr L s depth prec) 1 p.old p.new (operand p.new result) }
{
    if depth == 0 {
        return Err(Refusal::OverLimit);
    }
    let x = p.peek()?;
    parse_from(p, x, prec, depth)
}
