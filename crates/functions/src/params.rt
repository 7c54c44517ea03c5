// The heads of functions: their names, receivers and parameters.
ghost use Rattle.std.specs.Prelude.{◌+◌, ◌≤◌, ◌<◌, length};
ghost use Rattle.memory.specs.Layout.{script_most, operands_most};
ghost use Rattle.cursor.specs.Layout.{scratch_size};
ghost use Rattle.cursor.specs.Cursor.{Cursor, stack_cur};
ghost use Rattle.cursor.specs.Parsers.{cursor_of, CanAdd};
ghost use Rattle.functions.specs.params.Promises.{PutsName, Head, ParamsAt, ParamsRoom, ParamsFilled};
ghost use Rattle.functions.specs.params.Parsers.{ParserParams, ParserParam, ParserBinds, ParserSelf, ParserEnters};

use cursor::{Parser, words};
use ids::FunId;
use lexer::Token;
use program::{Given, Name, Op};
use refusals::Refusal;

// Where the names of parameters wait in scratch memory, two words each.
// Stays: numbers in lent words and no vector of names, since there is no heap.
const STACK: usize = cursor::STACK;

// ---- names

// Stays: the size of scratch memory is a clause, here and below, as at cursor's `push_arg`.

// A name waits behind k others.
fn push_name(scratch: &mut [usize], k: usize, n: Name)
    requires scratch_size_in_bounds { scratch_size ≤ length scratch.old }
    requires k_bound { k < operands_most }
    ensures { (c : Cursor) → PutsName scratch.old (stack_cur k c) n scratch.new (stack_cur (k + 1) c) }
{
    let at = STACK + 2 * k;
    scratch[at] = n.start;
    scratch[at + 1] = n.len;
}

// The names up to `)`, from a place in the script on; a comma may stand behind the last. How many wait then, and the place behind them.
pub fn parse_names(
    script: &[u8],
    scratch: &mut [usize],
    at: usize,
) -> Result<(usize, usize), Refusal>
    requires script_bound { length script.now ≤ script_most }
    requires at_bound { at ≤ length script.now }
    requires scratch_size_in_bounds { scratch_size ≤ length scratch.old }
    ensures { ParamsAt script.now at scratch.old scratch.new result }
{
    let mut k = 0;
    let mut next = at;
    while lexer::read_word(script, next)?.token != Token::Sign(b')') {
        let (n, behind) = words::expect_ident(script, next)?;
        push_name(scratch, k, n);
        k += 1;
        let Some(after) = words::match_token(script, behind, Token::Sign(b','))? else {
            return Ok((k, behind));
        };
        next = after;
    }
    Ok((k, next))
}

// The same of a parser, for which no name waits.
pub fn parse_params(p: &mut Parser) -> Result<(), Refusal>
    requires { Head p.old.script.now p.old.scratch.now (cursor_of p.old) }
    ensures { ParserParams p.old p.new result }
{
    let (k, next) = parse_names(p.script, p.scratch, p.at)?;
    p.args = k;
    p.at = next;
    Ok(())
}

// ---- parameters

// The k-th of the waiting names is bound to a Param.
fn push_param(p: &mut Parser, k: usize) -> Result<(), Refusal>
    requires { ParamsRoom k p.old.program.words.now p.old.scratch.now (cursor_of p.old) }
    ensures { ParserParam k p.old p.new result }
{
    let at = STACK + 2 * k;
    let name = Name {
        start: p.scratch[at],
        len: p.scratch[at + 1],
    };
    let v = p.push(Op::Param(k), Given::Zero)?;
    phis::set_var(p.scratch, p.vars, name, v);
    p.vars += 1;
    Ok(())
}

// A Param for each of the waiting names.
pub fn push_params(p: &mut Parser) -> Result<(), Refusal>
    requires { ParamsFilled p.old.program.words.now p.old.scratch.now (cursor_of p.old) }
    ensures { ParserBinds p.old p.new result }
{
    for k in 0..p.args {
        push_param(p, k)?;
    }
    Ok(())
}

// ---- receivers and functions

// A method's receiver comes before its parameters.
pub fn push_self(p: &mut Parser) -> Result<(), Refusal>
    requires { CanAdd p.old }
    ensures { ParserSelf p.old p.new result }
{
    if let Some(k) = p.class {
        let i = p.program.push_insn(p.block, Op::SelfParam(k), Given::Zero)?;
        p.receiver = Some(i);
    }
    Ok(())
}

// The function of a name, with its entry block, which takes instructions.
pub fn new_fun(p: &mut Parser, n: Name) -> Result<FunId, Refusal>
    ensures { ParserEnters n p.old p.new result }
{
    let (f, entry) = p.program.new_fun(n, p.class)?;
    p.block = entry;
    Ok(f)
}
