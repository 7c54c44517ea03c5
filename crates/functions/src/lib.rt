// Functions.
#![tactic(auto)]

pub mod params;

ghost use Rattle.functions.specs.params.Names.{names_in};
ghost use Rattle.functions.specs.Bodies.{body_of};
ghost use Rattle.functions.specs.Parsers.{HeadWaits, BodyWaits, Resting, through, ParserHeads, ParserTakes, ParserTaken};

use cursor::Parser;
use ids::FunId;
use lexer::Token;
use program::{Given, Op};
use refusals::Refusal;

// The receiver and the parameters; no other variable is bound.
fn open_body(p: &mut Parser) -> Result<(), Refusal>
    requires { HeadWaits p.old }
    ensures { ParserHeads p.old p.new result }
{
    p.vars = 0;
    p.aside = variables::BINDINGS_MOST;
    params::push_self(p)?;
    params::push_params(p)?;
    p.args = 0;
    Ok(())
}

// Behind a function's parameters, whose names wait. Where no terminator ends it, it returns its last statement's value.
fn parse_body(p: &mut Parser) -> Result<(), Refusal>
    requires { BodyWaits p.old }
    ensures { ParserTakes (λ L s. body_of L s (names_in s p.old.scratch.now p.old.args)) 1 p.old p.new (through p.new result) }
{
    let depth = p.program.limits.depth;
    open_body(p)?;
    let v = statements::parse_statements(p, false, depth)?;
    statements::end_block(p, Op::Return, Given::One(v))?;
    p.expect(Token::End)?;
    p.receiver = None;
    Ok(())
}

// Stays: `Resting` holds between functions, up to a refusal; what a field says would have to hold inside of them too.

// Behind `def`; the function is known from its name on.
pub fn parse_fun(p: &mut Parser) -> Result<FunId, Refusal>
    requires { Resting p.old }
    ensures { ParserTaken p.old p.new result }
{
    let n = p.expect_ident()?;
    let f = params::new_fun(p, n)?;
    p.expect(Token::Sign(b'('))?;
    params::parse_params(p)?;
    p.expect(Token::Sign(b')'))?;
    parse_body(p)?;
    Ok(f)
}
