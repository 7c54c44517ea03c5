// Classes.
ghost use Rattle.std.specs.Prelude.{◌≡◌, ◌<◌, None};
ghost use Rattle.rules.specs.Actions.{loop as loop_of};
ghost use Rattle.rules.specs.Reading.{parse_method, parse_attr, parse_class_member, parse_class, turns};
ghost use Rattle.functions.specs.Parsers.{Resting, through, ParserTakes};
ghost use Rattle.parser.specs.classes.Turning.{ParserTurns};

use cursor::Parser;
use ids::ClassId;
use lexer::Token;
use refusals::Refusal;

// Stays: `Resting` holds between functions, up to a refusal; what a field says would have to hold inside of them too. `k_lt_classes` is about two values,
// a class and the program that it is of.

// Question 7 for a second method of a name, at the method's end.
fn parse_method(p: &mut Parser, k: ClassId) -> Result<(), Refusal>
    requires { Resting p.old }
    ensures { ParserTakes (λ L s. parse_method L s k.0) 1 p.old p.new (through p.new result) }
{
    let f = functions::parse_fun(p)?;
    let program = p.program_so_far();
    let x = program.fun(f);
    if lookups::method_named(&program, k, x.name) == Some(f) {
        return Ok(());
    }
    Err(Refusal::NameTaken)
}

// Behind `attr_accessor`.
fn parse_attr(p: &mut Parser, k: ClassId) -> Result<(), Refusal>
    requires rests { Resting p.old }
    requires k_lt_classes { k.0 < p.old.program.counts.classes }
    ensures { ParserTakes (λ L s. parse_attr L s k.0) 1 p.old p.new (through p.new result) }
{
    p.expect(Token::Sign(b':'))?;
    let n = p.expect_ident()?;
    lookups::push_ivar(&mut p.program, p.script, k, n)
}

// One thing in a class: whether there was one. At the class's end, for which the end of text may stand, there is none.
fn parse_member(p: &mut Parser, k: ClassId) -> Result<bool, Refusal>
    requires rests { Resting p.old }
    requires k_lt_classes { k.0 < p.old.program.counts.classes }
    ensures { ParserTurns (λ L s. parse_class_member L s k.0 tt) p.old p.new result }
{
    let x = p.peek()?;
    p.at = x.next;
    match x.token {
        Token::EndOfText => Ok(false),
        Token::End => Ok(false),
        Token::Def => {
            parse_method(p, k)?;
            Ok(true)
        }
        Token::AttrAccessor => {
            parse_attr(p, k)?;
            Ok(true)
        }
        _ => Err(Refusal::UnexpectedWord),
    }
}

// The things in a class, and its end.
// Stays: beside `parse_program`: a class has other words and one more end, and what they share is a `while` with no body.
fn parse_members(p: &mut Parser, k: ClassId) -> Result<(), Refusal>
    requires rests { Resting p.old }
    requires k_lt_classes { k.0 < p.old.program.counts.classes }
    ensures { ParserTakes (λ L s. loop_of (parse_class_member L s k.0) (turns s) tt) 0 p.old p.new (through p.new result) }
{
    while parse_member(p, k)? {}
    Ok(())
}

// Stays: `class_value` holds outside of classes alone; what a field says would have to hold inside of them too.

// Behind `class`; question 7 for a second class of a name, at the class's end.
pub fn parse_class(p: &mut Parser) -> Result<(), Refusal>
    requires rests { Resting p.old }
    requires class_value { p.old.class ≡ None }
    ensures { ParserTakes (λ L s. parse_class L s) 1 p.old p.new (through p.new result) }
{
    let n = p.expect_ident()?;
    let k = p.program.new_class(n)?;
    p.class = Some(k);
    parse_members(p, k)?;
    let program = p.program_so_far();
    if lookups::class_named(&program, p.class, n).is_some() {
        return Err(Refusal::NameTaken);
    }
    p.class = None;
    Ok(())
}
