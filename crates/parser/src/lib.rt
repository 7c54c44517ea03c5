// The whole script.
#![tactic(auto)]

pub mod classes;

ghost use Rattle.std.specs.Prelude.{◌≡◌, ◌≤◌, length, None};
ghost use Rattle.rules.specs.Actions.{loop as loop_of};
ghost use Rattle.rules.specs.Reading.{parse_top, turns};
ghost use Rattle.functions.specs.Parsers.{Resting, through, ParserTakes};
ghost use Rattle.memory.specs.Layout.{script_most};
ghost use Rattle.program.specs.Layout.{program_size};
ghost use Rattle.cursor.specs.Layout.{scratch_size};
ghost use Rattle.parser.specs.classes.Turning.{ParserTurns};
ghost use Rattle.program.specs.View.{Starts};
ghost use Rattle.cursor.specs.Parsers.{cursor_of};
ghost use Rattle.parser.specs.Outcomes.{start_cur, ReadsWithin, ReadsScript};

use cursor::Parser;
use ids::BlockId;
use lexer::Token;
use program::{Counts, Draft, Limits};
use refusals::Refusal;

// Stays: `Resting` holds between functions, up to a refusal, and `class_value` outside of classes; what a field says would have to hold inside of them too.

// One thing at top level: whether there was one. At the end of text there is none.
fn parse_top(p: &mut Parser) -> Result<bool, Refusal>
    requires rests { Resting p.old }
    requires class_value { p.old.class ≡ None }
    ensures { ParserTurns (λ L s. parse_top L s tt) p.old p.new result }
{
    let x = p.peek()?;
    p.at = x.next;
    match x.token {
        Token::EndOfText => Ok(false),
        Token::Def => {
            functions::parse_fun(p)?;
            Ok(true)
        }
        Token::Class => {
            classes::parse_class(p)?;
            Ok(true)
        }
        _ => Err(Refusal::UnexpectedWord),
    }
}

// What stands at top level, up to the end of text.
fn parse_program(p: &mut Parser) -> Result<(), Refusal>
    requires rests { Resting p.old }
    requires class_value { p.old.class ≡ None }
    ensures { ParserTakes (λ L s. loop_of (parse_top L s) (turns s) tt) 0 p.old p.new (through p.new result) }
{
    while parse_top(p)? {}
    Ok(())
}

// Stays: the C interface lends the script and each memory apart, as plain words, so each length is asked for until a `Parser` is made of them.

// Before the first word.
fn start<'a>(
    script: &'a [u8],
    program: &'a mut [usize],
    scratch: &'a mut [usize],
    limits: Limits,
) -> Parser<'a>
    requires { program_size ≤ length program.old }
    ensures words_loan { result.program.words.ghost_name ≡ program.entry.ghost_name }
    ensures scratch_loan { result.scratch.ghost_name ≡ scratch.entry.ghost_name }
    ensures script { result.script.now ≡ script.now }
    ensures limits { result.program.limits ≡ limits }
    ensures scratch { result.scratch.now ≡ scratch.old }
    ensures starts { Starts result.program.words.now result.program.counts }
    ensures cursor { cursor_of result ≡ start_cur result.program.counts }
{
    let draft = Draft::no_program(program, limits);
    Parser {
        script,
        program: draft,
        scratch,
        at: 0,
        class: None,
        receiver: None,
        // Stays: 0 and no `None` before the first block: whatever adds to a block would have to look into it; `CanAdd` says that there is one.
        block: BlockId(0),
        vars: 0,
        aside: variables::BINDINGS_MOST,
        args: 0,
    }
}

// The tables' words behind a reading, and what it came to.
#[derive(Drop)]
struct Reading<'a> {
    words: &'a mut [usize],
    read: Result<Counts, Refusal>,
}

// A script that is not too long is read. The words are taken out of the parser, since what lies in a struct within a struct is
// not known behind its end.
fn read_words<'a>(
    script: &'a [u8],
    program: &'a mut [usize],
    scratch: &'a mut [usize],
    limits: Limits,
) -> Reading<'a>
    requires program_size_in_bounds { program_size ≤ length program.old }
    requires scratch_size_in_bounds { scratch_size ≤ length scratch.old }
    requires script_le_script_most { limits.script ≤ script_most }
    requires script_in_limits { length script.now ≤ limits.script }
    ensures loan { result.words.ghost_name ≡ program.entry.ghost_name }
    ensures reads { ReadsWithin limits script.now result.words.now result.read }
{
    let mut p = start(script, program, scratch, limits);
    let r = parse_program(&mut p);
    let Parser { program: draft, .. } = p;
    let counts = draft.counts;
    let words = draft.words;
    Reading {
        words,
        read: r.map(|()| counts),
    }
}

// Reads a script into the tables under some limits; question 1 comes first.
fn read_within(
    script: &[u8],
    program: &mut [usize],
    scratch: &mut [usize],
    limits: Limits,
) -> Result<Counts, Refusal>
    requires program_size_in_bounds { program_size ≤ length program.old }
    requires scratch_size_in_bounds { scratch_size ≤ length scratch.old }
    requires script_le_script_most { limits.script ≤ script_most }
    ensures { ReadsWithin limits script.now program.new result }
{
    if limits.script < script.len() {
        return Err(Refusal::ScriptTooLong);
    }
    let reading = read_words(script, program, scratch, limits);
    reading.read
}

// Reads a script into the tables. Both memories may hold anything.
pub fn read(script: &[u8], program: &mut [usize], scratch: &mut [usize]) -> Result<Counts, Refusal>
    requires program_size_in_bounds { program_size ≤ length program.old }
    requires scratch_size_in_bounds { scratch_size ≤ length scratch.old }
    ensures { ReadsScript script.now program.new result }
{
    read_within(script, program, scratch, Limits::built_in())
}
