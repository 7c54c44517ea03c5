// Reads a script from standard input and writes the frames of its answer to standard output. Standard error gets one line where the script is
// refused, where reading or writing fails, and where the program is given an argument.
#![tactic(auto)]

ghost use Rattle.std.specs.Prelude.{◌≡◌, ◌+◌, length, IfSome, IfOk};
ghost use Rattle.refusals.specs.Refusals.{number_of};
ghost use Rattle.rules.specs.Program.{limits};
ghost use Rattle.live.specs.Runs.{Runs, Prints};
ghost use Rattle.live.specs.Questions.{line_of};

use printing::Told;
use refusals::Refusal;
use std::env::FillError;
use std::io::{self, Read, Write};
use std::rt::Env;
use streams::Unwritten;

// How many bytes were read, and what was written of their script.
#[derive(Clone, Copy)]
struct Ran {
    read: usize,
    told: Result<Told, Unwritten>,
}

// Reads a script and writes its frames. The buffer has one byte more than the longest script: a longer input fills it, and is refused.
fn run<R: Read, W: Write>(from: &mut R, to: &mut W, script: &mut [u8]) -> io::Result<Ran>
    requires { length script.old ≡ limits.script + 1 }
    ensures runs { IfOk result (Runs script.new) }
    ensures prints { IfSome (R.remaining from.old)
        (λ input. Prints input (W.contents to.old) (W.contents to.new) result) }
{
    let read = streams::read(from, script)?;
    let told = printing::write_answer(to, &script[..read]);
    Ok(Ran { read, told })
}

// ---- standard error

// Stays: a macro, since only a macro makes one literal of several: a table would repeat these words in each of its lines.
macro_rules! line {
    ($words:literal) => {
        concat!("live: question ", $words, "\n")
    };
}

// The line of a refusal, with the number and the words of its question.
// Stays: a function and no `Display`, since `Refusal` is of a crate below, and a type of this program's around it would be made only to be written.
fn line(e: Refusal) -> &'static str
    ensures { result.now ≡ line_of (number_of e) }
{
    match e {
        Refusal::ScriptTooLong => line!("1: is the script at most 16384 bytes long?"),
        Refusal::MemoryTooShort => line!("2: is each lent part of memory long enough?"),
        Refusal::UnknownByte => line!("3: does this byte start a word, a number or a sign?"),
        Refusal::NumberTooLarge => line!("4: does the number fit 64 bits with a sign?"),
        Refusal::UnexpectedWord => line!("5: may this word, or the end of the text, stand here?"),
        Refusal::UnboundName => line!("6: is the name bound?"),
        Refusal::NameTaken => line!("7: is the name free?"),
        Refusal::NotCallable => line!("8: can this be called?"),
        Refusal::OutsideMethod => line!("9: does the @ stand in a method?"),
        Refusal::BlockEnded => line!("10: is the block still without a return?"),
        Refusal::OverLimit => line!("11: is the script within the limits?"),
        Refusal::NoFunction => line!("12: is there a function?"),
        Refusal::UndeclaredAttribute => line!(
            "13: is each attribute declared that a constructor sets?"
        ),
        Refusal::NotAnObject => line!("14: is the receiver an object?"),
        Refusal::UnknownMember => line!(
            "15: has each class of the receiver this attribute or method?"
        ),
        Refusal::MissingArgument => line!("16: has every parameter an argument?"),
        Refusal::NeedsReceiver => line!("17: can the function be called without a receiver?"),
        Refusal::Subtraction => line!("18: is this another operation than subtraction?"),
        Refusal::KindsClash => line!("19: can the two kinds be joined?"),
        Refusal::WaitingListFull => line!("20: have the waiting lists room?"),
    }
}

// Where standard error can't be written, there is nobody to tell.
fn say<W: Write>(to: &mut W, line: &str) {
    let _ = streams::write(to, line.as_bytes());
}

// What the frames don't say.
fn report<W: Write>(to: &mut W, told: Result<Told, Unwritten>) {
    match told {
        Ok(t) => {
            if let Some(e) = t.refusal {
                say(to, line(e));
            }
        }
        Err(_) => say(to, "live: standard output can't be written\n"),
    }
}

// Whether the program was given an argument behind its own name; how long it is doesn't matter.
fn has_argument(env: &impl Env) -> bool {
    !matches!(env.arg(1, &mut [0u8; 1]), Err(FillError::NotPresent))
}

fn main(rt: HostRuntime) {
    let mut errors = rt.stderr();
    if has_argument(&rt) {
        say(&mut errors, "usage: live < SCRIPT (no arguments)\n");
        return;
    }
    let mut script = [0u8; call::SCRIPT_MOST + 1];
    match run(&mut rt.stdin(), &mut rt.stdout(), &mut script) {
        Ok(ran) => report(&mut errors, ran.told),
        Err(_) => say(&mut errors, "live: standard input can't be read\n"),
    }
}
