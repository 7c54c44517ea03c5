// Reads frames from standard input, of any length, and writes the frames of the record that they are to standard output again; or the frame of the number with
// which they are refused. Standard error gets one line where reading or writing fails, and where the program is given an argument.
#![tactic(auto)]

ghost use Rattle.std.specs.Prelude.{◌≡◌, length, List, ℕ, IfOk, IfSome, Some, take};
ghost use Rattle.std.specs.Io.KnownBytes.{Appends};
ghost use Rattle.answer.specs.Layout.{answer_length};
ghost use Rattle.decode.specs.Stored.{read_text};
ghost use Rattle.decode.specs.Load.{held, told};
ghost use Rattle.streams.specs.Moved.{taken_of};
ghost use Rattle.printing.specs.Sent.{Sends};
ghost use Rattle.reread.specs.declared.Stop.TheVariants as S;
ghost use Rattle.reread.specs.Rereads.{again, Loads, Rereads, line_of};

use answer::Answer;
use decode::{Decoder, Loaded, Unread};
use std::env::FillError;
use std::fmt;
use std::io::{self, Read, Write};
use std::rt::Env;
use streams::Unwritten;

// The text is read in pieces of so many bytes.
const PIECE: usize = 65536;

// Why the input isn't read to its end.
#[derive(Clone, Copy, PartialEq, Eq, Debug)]
enum NoInput {
    Failed,
    Endless,
}

impl From<io::Error> for NoInput {
    fn from(_e: io::Error) -> NoInput {
        NoInput::Failed
    }
}

// Why the program stops before it has written all.
#[derive(Clone, Copy, PartialEq, Eq, Debug)]
enum Stop {
    Input(NoInput),
    Output(Unwritten),
}

impl From<NoInput> for Stop {
    ghost from_gives = { λ e s. s ≡ S.Input e };

    fn from(e: NoInput) -> Stop {
        Stop::Input(e)
    }
}

impl From<Unwritten> for Stop {
    ghost from_gives = { λ e s. s ≡ S.Output e };

    fn from(e: Unwritten) -> Stop {
        Stop::Output(e)
    }
}

impl fmt::Display for Stop {
    ghost output = { λ s. Some (line_of s) };

    fn fmt<W: fmt::Write>(&self, f: &mut fmt::Formatter<W>) -> fmt::Result {
        f.write_str(match self {
            Stop::Input(NoInput::Failed) => "standard input can't be read",
            Stop::Input(NoInput::Endless) => "standard input has no end",
            Stop::Output(_) => "standard output can't be written",
        })
    }
}

// Reads the record that the input is.
#[tactic(auto, using(crate::proofs::Laws::feeding_start))]
fn load<R: Read>(from: &mut R, answer: &mut [usize]) -> Result<Loaded, NoInput>
    requires { length answer.old ≡ answer_length }
    ensures { IfOk result (λ l. Loads (R.remaining from.old) l answer.new) }
{
    memory::clear(answer);
    let mut buffer = [0u8; PIECE];
    let mut decoder = Decoder::Nothing;
    // How many bytes of a line that is cut stand at the buffer's start.
    let mut kept = 0;
    // Nothing bounds the input, and a loop must end.
    for _ in 0..usize::MAX {
        let read = streams::read(from, &mut buffer[kept..])?;
        let end = kept + read;
        if end < buffer.len() {
            return Ok(decode::read_last(decoder, &buffer[..end], answer));
        }
        let Some(taken) = decode::take_lines(decoder, &buffer, answer) else {
            return Ok(decode::give_up(Unread::IllegalLine, answer));
        };
        decoder = taken.decoder;
        kept = end - taken.end;
        buffer.copy_within(taken.end.., 0);
    }
    Err(NoInput::Endless)
}

// Writes what was read.
fn write<W: Write>(to: &mut W, loaded: Loaded, answer: &[usize]) -> Result<usize, Unwritten>
    requires { length answer.now ≡ answer_length }
    ensures sends { (t : List ℕ) → held (read_text t) ≡ (told loaded, answer.now) → Sends (again t) result }
    ensures appends { (t : List ℕ) → held (read_text t) ≡ (told loaded, answer.now) →
        Appends (W.contents to.old) (W.contents to.new) (take (taken_of (again t) result) (again t)) }
{
    match loaded {
        Loaded::Answer => printing::write_frames(to, Answer { words: answer }),
        Loaded::Refusal(n) => printing::write_number(to, n),
        Loaded::Unread(e) => printing::write_number(to, u8::from(e)),
    }
}

// Reads a record and writes it again.
fn reread<R: Read, W: Write>(from: &mut R, to: &mut W) -> Result<usize, Stop>
    ensures { IfSome (R.remaining from.old) (λ input. Rereads input (W.contents to.old) (W.contents to.new) result) }
{
    let mut answer = [0usize; answer::ANSWER_LEN];
    let loaded = load(from, &mut answer)?;
    let bytes = write(to, loaded, &answer)?;
    Ok(bytes)
}

// Whether the program was given an argument behind its own name; how long it is doesn't matter.
fn has_argument(env: &impl Env) -> bool {
    !matches!(env.arg(1, &mut [0u8; 1]), Err(FillError::NotPresent))
}

fn main(rt: HostRuntime) {
    // Where standard error can't be written, there is nobody to tell.
    if has_argument(&rt) {
        let _ = eprintln!(rt; "usage: reread < FRAMES (no arguments)");
        return;
    }
    if let Err(stop) = reread(&mut rt.stdin(), &mut rt.stdout()) {
        let _ = eprintln!(rt; "reread: {stop}");
    }
}
