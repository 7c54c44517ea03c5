// Batches of scripts: each stands behind its length in four bytes, the highest first.
ghost use Rattle.replay.specs.batches.Turns.{TurnWithin, line_of};
ghost use Rattle.std.specs.Prelude.{◌≡◌};

use std::io::{self, Read};
use streams::Unwritten;

// Why the program stops before the batch's end.
// Stays: four ways to stop, each with its line: the error of a `Result`, no shape of one.
#[derive(Clone, Copy, PartialEq, Eq, Debug)]
pub enum Stop {
    Unread,
    Cut,
    Unwritten,
    Enough,
}

// Stays: a macro, since only a macro makes one literal of several.
macro_rules! line {
    ($words:literal) => {
        concat!("replay: ", $words, "\n")
    };
}

impl Stop {
    // The line for standard error.
    // Stays: no `Display` that `eprintln!` prints, since a write that a signal interrupts is to be made again as often as `streams` does.
    pub fn line(self) -> &'static str
        ensures { result.now ≡ line_of self }
    {
        match self {
            Stop::Unread => line!("standard input can't be read"),
            Stop::Cut => line!("no batch: a script is cut or too long"),
            Stop::Unwritten => line!("standard output can't be written"),
            Stop::Enough => line!("no more scripts are read"),
        }
    }
}

impl From<io::Error> for Stop {
    fn from(_e: io::Error) -> Stop {
        Stop::Unread
    }
}

impl From<Unwritten> for Stop {
    fn from(_e: Unwritten) -> Stop {
        Stop::Unwritten
    }
}

// The next script of the batch, at the start of its memory: how long it is, or none at the batch's end.
pub fn read_script<R: Read>(from: &mut R, script: &mut [u8]) -> Result<Option<usize>, Stop>
    ensures { TurnWithin script.new result }
{
    let mut head = [0u8; 4];
    let k = streams::read(from, &mut head)?;
    if k == 0 {
        return Ok(None);
    }
    let n = u32::from_be_bytes(head) as usize;
    if k < head.len() || script.len() < n {
        return Err(Stop::Cut);
    }
    if streams::read(from, &mut script[..n])? < n {
        return Err(Stop::Cut);
    }
    Ok(Some(n))
}
