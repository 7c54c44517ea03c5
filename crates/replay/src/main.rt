// Reads a batch of scripts from standard input, each behind its length in four bytes, and writes the frames of each, one script's behind the other's.
#![tactic(auto)]

mod batches;

use batches::Stop;
use std::io::{Read, Write};

// The most scripts that a batch may have.
const MOST_SCRIPTS: usize = 65536;

fn replay<R: Read, W: Write>(from: &mut R, to: &mut W) -> Result<(), Stop> {
    let mut script = [0u8; 65535];
    for _ in 0..MOST_SCRIPTS {
        let Some(n) = batches::read_script(from, &mut script)? else {
            return Ok(());
        };
        printing::write_answer(to, &script[..n])?;
    }
    Err(Stop::Enough)
}

fn main(rt: HostRuntime) {
    if let Err(stop) = replay(&mut rt.stdin(), &mut rt.stdout()) {
        // Where standard error can't be written, there is nobody to tell.
        let _ = streams::write(&mut rt.stderr(), stop.line().as_bytes());
    }
}
