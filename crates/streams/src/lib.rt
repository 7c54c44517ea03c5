// Standard input and output.
#![tactic(auto)]

ghost use Rattle.std.specs.Prelude.{◌<◌, length, take, IfErr};
ghost use Rattle.std.specs.Io.{ReadsAtMost, WritesAtMost};
ghost use Rattle.std.specs.Io.KnownBytes.{Appends, ReadConsumes, WriteAppends};
ghost use Rattle.streams.specs.Moved.{taken_of, InputFits, InputTaken};

use std::io::{self, ErrorKind, Read, Write};

// How often a call is made that signals interrupt before it moves a byte. Nothing bounds how many signals come, and a loop must end.
const TRIES: usize = 10000;

// What a call answers that is made again where a signal interrupts it.
// Stays: a macro and no function that takes a closure: tried, with a contract that tells of the calls as a list of steps, and neither its loop nor what
// `write_some` and `read_some` promise was proved.
macro_rules! uninterrupted {
    ($call:expr) => {{
        for _ in 1..TRIES {
            match $call {
                Err(e) if e.kind() == ErrorKind::Interrupted => {}
                done => return done,
            }
        }
        $call
    }};
}

// A write failed: how many bytes were taken until then.
#[derive(Clone, Copy, PartialEq, Eq, Debug)]
pub struct Unwritten {
    pub taken: usize,
}

// One write: how many bytes were taken.
fn write_some<W: Write>(to: &mut W, bytes: &[u8]) -> io::Result<usize>
    ensures in_bounds { WritesAtMost result bytes.now }
    ensures appends { WriteAppends (W.contents to.old) (W.contents to.new) result bytes.now }
{
    uninterrupted!(to.write(bytes))
}

// Writes all bytes, up to the first write that fails or takes none.
// Stays: a loop over `write`, since std's `write_all` doesn't say how many bytes were taken before it failed.
#[tactic(auto, using(crate::proofs::Laws::written_more))]
pub fn write<W: Write>(to: &mut W, bytes: &[u8]) -> Result<(), Unwritten>
    ensures short { IfErr result (λ e. e.taken < length bytes.now) }
    ensures appends { Appends (W.contents to.old) (W.contents to.new) (take (taken_of bytes.now result) bytes.now) }
{
    let mut taken = 0;
    while taken < bytes.len() {
        match write_some(to, &bytes[taken..]) {
            Ok(n) if 0 < n => taken += n,
            _ => return Err(Unwritten { taken }),
        }
    }
    Ok(())
}

// One read: no bytes at the end of the input.
fn read_some<R: Read>(from: &mut R, buffer: &mut [u8]) -> io::Result<usize>
    ensures in_bounds { ReadsAtMost result buffer.new }
    ensures taken { ReadConsumes (R.remaining from.old) (R.remaining from.new) result buffer.new }
{
    uninterrupted!(from.read(buffer))
}

// Reads until the input ends or the buffer is full, and answers how many bytes that are.
// Stays: a loop over `read`, since std's `read_exact` doesn't say how many bytes an input has that ends before the buffer is full.
#[tactic(auto, using(crate::proofs::Laws::reading_more, crate::proofs::Laws::taken_more))]
pub fn read<R: Read>(from: &mut R, buffer: &mut [u8]) -> io::Result<usize>
    ensures fits { InputFits buffer.new result }
    ensures taken { InputTaken (R.remaining from.old) (R.remaining from.new) buffer.new result }
{
    let mut done = 0;
    while done < buffer.len() {
        let n = read_some(from, &mut buffer[done..])?;
        if n == 0 {
            break;
        }
        done += n;
    }
    Ok(done)
}
