// The calls as crate dinqosa_c exports them to C and Rust.
#![tactic(auto)]

ghost use Rattle.call.specs.Call.{after, lent};
ghost use Rattle.decode.specs.Load.{loaded};
ghost use Rattle.dinqosa.specs.Exported.{Gives, Reads};

use decode::Loaded;

// What is added to the number of a refusal that was read.
const READ: u16 = 256;

// 0 for an answer, else the number of the refusal.
// Stays: the parts are lent apart, as the C interface lends them.
#[tactic(auto, using(crate::proofs::Laws::gives_answer, crate::proofs::Laws::gives_refusal))]
pub fn dinqosa_analyze(
    script: &[u8],
    answer: &mut [usize],
    program: &mut [usize],
    state: &mut [usize],
) -> u8
    ensures { Gives (after script.now (lent answer.old program.old state.old)) result
        (lent answer.new program.new state.new) }
{
    match call::analyze(script, answer, program, state) {
        Ok(()) => 0,
        Err(e) => u8::from(e),
    }
}

// Reads a stored answer. 0 for an answer, a refusal's number and 256 if a refusal was read; else the number of the reader's question.
#[tactic(auto, using(crate::proofs::Laws::reads_answer, crate::proofs::Laws::reads_refusal, crate::proofs::Laws::reads_nothing))]
pub fn dinqosa_read(text: &[u8], answer: &mut [usize]) -> u16
    ensures { Reads (loaded text.now answer.old) result answer.new }
{
    match decode::read_frames(text, answer) {
        Loaded::Answer => 0,
        Loaded::Refusal(n) => READ + u16::from(n),
        Loaded::Unread(e) => u16::from(u8::from(e)),
    }
}
