// Frames on an output.
#![tactic(auto)]

ghost use Rattle.std.specs.Prelude.{◌≡◌, take, None, Some};
ghost use Rattle.std.specs.Io.KnownBytes.{Appends};
ghost use Rattle.rules.specs.Program.{limits};
ghost use Rattle.rules.specs.Frames.{refusal_frame, analyze, live};
ghost use Rattle.frames.specs.Text.{rest_of};
ghost use Rattle.refusals.specs.Refusals.{number_of};
ghost use Rattle.streams.specs.Moved.{taken_of};
ghost use Rattle.printing.specs.Sent.{Sends, number_in, SentTells, told_of};

use answer::Answer;
use frames::{Frame, Frames, NextFrame};
use refusals::Refusal;
use std::io::Write;
use streams::Unwritten;

// All was written of a script: the frames of its answer, or of its refusal, and so many bytes.
#[derive(Clone, Copy, PartialEq, Eq, Debug)]
pub struct Told {
    pub refusal: Option<Refusal>,
    pub bytes: usize,
}

// Writes all frames of an answer, up to the first write that fails.
pub fn write_frames<W: Write>(to: &mut W, answer: Answer) -> Result<usize, Unwritten>
    ensures sends { Sends (rest_of answer.entry.words.now NextFrame.Totals) result }
    ensures appends { let all = rest_of answer.entry.words.now NextFrame.Totals in
        Appends (W.contents to.old) (W.contents to.new) (take (taken_of all result) all) }
{
    let mut frames = Frames::of(answer);
    let mut out = [0u8; 65536];
    let mut done = 0;
    // Stays: a loop that is left where `fill` answers 0, since an iterator over pieces would have to lend each out of the one memory that it fills.
    loop {
        let len = frames.fill(&mut out);
        if len == 0 {
            return Ok(done);
        }
        let written = streams::write(to, &out[..len]);
        written.map_err(|e| Unwritten {
            taken: done + e.taken,
        })?;
        done += len;
    }
}

// Writes the frame that a refusal of number n has.
pub fn write_number<W: Write>(to: &mut W, n: u8) -> Result<usize, Unwritten>
    ensures sends { Sends (refusal_frame n) result }
    ensures appends { Appends (W.contents to.old) (W.contents to.new) (take (taken_of (refusal_frame n) result) (refusal_frame n)) }
{
    let mut line = [0u8; frames::LINE_MOST];
    let len = Frame::Refusal(n).write(&mut line);
    streams::write(to, &line[..len])?;
    Ok(len)
}

// Writes the frame of a refusal.
pub fn write_refusal<W: Write>(to: &mut W, e: Refusal) -> Result<usize, Unwritten>
    ensures sends { Sends (refusal_frame (number_of e)) result }
    ensures appends { Appends (W.contents to.old) (W.contents to.new) (take (taken_of (refusal_frame (number_of e)) result) (refusal_frame (number_of e))) }
{
    write_number(to, u8::from(e))
}

fn tell(refusal: Option<Refusal>, written: Result<usize, Unwritten>) -> Result<Told, Unwritten>
    ensures { result ≡ told_of refusal written }
{
    let bytes = written?;
    Ok(Told { refusal, bytes })
}

// Writes the frames of a script's answer, or of its refusal.
pub fn write_answer<W: Write>(to: &mut W, script: &[u8]) -> Result<Told, Unwritten>
    ensures tells { SentTells (number_in (analyze limits script.now)) (live script.now) result }
    ensures appends { Appends (W.contents to.old) (W.contents to.new) (take (taken_of (live script.now) result) (live script.now)) }
{
    let mut answer = [0usize; call::ANSWER_LEN];
    let mut program = [0usize; call::PROGRAM_LEN];
    let mut state = [0usize; call::STATE_LEN];
    match call::analyze(script, &mut answer, &mut program, &mut state) {
        Ok(()) => tell(None, write_frames(to, Answer { words: &answer })),
        Err(e) => tell(Some(e), write_refusal(to, e)),
    }
}
