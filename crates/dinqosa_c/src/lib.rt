// The calls as C and Rust link them: bindings/dinqosa.h, bindings/dinqosa.rs.
#![tactic(auto)]

ghost use Rattle.call.specs.Call.{after, lent};
ghost use Rattle.decode.specs.Load.{loaded};
ghost use Rattle.dinqosa.specs.Exported.{Gives, Reads};

// 0 for an answer, else the number of the refusal.
#[unsafe(no_mangle)]
pub extern "C" fn dinqosa_analyze(
    script: &[u8],
    answer: &mut [usize],
    program: &mut [usize],
    state: &mut [usize],
) -> u8
    ensures { Gives (after script.now (lent answer.old program.old state.old)) result
        (lent answer.new program.new state.new) }
{
    dinqosa::dinqosa_analyze(script, answer, program, state)
}

// 0 for an answer, a refusal's number and 256 if a refusal was read; else the number of the reader's question.
#[unsafe(no_mangle)]
pub extern "C" fn dinqosa_read(text: &[u8], answer: &mut [usize]) -> u16
    ensures { Reads (loaded text.now answer.old) result answer.new }
{
    dinqosa::dinqosa_read(text, answer)
}
