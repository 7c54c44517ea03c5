// The call: a script, and three lent parts of memory.
#![tactic(auto)]

ghost use Rattle.std.specs.Prelude.{◌≡◌};
ghost use Rattle.program.specs.View.{program_view};
ghost use Rattle.call.specs.Call.{number_of, lent, left, after};
ghost use Rattle.call.specs.Parts.{front_of, found, analyzed, Parsed, PartsSized, PartsFresh, PartsAnalyzed, PartsCleared, PartsRan};

use program::Counts;
use refusals::Refusal;
use state::{Regs, State};

// The published lengths of the parts, in words of 8 bytes.
pub const ANSWER_LEN: usize = answer::ANSWER_LEN;

pub const PROGRAM_LEN: usize = chains::PROGRAM_LEN;

pub const STATE_LEN: usize = state::STATE_LEN;

// The longest script.
pub const SCRIPT_MOST: usize = memory::SCRIPT_MOST;

// The program's tables; its index stands behind them.
const TABLES: usize = program::SIZE;

// The analysis of a program that was read.
// Stays: here and below the parts are lent apart, as the call lends them: of a struct that held the three, each function would have to promise that it still
// holds the same ones.
fn analyze_program(
    script: &[u8],
    answer: &mut [usize],
    program: &mut [usize],
    state: &mut [usize],
    counts: Counts,
) -> Result<(), Refusal>
    requires parsed { Parsed script.now (front_of program.old) counts }
    requires parts_fresh { PartsFresh answer.old program.old state.old }
    ensures { found result answer.new ≡ analyzed (program_view script.now (front_of program.old) counts) }
{
    let (words, stamps) = state.split_at_mut(state::SIZE);
    let mut held = State {
        words,
        sizes: machine::sizes(counts),
        regs: Regs::no_entries(),
    };
    sctp::sctp(script, program, counts, answer, &mut held, stamps)?;
    publish::write_state(&held.tables(), held.regs.count, answer);
    Ok(())
}

// The script is read, the answer part cleared, and the program analyzed.
fn analyze_script(
    script: &[u8],
    answer: &mut [usize],
    program: &mut [usize],
    state: &mut [usize],
) -> Result<(), Refusal>
    requires { PartsSized answer.old program.old state.old }
    ensures { PartsAnalyzed script.now result answer.new program.new state.new }
{
    let counts = parser::read(script, &mut program[..TABLES], state)?;
    memory::clear(answer);
    analyze_program(script, answer, program, state, counts)
}

fn clear_parts(
    answer: &mut [usize],
    program: &mut [usize],
    state: &mut [usize],
    r: Result<(), Refusal>,
)
    ensures { PartsCleared r answer.old program.old state.old answer.new program.new state.new }
{
    memory::clear(program);
    memory::clear(state);
    if r.is_err() {
        memory::clear(answer);
    }
}

// Parts of the published lengths.
fn analyze_parts(
    script: &[u8],
    answer: &mut [usize],
    program: &mut [usize],
    state: &mut [usize],
) -> Result<(), Refusal>
    requires { PartsSized answer.old program.old state.old }
    ensures { PartsRan script.now result answer.new program.new state.new }
{
    let r = analyze_script(script, answer, program, state);
    clear_parts(answer, program, state, r);
    r
}

// Which blocks of a script can run. No demand is made of the script or of the memory: what it gives and leaves is `after`.
#[tactic(auto, using(crate::proofs::Laws::too_long, crate::proofs::Laws::short_answer, crate::proofs::Laws::short_program, crate::proofs::Laws::short_state))]
pub fn analyze(
    script: &[u8],
    answer: &mut [usize],
    program: &mut [usize],
    state: &mut [usize],
) -> Result<(), Refusal>
    ensures { after script.now (lent answer.old program.old state.old)
        ≡ left (number_of result) (lent answer.new program.new state.new) }
{
    if SCRIPT_MOST < script.len() {
        return Err(Refusal::ScriptTooLong);
    }
    // Stays: three tests of one refusal and three slices: `get_mut(..).ok_or(..)?` for each part was tried, and is no plainer: some six lines fewer here, and
    // answers for five goals that the check finds alone so.
    if answer.len() < ANSWER_LEN {
        return Err(Refusal::MemoryTooShort);
    }
    if program.len() < PROGRAM_LEN {
        return Err(Refusal::MemoryTooShort);
    }
    if state.len() < STATE_LEN {
        return Err(Refusal::MemoryTooShort);
    }
    analyze_parts(
        script,
        &mut answer[..ANSWER_LEN],
        &mut program[..PROGRAM_LEN],
        &mut state[..STATE_LEN],
    )
}
