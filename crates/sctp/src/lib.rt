// The analysis of a program that was read: chains and users, the start, and the run to its end.
#![tactic(auto)]

pub mod starts;

ghost use Rattle.std.specs.Prelude.{◌≡◌, ◌≤◌, length};
ghost use Rattle.program.specs.View.{ProgramReady};
ghost use Rattle.state.specs.Acted.{acted_of};
ghost use Rattle.state.specs.View.{StateHeld, StateCleared, no_entries};
ghost use Rattle.state.specs.Methods.{Lent};
ghost use Rattle.answer.specs.Layout.{answer_length};
ghost use Rattle.machine.specs.Analysed.{Indexed as Analysable, Analysed};
ghost use Rattle.memory.specs.Layout.{instructions_most};
ghost use Rattle.settled.specs.Reads.{whole};
ghost use Rattle.run.specs.Runs.{StampsFresh, Reaching, RunRan};
ghost use Rattle.chains.specs.Layout.{chains_size, program_length};
ghost use Rattle.sctp.specs.Sctp.{tables_of, Given, SctpChained, SctpAside, StartsAside, Begins, Ends, Analyses};

use chains::Indexed;
use machine::Tables;
use program::{Counts, Program};
use refusals::Refusal;
use state::{Regs, Sizes, State};

// The chains of the index are made in work memory, and what is in use of them goes behind the program's tables.
// Stays: script, words and counts stand apart here, since the C interface lends the tables and the room for their chains as one memory: a Program borrows its front part alone, for reading.
fn lay_index(script: &[u8], program: &mut [usize], counts: Counts, scratch: &mut [usize])
    requires program_ready { ProgramReady (tables_of program.old) counts }
    requires program_len { length program.old ≡ program_length }
    requires scratch_len { chains_size ≤ length scratch.old }
    ensures { SctpChained counts program.old program.new }
{
    let tables = Program {
        script,
        words: &program[..program::SIZE],
        counts,
    };
    chains::build_index(&tables, &mut scratch[..chains::SIZE]);
    chains::copy_index(&scratch[..chains::SIZE], counts, program, program::SIZE);
}

// What the start finds clear: the kinds, live blocks, callers and reads of as many things as the program has.
fn clear_tables(words: &mut [usize], sizes: Sizes)
    requires { StateHeld sizes words.old }
    ensures { StateCleared sizes words.new }
{
    words[..sizes.insns].fill(0);
    words[state::LIVE..state::LIVE + sizes.blocks].fill(0);
    words[state::CALLERS..state::CALLERS + memory::ROW_WORDS * sizes.functions].fill(0);
    words[state::READS..state::READS + memory::ROW_WORDS * sizes.classes].fill(0);
}

// The answer's callers are cleared.
// Stays: how long the answer is stands as a clause, here and below, since the C interface lends it as bare words, and users and callers are parts of them by their places.
fn clear_callers(users: &mut [usize])
    requires { length users.old ≡ answer_length }
    ensures { SctpAside users.old users.new }
{
    memory::clear(&mut users[answer::CALLERS..]);
}

// The start; the answer's callers are its work memory.
// Stays: that a state is of the program's sizes is a clause, since tables and state are lent apart: so no change of the state has to promise that the tables stay.
fn start_aside(code: &Indexed, users: &mut [usize], state: &mut State) -> Result<(), Refusal>
    requires indexed { Analysable code.now.program.script.now code.now.program.words.now code.now.program.counts code.now.chains.now state.old.sizes }
    requires users_len { length users.old ≡ answer_length }
    requires state_cleared { StateCleared state.old.sizes state.old.words.now }
    ensures { Lent state.old state.new × StartsAside code.now.program.script.now code.now.program.words.now code.now.program.counts state.old.sizes
        users.old users.new state.new.words.now (acted_of state.new.regs result) }
{
    starts::start(code, &mut users[answer::CALLERS..], state)
}

fn begin(code: &Indexed, users: &mut [usize], state: &mut State) -> Result<(), Refusal>
    requires indexed { Analysable code.now.program.script.now code.now.program.words.now code.now.program.counts code.now.chains.now state.old.sizes }
    requires users_len { length users.old ≡ answer_length }
    requires nothing_waits { state.old.regs ≡ no_entries }
    ensures { Lent state.old state.new × Begins code.now.program.script.now code.now.program.words.now code.now.program.counts state.old.sizes
        users.old users.new state.new.words.now (acted_of state.new.regs result) }
{
    let sizes = state.sizes;
    clear_tables(state.words, sizes);
    let r = start_aside(code, users, state);
    clear_callers(users);
    r
}

// The run over a table of its own: the instructions that were drafted are appended to it, and it is lent.
fn run_lent(tables: &Tables, state: &mut State, stamps: &mut [usize]) -> Result<(), Refusal>
    requires analysed { Analysed tables.now.code.program.script.now tables.now.code.program.words.now tables.now.code.program.counts
        tables.now.code.chains.now tables.now.users.now state.old.sizes }
    requires stamps_fresh { StampsFresh state.old.sizes (whole state.old stamps.old) state.old.regs }
    requires reaching { Reaching tables.now.code.program.script.now tables.now.code.program.words.now tables.now.code.program.counts
        state.old.sizes state.old.words.now state.old.regs }
    ensures { Lent state.old state.new × RunRan tables.now.code.program.script.now tables.now.code.program.words.now tables.now.code.program.counts
        state.old.sizes state.new.words.now (acted_of state.new.regs result) }
{
    let mut t = records::empty();
    records::commit(&mut t, &tables.code.program);
    run::run(&t, tables, state, stamps)
}

// The start, then the run, with no stamp for any instruction.
fn analyse(
    code: &Indexed,
    users: &mut [usize],
    state: &mut State,
    stamps: &mut [usize],
) -> Result<(), Refusal>
    requires analysed { Analysed code.now.program.script.now code.now.program.words.now code.now.program.counts code.now.chains.now users.old state.old.sizes }
    requires users_len { length users.old ≡ answer_length }
    requires stamps_len { length stamps.old ≡ instructions_most }
    requires nothing_waits { state.old.regs ≡ no_entries }
    ensures { Lent state.old state.new × Ends code.now.program.script.now code.now.program.words.now code.now.program.counts state.old.sizes
        users.old users.new state.new.words.now (acted_of state.new.regs result) }
{
    begin(code, users, state)?;
    let n = state.sizes.insns;
    stamps[..n].fill(0);
    let tables = Tables { code: *code, users };
    run_lent(&tables, state, stamps)
}

// The analysis of the program that the tables in front of p stand for; the state's words and the stamps may hold anything.
pub fn sctp(
    script: &[u8],
    program: &mut [usize],
    counts: Counts,
    users: &mut [usize],
    state: &mut State,
    stamps: &mut [usize],
) -> Result<(), Refusal>
    requires { Given script.now program.old counts state.old.sizes users.old stamps.old }
    ensures { Lent state.old state.new × Analyses script.now (tables_of program.old) counts users.old users.new
        state.new.words.now (acted_of state.new.regs result) }
{
    state.regs = Regs::no_entries();
    lay_index(script, program, counts, state.words);
    let (words, chains) = program.split_at(program::SIZE);
    let tables = Program {
        script,
        words,
        counts,
    };
    uses::compute_uses(&tables, state.words, users, answer::STARTS, answer::USERS);
    let code = Indexed {
        program: tables,
        chains,
    };
    analyse(&code, users, state, stamps)
}
