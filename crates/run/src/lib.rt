// The run of the analysis to its end, over the table of instructions.
#![tactic(auto)]

ghost use Rattle.records.specs.Records.{Holds};
ghost use Rattle.state.specs.Acted.{acted_of};
ghost use Rattle.state.specs.Methods.{Lent};
ghost use Rattle.machine.specs.Analysed.{Analysed};
ghost use Rattle.settled.specs.Reads.{whole};
ghost use Rattle.steps.specs.Steps.{Front};
ghost use Rattle.run.specs.Runs.{StampsFresh, Reaching, RunRan};

use ids::InsnId;
use machine::Tables;
use records::Record;
use refusals::Refusal;
use state::State;

// The instruction that the next step takes; 0 where it takes a block.
// Stays: 0 where a block is next: `step` looks at the registers itself, and an option would say the same a second time.
fn front(state: &State) -> InsnId
    ensures { Front state.now.sizes state.now.words.now state.now.regs result.0 }
{
    if steps::block_next(state.regs) {
        return InsnId(0);
    }
    state.front_insn()
}

// Stays: that tables, state and stamps fit are clauses, since each is lent apart: so no change of the state has to promise that the tables stay.
// Steps until nothing waits; t is the table of the program's instructions, and there are no stamps yet. The epoch rises whenever kinds, live blocks or callers may have changed.
pub fn run(
    t: &[Record],
    tables: &Tables,
    state: &mut State,
    stamps: &mut [usize],
) -> Result<(), Refusal>
    requires analysed { Analysed tables.now.code.program.script.now tables.now.code.program.words.now tables.now.code.program.counts
        tables.now.code.chains.now tables.now.users.now state.old.sizes }
    requires holds { Holds t.now tables.now.code.program.words.now tables.now.code.program.counts }
    requires stamps_fresh { StampsFresh state.old.sizes (whole state.old stamps.old) state.old.regs }
    requires reaching { Reaching tables.now.code.program.script.now tables.now.code.program.words.now tables.now.code.program.counts
        state.old.sizes state.old.words.now state.old.regs }
    ensures { Lent state.old state.new × RunRan tables.now.code.program.script.now tables.now.code.program.words.now tables.now.code.program.counts
        state.old.sizes state.new.words.now (acted_of state.new.regs result) }
{
    // The stamp 0 is none, so no epoch is 0.
    let mut epoch = 1;
    while !state.at_rest() {
        let i = front(state);
        let insn = records::read(t, i.index());
        epoch = steps::step(tables, state, stamps, i, insn, epoch)?;
    }
    Ok(())
}
