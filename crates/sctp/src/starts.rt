// The start of the analysis: the attributes' first kinds, then the main entry goes live.
ghost use Rattle.std.specs.Prelude.{◌≤◌, ◌<◌, length};
ghost use Rattle.rules.specs.Program.{Limits};
ghost use Rattle.machine.specs.Analysed.{Suited, Indexed as Analysable};
ghost use Rattle.state.specs.Acted.{acted_of};
ghost use Rattle.state.specs.View.{StateCleared};
ghost use Rattle.state.specs.Methods.{Lent};
ghost use Rattle.constructors.specs.Layout.{walk_size};
ghost use Rattle.sctp.specs.starts.Starts.{Mains, Started};

use chains::Indexed;
use constructors::Flow;
use ids::BlockId;
use program::Program;
use refusals::Refusal;
use state::{Regs, State};

// Where the state has the attributes' kinds: the bytes, and the payloads.
const TAGS: usize = state::IVARS;

const PAYLOADS: usize = state::IVAR_BITS;

// The block that the main function begins with.
fn main_entry(program: &Program) -> BlockId
    requires suited { (L : Limits) × Suited program.now.script.now program.now.words.now program.now.counts L }
    requires functions_nonzero { 0 < program.now.counts.functions }
    ensures { Mains program.now.script.now program.now.words.now program.now.counts result.0 }
{
    program.fun(lookups::main_function(program)).entry
}

// Stays: that a state is of the program's sizes is a clause, since tables and state are lent apart: so no change of the state has to promise that the tables stay.
// Question 12, then 13; y is work memory. Nothing waits before it, whatever the registers held.
pub fn start(code: &Indexed, y: &mut [usize], state: &mut State) -> Result<(), Refusal>
    requires indexed { Analysable code.now.program.script.now code.now.program.words.now code.now.program.counts code.now.chains.now state.old.sizes }
    requires walk_size_in_bounds { walk_size ≤ length y.old }
    requires state_cleared { StateCleared state.old.sizes state.old.words.now }
    ensures { Lent state.old state.new × Started code.now.program.script.now code.now.program.words.now code.now.program.counts state.old.sizes
        state.new.words.now (acted_of state.new.regs result) }
{
    state.regs = Regs::no_entries();
    if code.program.counts.functions == 0 {
        return Err(Refusal::NoFunction);
    }
    let flow = Flow { indexed: *code };
    constructors::firsts::all_first_kinds(&flow, y, state.words, TAGS, PAYLOADS)?;
    let b = main_entry(&code.program);
    machine::blocks::go_live(state, code.chains, b)
}
