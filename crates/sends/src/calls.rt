// A call of a function: a new caller makes the function's entry wait.
ghost use Rattle.std.specs.Prelude.{◌<◌};
ghost use Rattle.rules.specs.Machine.{add_call};
ghost use Rattle.state.specs.Methods.{Did};
ghost use Rattle.sends.specs.calls.Calls.{CallIs};

use ids::{BlockId, FunId, InsnId};
use refusals::Refusal;
use state::State;

// Instruction i, which has `args` arguments, calls f, which has `params` Params; 16 where they are more.
// Stays: six arguments and two clauses: no number's type knows the state's sizes, and a send asks it for one method after the other, each with its own f, entry and Params.
#[tactic(auto, using(crate::proofs::calls::Adding::full))]
pub fn add_call(
    state: &mut State,
    i: InsnId,
    f: FunId,
    entry: BlockId,
    params: usize,
    args: usize,
) -> Result<(), Refusal>
    requires f_lt_functions { (f.0 < state.old.sizes.functions) × (i.0 < state.old.sizes.insns) }
    requires lt_blocks { entry.0 < state.old.sizes.blocks }
    ensures { Did (CallIs i.0 f.0 entry.0 params args) (λ L p. add_call L p i.0 f.0) state.old state.new result }
{
    if !state.add_caller(f, i) {
        return Ok(());
    }
    state.push_block(entry)?;
    if params <= args {
        return Ok(());
    }
    Err(Refusal::MissingArgument)
}
