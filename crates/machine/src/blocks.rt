// A block goes live by the chain of its instructions, and one entry of the block worklist is taken.
ghost use Rattle.std.specs.Prelude.{◌<◌, ◌^◌};
ghost use Rattle.rules.specs.Program.{code};
ghost use Rattle.rules.specs.Machine.{go_live, take_block};
ghost use Rattle.state.specs.Changes.{push_all};
ghost use Rattle.state.specs.Methods.{Did};
ghost use Rattle.machine.specs.blocks.Blocks.{HasCode, CodeIs, Stepped, blocks_in};

use chains::{Chain, Sort};
use ids::BlockId;
use refusals::Refusal;
use state::State;

// Stays: the clauses of chains and block bound them by the state's sizes, and the chains are lent apart from the state.
// The instructions of block b wait, or 20.
fn push_code(state: &mut State, chains: &[usize], b: BlockId) -> Result<(), Refusal>
    requires has_code { HasCode state.old.sizes chains.now }
    requires b_lt_blocks { b.0 < state.old.sizes.blocks }
    ensures { Did (CodeIs state.old.sizes chains.now) (λ L p. push_all L p (code p b.0)) state.old state.new result }
{
    for i in Chain::new(chains, Sort::Code, b.index(), state.sizes.insns) {
        state.push_insn(i)?;
    }
    Ok(())
}

pub fn go_live(state: &mut State, chains: &[usize], b: BlockId) -> Result<(), Refusal>
    requires has_code { HasCode state.old.sizes chains.now }
    requires b_lt_blocks { b.0 < state.old.sizes.blocks }
    ensures { Did (CodeIs state.old.sizes chains.now) (λ L p. go_live L p b.0) state.old state.new result }
{
    if state.is_live(b) {
        return Ok(());
    }
    state.set_live(b);
    push_code(state, chains, b)
}

// The block in front is taken off, and goes live.
#[tactic(auto, using(crate::proofs::blocks::Live::block_stepped))]
pub fn step_block(state: &mut State, chains: &[usize]) -> Result<(), Refusal>
    requires has_code { HasCode state.old.sizes chains.now }
    requires len_nonzero { (0 < state.old.regs.blocks.len) × (state.old.regs.count < 2 ^ 63) }
    ensures { Stepped (CodeIs state.old.sizes chains.now) (λ L p s. take_block L p (blocks_in s) s) state.old state.new result }
{
    let b = state.take_block();
    go_live(state, chains, b)
}
