// A program with the chains of its instructions.
ghost use Rattle.chains.specs.Chains.{Index};
ghost use Rattle.chains.specs.Once.{Index-prop};

use crate::{Chain, Sort};
use ids::{BlockId, FunId};
use program::Program;

#[derive(Clone, Copy)]
pub struct Indexed<'a> {
    pub program: Program<'a>,
    pub chains: &'a [usize],
    pub ghost index: { Index program.words.now program.counts chains.now } by { Index-prop program.words.now program.counts chains.now },
}

impl<'a> Indexed<'a> {
    ghost use Rattle.std.specs.Prelude.{◌≡◌, List, ℕ, ◌<◌};
    ghost use Rattle.rules.specs.Program.{code};
    ghost use Rattle.memory.specs.Layout.{blocks_room};
    ghost use Rattle.program.specs.View.{program_view};
    ghost use Rattle.chains.specs.Chains.{returns_of};
    ghost use Rattle.chains.specs.Left.{left};

    // The instructions of block b.
    pub fn code(&self, b: BlockId) -> Chain<'a>
        requires { b.0 < self.now.program.counts.blocks }
        ensures { (s : List ℕ) → left result ≡ code (program_view s self.now.program.words.now self.now.program.counts) b.0 }
    {
        Chain::new(
            self.chains,
            Sort::Code,
            b.index(),
            self.program.counts.insns,
        )
    }

    // The Returns of function f.
    // Stays: beside `code`, since both are one call of `Chain::new`, by an id of another sort and with another list as their promise.
    pub fn returns(&self, f: FunId) -> Chain<'a>
        requires { f.0 < blocks_room }
        ensures { (s : List ℕ) → left result ≡ returns_of (program_view s self.now.program.words.now self.now.program.counts) f.0 }
    {
        Chain::new(
            self.chains,
            Sort::Returns,
            f.index(),
            self.program.counts.insns,
        )
    }
}
