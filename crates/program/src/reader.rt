// A program that is read.
ghost use Rattle.std.specs.Prelude.{◌≡◌, map, ◌+◌, ◌*◌, ◌≤◌, ◌<◌};
ghost use Rattle.program.specs.View.{ProgramReady};

use crate::{
    BLOCKS, CLASS_WORDS, CLASSES, Counts, FUNCTION_WORDS, FUNCTIONS, Function, INSN_WORDS, INSNS,
    Name, OPNDS, Opnd, Row, op_from, owner_from, read_opnd,
};
use ids::{BlockId, ClassId, FunId, InsnId};

// The script, the words that its tables stand in, and how many rows of each are in use.
#[derive(Clone, Copy)]
pub struct Program<'a> {
    pub script: &'a [u8],
    pub words: &'a [usize],
    pub counts: Counts,
    pub ghost ready: { ProgramReady words.now counts },
}

impl<'a> Program<'a> {
    ghost use Rattle.program.specs.Layout.{opnds_at};
    ghost use Rattle.program.specs.Rows.{opnds_in, opnd_of, nth, name_in};
    ghost use Rattle.program.specs.View.{OwnsFrom, ReadsInsn, ReadsFun, ReadsBlock};

    // The bytes of a name.
    pub fn name(&self, n: Name) -> &'a [u8]
        ensures { result.now ≡ name_in self.now.script.now n }
    {
        n.of(self.script)
    }

    // An instruction, from its row.
    // Stays: an instruction's number doesn't hold the program that it belongs to, so that it is below the count is said where it is used;
    // so is a function's and a block's.
    pub fn insn(&self, i: InsnId) -> Row
        requires { i.0 < self.now.counts.insns }
        ensures { ReadsInsn self.now.words.now self.now.counts i.0 result }
    {
        let at = INSNS + INSN_WORDS * i.index();
        Row {
            block: BlockId(ids::number_in(self.words[at + 1])),
            op: op_from(self.words[at], self.words[at + 2], self.words[at + 3]),
            first: self.words[at + 4],
            count: self.words[at + 5],
        }
    }

    // Operand j of an instruction.
    #[tactic(auto, using(crate::proofs::Reading::operand_read))]
    pub fn operand(&self, x: Row, j: usize) -> Opnd
        requires { (x.first + x.count ≤ self.now.counts.opnds) × (j < x.count) }
        ensures { opnd_of result ≡ nth (map opnd_of (opnds_in self.now.words.now (opnds_at + 2 * x.first) x.count)) j }
    {
        read_opnd(self.words, OPNDS + 2 * x.first + 2 * j)
    }

    pub fn fun(&self, f: FunId) -> Function
        requires { f.0 < self.now.counts.functions }
        ensures { ReadsFun self.now.words.now self.now.counts f.0 result }
    {
        let at = FUNCTIONS + FUNCTION_WORDS * f.index();
        Function {
            name: Name {
                start: self.words[at],
                len: self.words[at + 1],
            },
            class: owner_from(self.words[at + 2]),
            entry: BlockId(ids::number_in(self.words[at + 3])),
        }
    }

    // No function of class k stands below this one.
    pub fn first_function(&self, k: ClassId) -> usize
        ensures { OwnsFrom self.now.words.now self.now.counts.functions k.0 result }
    {
        let n = k.index();
        if n < self.counts.classes {
            self.words[CLASSES + CLASS_WORDS * n + 3]
        } else {
            0
        }
    }

    // The function of a block.
    #[tactic(auto, using(crate::proofs::Reading::block_read))]
    pub fn function_of(&self, b: BlockId) -> FunId
        requires { b.0 < self.now.counts.blocks }
        ensures { ReadsBlock self.now.words.now self.now.counts b.0 result.0 }
    {
        let at = BLOCKS + 2 * b.index();
        FunId(ids::number_in(self.words[at]))
    }
}
