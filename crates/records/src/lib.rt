// The instructions as records in one lent table.
#![tactic(auto)]

ghost use Rattle.std.specs.Prelude.{◌≡◌, ◌+◌, ◌<◌, length, get_or, set, replicate};
ghost use Rattle.memory.specs.Layout.{instructions_most};
ghost use Rattle.records.specs.Records.{none, record_at, row_of, Holds};
ghost use Rattle.records.specs.Accesses.{Accesses};

use ids::BlockId;
use program::{Op, Program, Row};

// An instruction's record, in plain numbers.
// Stays: for this table document 01 names records of plain fields, with one function that reads one and one that appends; a `Row` would hold the same with enums.
#[derive(Clone, Copy)]
pub struct Record {
    pub tag: usize,
    pub block: usize,
    pub x: usize,
    pub y: usize,
    pub first: usize,
    pub count: usize,
}

// What an instruction does to an attribute: it neither reads nor sets one, reads one, or sets one.
#[derive(Clone, Copy)]
pub enum Access {
    Neither,
    Read,
    Setting,
}

impl Record {
    // What stands at every place of an empty table: zeros.
    pub const NONE: Record = Record {
        tag: 0,
        block: 0,
        x: 0,
        y: 0,
        first: 0,
        count: 0,
    };

    // The record of an instruction that the parser drafted in the program's words.
    #[tactic(auto, unfolding(crate::specs::Records::record_at))]
    pub fn drafted(program: &Program, i: usize) -> Record
        requires { i < program.now.counts.insns }
        ensures { result ≡ record_at program.now.words.now i }
    {
        let at = program::INSNS + program::INSN_WORDS * i;
        Record {
            tag: program.words[at],
            block: program.words[at + 1],
            x: program.words[at + 2],
            y: program.words[at + 3],
            first: program.words[at + 4],
            count: program.words[at + 5],
        }
    }

    // What a record means.
    #[tactic(auto, unfolding(crate::specs::Records::row_of))]
    pub fn row(self) -> Row
        ensures { result ≡ row_of self }
    {
        Row {
            block: BlockId(ids::number_in(self.block)),
            op: program::op_from(self.tag, self.x, self.y),
            first: self.first,
            count: self.count,
        }
    }

    // What the instruction does to an attribute.
    pub fn access(self) -> Access
        ensures { Accesses self.tag result }
    {
        match self.row().op {
            Op::GetIvar(_) => Access::Read,
            Op::SetIvar(_) => Access::Setting,
            _ => Access::Neither,
        }
    }
}

// The one function that reads a record of the table.
pub fn read(t: &[Record], i: usize) -> Record
    requires { i < length t.now }
    ensures { result ≡ get_or t.now i none }
{
    t[i]
}

// The one function that writes a record of the table: x goes to place n; the next place.
pub fn append(t: &mut [Record], n: usize, x: Record) -> usize
    requires { n < length t.old }
    ensures { (result ≡ n + 1) × (t.new ≡ set t.old n x) }
{
    t[n] = x;
    n + 1
}

// A table before anything is appended.
// Stays: there is no heap, so the table is an array that its user keeps.
pub fn empty() -> [Record; memory::INSTRUCTIONS_MOST]
    ensures { result ≡ replicate instructions_most none }
{
    [Record::NONE; memory::INSTRUCTIONS_MOST]
}

// The instructions that the parser drafted are appended to the table.
pub fn commit(t: &mut [Record], program: &Program)
    requires { length t.old ≡ instructions_most }
    ensures { Holds t.new program.now.words.now program.now.counts }
{
    for k in 0..program.counts.insns {
        append(t, k, Record::drafted(program, k));
    }
}
