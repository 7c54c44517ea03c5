// For each instruction the instructions that use its result, in lent memory.
#![tactic(auto)]

ghost use Rattle.std.specs.Prelude.{◌≡◌, ℕ, ◌+◌, ◌*◌, ◌≤◌, ◌<◌, length, get_or};
ghost use Rattle.memory.specs.Layout.{instructions_most, uses_most};
ghost use Rattle.uses.specs.Layout.{uses_size};
ghost use Rattle.uses.specs.Users.{most_of, used_at, first_of, UsersPut, Linked, Uses};

use ids::InsnId;
use program::{Op, Opnd, Program};

// The work memory: the first cell of each instruction, then each cell's user and next cell.
const ITEMS: usize = memory::INSTRUCTIONS_MOST;

const LINKS: usize = ITEMS + memory::USES_MOST;

pub const WORK: usize = LINKS + memory::USES_MOST;

// How many operands a sort can have.
fn most(op: Op) -> usize
    ensures { result ≡ most_of op }
{
    match op {
        Op::Jump(_) | Op::Param(_) | Op::SelfParam(_) | Op::New(_) => 0,
        Op::IfTrue(_, _) | Op::Return | Op::GetIvar(_) => 1,
        Op::Compute(_) | Op::Phi(_, _) | Op::SetIvar(_) => 2,
        Op::SendStatic(_) | Op::SendDynamic(_) => memory::USES_MOST,
    }
}

// The users while they are linked, in lent memory. The cells below `free` are not in use.
// Stays: there is no heap, so each user stands in a cell with the number of the next; a number that is no cell's ends a list.
#[derive(Drop)]
struct Cells<'a> {
    words: &'a mut [usize],
    free: usize,
    ghost long: { uses_size ≤ length words.now },
    ghost few: { free ≤ uses_most },
}

impl<'a> Cells<'a> {
    // The user in a cell.
    fn user(&self, h: usize) -> Option<usize>
        ensures { result ≡ first_of self.now.words.now h }
    {
        if h < memory::USES_MOST {
            Some(self.words[ITEMS + h])
        } else {
            None
        }
    }

    // Instruction i goes in front of the users of j, unless it is there.
    fn link(&mut self, i: usize, j: usize)
        requires some_free { 0 < self.old.free }
        requires i_lt_instructions_most { (i < instructions_most) × (j < instructions_most) }
        ensures { UsersPut self.old.free i j self.old.words.now self.new.words.now self.new.free }
    {
        let h = self.words[j];
        if self.user(h) == Some(i) {
            return;
        }
        let d = self.free - 1;
        self.words[ITEMS + d] = i;
        self.words[LINKS + d] = h;
        self.words[j] = d;
        self.free = d;
    }

    // Instruction i is linked to those that it uses.
    fn link_insn(&mut self, program: &Program, i: InsnId)
        // Stays: an id's bound is its program's count; no type of the id alone can say it.
        requires i_lt_insns { i.0 < program.now.counts.insns }
        requires linked { Linked program.now.words.now program.now.counts.insns (i.0 + 1) self.old.free self.old.words.now }
        ensures { Linked program.now.words.now program.now.counts.insns i.0 self.new.free self.new.words.now }
    {
        let n = program.counts.insns;
        let row = program.insn(i);
        let used = row.count.min(most(row.op));
        for q in 0..used {
            if let Opnd::Insn(j) = program.operand(row, q) {
                let k = j.index();
                if k < n {
                    self.link(i.index(), k);
                }
            }
        }
    }

    // All instructions, from the last down.
    fn linked(program: &Program, words: &'a mut [usize]) -> Cells<'a>
        requires { uses_size ≤ length words.old }
        ensures { Linked program.now.words.now program.now.counts.insns 0 result.free result.words.now }
    {
        chains::fill(words, 0, ITEMS, memory::USES_MOST);
        let mut cells = Cells {
            words,
            free: memory::USES_MOST,
        };
        for i in (0..program.counts.insns).rev() {
            cells.link_insn(program, InsnId(i as u32));
        }
        cells
    }
}

// The users of instruction i stand at users + u[starts + i] up to users + u[starts + i + 1].
// Stays: the starts and the users are parts of one lent memory, of which the contract says too that nothing else in it changes.
pub fn compute_uses(
    program: &Program,
    scratch: &mut [usize],
    u: &mut [usize],
    starts: usize,
    users: usize,
)
    requires uses_size_in_bounds { uses_size ≤ length scratch.old }
    requires instructions_most_bound { (starts + (instructions_most + 1) ≤ users) × (users + uses_most ≤ length u.old) }
    ensures { Uses program.now.words.now program.now.counts starts users u.old u.new }
{
    let cells = Cells::linked(program, scratch);
    let n = program.counts.insns;
    let mut pos = 0;
    for j in 0..n {
        u[starts + j] = pos;
        let mut h = cells.words[j];
        // Stays: the cells of an instruction are linked, so no slice has them in their order.
        while let Some(i) = cells.user(h) {
            // There is a place for each use.
            prove!(pos < memory::USES_MOST);
            u[users + pos] = i;
            h = cells.words[LINKS + h];
            pos += 1;
        }
    }
    u[starts + n] = pos;
}
