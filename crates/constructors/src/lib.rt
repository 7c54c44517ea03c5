// The attributes that a constructor surely sets.
#![tactic(auto)]

pub mod firsts;
pub mod view;

ghost use Rattle.std.specs.Prelude.{◌≡◌, eqb, ℕ, ◌+◌, ◌*◌, ◌≤◌, ◌<◌, length, get_or};
ghost use Rattle.rules.specs.Lists.{any};
ghost use Rattle.constructors.specs.Layout.{walk_size};
ghost use Rattle.constructors.specs.Walks.{ends_from, targets, returning, Ended, WalkGood, WalkDid, visit_of, walk_of, Walked};
ghost use Rattle.constructors.specs.Flows.{FlowPlaced, Before, NamedIs, SetsIs, Surely, FlowAnalyzed};

use ids::{BlockId, ClassId};
use program::{Name, Op};
use refusals::Refusal;
pub use view::Flow;

// The work memory: whether a block was visited, the blocks left behind, and what is set at the end of each.
const ORDER: usize = memory::BLOCKS_ROOM;

const OUTS: usize = ORDER + memory::BLOCKS_ROOM;

pub const WORK: usize = OUTS + memory::BLOCKS_ROOM;

// How a block ends.
#[derive(Clone, Copy)]
pub enum Ends {
    Return,
    Jump(BlockId),
    IfTrue(BlockId, BlockId),
    Open,
}

fn ends_from(op: Op) -> Ends
    ensures { result ≡ ends_from op }
{
    match op {
        Op::Jump(b) => Ends::Jump(b),
        Op::IfTrue(b, e) => Ends::IfTrue(b, e),
        Op::Return => Ends::Return,
        Op::SendStatic(_)
        | Op::SendDynamic(_)
        | Op::Compute(_)
        | Op::Phi(_, _)
        | Op::Param(_)
        | Op::SelfParam(_)
        | Op::New(_)
        | Op::GetIvar(_)
        | Op::SetIvar(_) => Ends::Open,
    }
}

impl Ends {
    // Whether a block that ends so leads to block t.
    fn leads(self, t: BlockId) -> bool
        ensures { result ≡ any (eqb t.0) (targets self) }
    {
        match self {
            Ends::Jump(a) => t == a,
            Ends::IfTrue(a, b) => t == a || t == b,
            Ends::Return | Ends::Open => false,
        }
    }

    fn returns(self) -> bool
        ensures { result ≡ returning self }
    {
        matches!(self, Ends::Return)
    }
}

// ---- the walk

// The work memory, and how many blocks were left behind so far.
#[derive(Drop)]
struct Order<'a> {
    words: &'a mut [usize],
    done: usize,
    ghost long: { walk_size ≤ length words.now },
}

impl<'a> Flow<'a> {
    // How block b ends: by its last instruction.
    fn end_of(&self, b: BlockId) -> Ends
        // Stays: an id's bound is its program's count; no type of the id alone can say it.
        requires { b.0 < self.now.indexed.program.counts.blocks }
        ensures { Ended self.now.indexed.program.words.now self.now.indexed.program.counts b.0 result }
    {
        match self.indexed.code(b).last() {
            Some(i) => ends_from(self.indexed.program.insn(i).op),
            None => Ends::Open,
        }
    }

    // Visits block b unless it was visited.
    #[cycle(walk)]
    fn visit(&self, order: &mut Order, b: BlockId)
        requires walk_good { WalkGood self.now.indexed.program.counts.blocks order.old.words.now order.old.done }
        requires b_lt_blocks { b.0 < self.now.indexed.program.counts.blocks }
        ensures loan { order.new.words.ghost_name ≡ order.old.words.ghost_name }
        ensures did { WalkDid (visit_of self.now.indexed.program.words.now self.now.indexed.program.counts b.0) self.now.indexed.program.counts.blocks
            order.old.words.now order.old.done order.new.words.now order.new.done }
    {
        if order.words[b.index()] == 0 {
            self.walk(order, b);
        }
    }

    // Visits block b, which was not visited, and what it leads to; then leaves it behind.
    #[cycle(walk)]
    fn walk(&self, order: &mut Order, b: BlockId)
        requires walk_good { WalkGood self.now.indexed.program.counts.blocks order.old.words.now order.old.done }
        requires b_lt_blocks { b.0 < self.now.indexed.program.counts.blocks }
        requires b_value { get_or order.old.words.now b.0 0 ≡ 0 }
        ensures loan { order.new.words.ghost_name ≡ order.old.words.ghost_name }
        ensures did { WalkDid (walk_of self.now.indexed.program.words.now self.now.indexed.program.counts b.0) self.now.indexed.program.counts.blocks
            order.old.words.now order.old.done order.new.words.now order.new.done }
    {
        let at = b.index();
        order.words[at] = 1;
        match self.end_of(b) {
            Ends::Return | Ends::Open => {}
            Ends::Jump(t) => self.visit(order, t),
            Ends::IfTrue(t, u) => {
                self.visit(order, t);
                self.visit(order, u);
            }
        }
        order.words[ORDER + order.done] = at;
        order.done += 1;
    }

    // The blocks that a block leads to, in post-order.
    fn order_from<'s>(&self, scratch: &'s mut [usize], b: BlockId) -> Order<'s>
        requires walk_size_in_bounds { (walk_size ≤ length scratch.old) × (b.0 < self.now.indexed.program.counts.blocks) }
        ensures loan { result.words.ghost_name ≡ scratch.entry.ghost_name }
        ensures walked { Walked self.now.indexed.program.words.now self.now.indexed.program.counts b.0 result.words.now result.done }
    {
        chains::fill(scratch, 0, ORDER, 0);
        let mut order = Order {
            words: scratch,
            done: 0,
        };
        self.walk(&mut order, b);
        order
    }

    // The blocks that a block leads to, in post-order; how many there are.
    pub fn walk_from(&self, scratch: &mut [usize], b: BlockId) -> usize
        requires walk_size_in_bounds { (walk_size ≤ length scratch.old) × (b.0 < self.now.indexed.program.counts.blocks) }
        ensures { Walked self.now.indexed.program.words.now self.now.indexed.program.counts b.0 scratch.new result }
    {
        self.order_from(scratch, b).done
    }
}

// ---- what is surely set

impl<'a> Flow<'a> {
    // The attributes that are set at the end of all blocks done, from place i of the order on, that lead to block b; none where there is no such block.
    fn before(&self, order: &Order, i: usize, b: BlockId) -> usize
        requires flow_placed { FlowPlaced self.now.indexed.program.counts.blocks order.now.words.now order.now.done }
        requires i_le_done { i ≤ order.now.done }
        ensures { Before self.now.indexed.program.words.now self.now.indexed.program.counts order.now.words.now order.now.done i b.0 result }
    {
        let mut bits = None;
        for q in (i..order.done).rev() {
            let d = BlockId(order.words[ORDER + q] as u32);
            if self.end_of(d).leads(b) {
                bits = Some(order.words[OUTS + q] & bits.unwrap_or(usize::MAX));
            }
        }
        bits.unwrap_or(0)
    }

    // The attribute places of a class that bear a name.
    fn named(&self, k: ClassId, name: Name) -> Option<usize>
        requires { k.0 < self.now.indexed.program.counts.classes }
        ensures { NamedIs self.now.indexed.program.script.now self.now.indexed.program.words.now self.now.indexed.program.counts k.0 name result }
    {
        let program = &self.indexed.program;
        let wanted = program.name(name);
        let mut bits = 0;
        for a in 0..lookups::ivars_of(program, k) {
            if lookups::is_ivar(program, k, a, wanted) {
                bits |= 1 << a;
            }
        }
        (bits != 0).then_some(bits)
    }

    // The attributes of class k that a block sets, or that one of them is not declared.
    fn sets_of(&self, k: ClassId, b: BlockId) -> Result<usize, Refusal>
        requires k_lt_classes { (k.0 < self.now.indexed.program.counts.classes) × (b.0 < self.now.indexed.program.counts.blocks) }
        ensures { SetsIs self.now.indexed.program.script.now self.now.indexed.program.words.now self.now.indexed.program.counts k.0 b.0 result }
    {
        let mut bits = 0;
        for i in self.indexed.code(b) {
            if let Op::SetIvar(name) = self.indexed.program.insn(i).op {
                let places = self.named(k, name).ok_or(Refusal::UndeclaredAttribute)?;
                bits |= places;
            }
        }
        Ok(bits)
    }

    // The attributes that are set at every return, or that a block reached sets one that is not declared: one pass over the order, the last left behind first.
    fn surely(&self, order: &mut Order, k: ClassId) -> Result<usize, Refusal>
        requires flow_placed { FlowPlaced self.now.indexed.program.counts.blocks order.old.words.now order.old.done }
        requires k_lt_classes { k.0 < self.now.indexed.program.counts.classes }
        ensures { Surely self.now.indexed.program.script.now self.now.indexed.program.words.now self.now.indexed.program.counts k.0
            order.old.words.now order.old.done result }
    {
        let mut set = usize::MAX;
        for i in (0..order.done).rev() {
            let b = BlockId(order.words[ORDER + i] as u32);
            let ins = self.before(order, i + 1, b);
            let own = self.sets_of(k, b)?;
            let out = own | ins;
            order.words[OUTS + i] = out;
            if self.end_of(b).returns() {
                set = out & set;
            }
        }
        Ok(set)
    }

    // The attributes of class k that its constructor, whose entry is block b, surely sets; question 13.
    pub fn analyze_ctor(
        &self,
        scratch: &mut [usize],
        k: ClassId,
        b: BlockId,
    ) -> Result<usize, Refusal>
        requires walk_size_in_bounds { (walk_size ≤ length scratch.old) × ((k.0 < self.now.indexed.program.counts.classes) × (b.0 < self.now.indexed.program.counts.blocks)) }
        ensures { FlowAnalyzed self.now.indexed.program.script.now self.now.indexed.program.words.now self.now.indexed.program.counts k.0 b.0 result }
    {
        let mut order = self.order_from(scratch, b);
        self.surely(&mut order, k)
    }
}
