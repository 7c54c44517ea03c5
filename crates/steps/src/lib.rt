// One step of the analysis, and the stamps that tell which visits do nothing.
// A stamp is a word for each instruction: 0 is none, else that of a read of an attribute is the set of classes for which it is settled, that of an instruction
// that neither reads nor sets one the epoch in which its visit did nothing.
// Stays: words and no enum, since the C interface lends them as the end of the state part.
#![tactic(auto)]

ghost use Rattle.std.specs.Prelude.{true, false, ◌≡◌, ◌+◌, ◌<◌, ◌^◌};
ghost use Rattle.rules.specs.Machine.{step as stepped};
ghost use Rattle.machine.specs.blocks.Blocks.{Stepped};
ghost use Rattle.machine.specs.Analysed.{Analysed, MachineFits, Steady};
ghost use Rattle.steps.specs.Stamps.{Passes};
ghost use Rattle.steps.specs.Steps.{block_next, RecordOf, Front};
ghost use Rattle.steps.specs.Methods.{insn_next, with_epoch, FacingIn, DatedIn, StampedIn, VisitedIn, TimelyIn};

use ids::InsnId;
use machine::Tables;
use program::Name;
use records::{Access, Record};
use refusals::Refusal;
use state::{Regs, State};

// The instruction in front, with its record.
#[derive(Clone, Copy)]
struct Entry {
    i: InsnId,
    insn: Record,
}

// The stamps, as they are lent, and the epoch.
#[derive(Drop)]
struct Stamping<'a> {
    words: &'a mut [usize],
    epoch: usize,
}

// Stays: that tables, state and stamps fit are clauses, since each is lent apart: so no change of the state has to promise that the tables stay.
// The instruction in front is taken off, and visited; insn is its record.
#[tactic(auto, using(crate::proofs::Methods::insn_done))]
fn step_insn(tables: &Tables, state: &mut State, insn: Record) -> Result<(), Refusal>
    requires analysed { Analysed tables.now.code.program.script.now tables.now.code.program.words.now tables.now.code.program.counts
        tables.now.code.chains.now tables.now.users.now state.old.sizes }
    requires steady { Steady tables.now.code.program.script.now tables.now.code.program.words.now tables.now.code.program.counts state.old.sizes state.old.words.now }
    requires len_nonzero { (0 < state.old.regs.insns.len) × (state.old.regs.count < 2 ^ 63) }
    requires record_of { RecordOf tables.now.code.program.words.now state.old.words.now state.old.regs insn }
    ensures { Stepped (MachineFits tables.now.code.program.script.now tables.now.code.program.words.now tables.now.code.program.counts)
        insn_next state.old state.new result }
{
    let i = state.take_insn();
    visits::visit(tables, state, i, insn.row())
}

// Whether the next entry is a block.
pub fn block_next(regs: Regs) -> bool
    ensures { result ≡ block_next regs }
{
    (regs.draining & (regs.blocks.len != 0)) | (regs.insns.len == 0)
}

impl<'a> Stamping<'a> {
    // The instruction in front is taken off and visited. Where it neither reads nor sets an attribute, and the visit left kinds, live blocks and callers, and put
    // nothing in, it is stamped with the epoch.
    fn visit_timed(
        &mut self,
        tables: &Tables,
        state: &mut State,
        entry: Entry,
    ) -> Result<(), Refusal>
        requires facing { FacingIn tables.now state.old entry.i.0 entry.insn }
        requires dated { DatedIn tables.now state.old self.old.words.now self.old.epoch }
        ensures loan { self.new.words.ghost_name ≡ self.old.words.ghost_name }
        ensures visited { VisitedIn tables.now state.old self.old.words.now state.new self.new.words.now (with_epoch self.new.epoch result) }
    {
        let kind = flows::insn_words(&state.tables(), entry.i);
        let before = state.regs;
        step_insn(tables, state, entry.insn)?;
        if (flows::insn_words(&state.tables(), entry.i) != kind)
            | (state.regs.blocks.len != before.blocks.len)
        {
            self.epoch += 1;
            return Ok(());
        }
        if matches!(entry.insn.access(), Access::Neither)
            & (state.regs.insns.len + 1 == before.insns.len)
        {
            self.words[entry.i.index()] = self.epoch;
        }
        Ok(())
    }

    // The same; a read is then stamped with those of its receiver's classes for which it is settled, and after a setting that woke reads only those stay stamped
    // whose kinds cover the kind that was set.
    fn visit_insn(
        &mut self,
        tables: &Tables,
        state: &mut State,
        entry: Entry,
    ) -> Result<(), Refusal>
        requires facing { FacingIn tables.now state.old entry.i.0 entry.insn }
        requires stamped { StampedIn tables.now state.old self.old.words.now self.old.epoch }
        ensures loan { self.new.words.ghost_name ≡ self.old.words.ghost_name }
        ensures timely { TimelyIn insn_next tables.now state.old self.old.words.now state.new self.new.words.now (with_epoch self.new.epoch result) }
    {
        let k = settled::decisive_words(&tables.code.program, &state.tables(), entry.insn);
        let waiting = state.regs.insns.len;
        self.visit_timed(tables, state, entry)?;
        match entry.insn.access() {
            Access::Neither => {}
            Access::Read => {
                let n = Name {
                    start: entry.insn.x,
                    len: entry.insn.y,
                };
                self.words[entry.i.index()] = settled::stamp(
                    &tables.code.program,
                    &state.tables(),
                    n,
                    entry.i,
                    k,
                );
            }
            Access::Setting => {
                if state.regs.insns.len + 1 != waiting {
                    settled::unsettle(tables.code.program.words, state, self.words, k);
                }
            }
        }
        Ok(())
    }

    // Whether a visit of the instruction in front surely does nothing: it is stamped with this epoch, or is a read that is settled for its receiver's classes.
    fn idle(&self, tables: &Tables, state: &State, entry: Entry) -> bool
        requires facing { FacingIn tables.now state.now entry.i.0 entry.insn }
        requires stamped { StampedIn tables.now state.now self.now.words.now self.now.epoch }
        ensures { result ≡ true → Passes tables.now.code.program.script.now tables.now.code.program.words.now tables.now.code.program.counts
            state.now.sizes state.now.words.now entry.i.0 }
    {
        match entry.insn.access() {
            Access::Neither => self.words[entry.i.index()] == self.epoch,
            Access::Read => {
                let o = settled::operand_words(
                    &tables.code.program,
                    &state.tables(),
                    entry.insn,
                    0,
                );
                o.is_set() & (self.words[entry.i.index()] == o.bits)
            }
            Access::Setting => false,
        }
    }
}

// One entry is taken off a worklist; where it is an instruction, that is i, and insn its record. A visit that surely does nothing is left out.
// The epoch after it.
pub fn step(
    tables: &Tables,
    state: &mut State,
    stamps: &mut [usize],
    i: InsnId,
    insn: Record,
    epoch: usize,
) -> Result<usize, Refusal>
    requires analysed { Analysed tables.now.code.program.script.now tables.now.code.program.words.now tables.now.code.program.counts
        tables.now.code.chains.now tables.now.users.now state.old.sizes }
    requires steady { Steady tables.now.code.program.script.now tables.now.code.program.words.now tables.now.code.program.counts state.old.sizes state.old.words.now }
    requires len_nonzero { (0 < state.old.regs.insns.len + state.old.regs.blocks.len) × (state.old.regs.count < 2 ^ 63) }
    requires record_of { block_next state.old.regs ≡ false → RecordOf tables.now.code.program.words.now state.old.words.now state.old.regs insn }
    requires front { Front state.old.sizes state.old.words.now state.old.regs i.0 }
    requires stamped { StampedIn tables.now state.old stamps.old epoch }
    ensures { TimelyIn stepped tables.now state.old stamps.old state.new stamps.new result }
{
    if block_next(state.regs) {
        machine::blocks::step_block(state, tables.code.chains)?;
        return Ok(epoch + 1);
    }
    let mut stamping = Stamping {
        words: stamps,
        epoch,
    };
    let entry = Entry { i, insn };
    if stamping.idle(tables, state, entry) {
        state.take_insn();
        return Ok(epoch);
    }
    stamping.visit_insn(tables, state, entry)?;
    Ok(stamping.epoch)
}
