// Reads of attributes that are settled: a visit would find nothing new in the classes of a set, which is the read's stamp.
#![tactic(auto)]

ghost use Rattle.std.specs.Prelude.{true, false, ◌≡◌, [], ◌+◌, ◌*◌, ◌≤◌, ◌<◌, length, get_or};
ghost use Rattle.kinds.specs.declared.Kind.{Kind};
ghost use Rattle.idle.specs.Settled.{Covered};
ghost use Rattle.program.specs.Rows.{opnd_at, nth};
ghost use Rattle.records.specs.Records.{record_at, row_of};
ghost use Rattle.state.specs.View.{Attrs, kinds_of, ivars_of};
ghost use Rattle.machine.specs.opnds.Reads.{OperandInside, kind_in};
ghost use Rattle.kinds.specs.InWords.{words_of};
ghost use Rattle.machine.specs.receivers.Receivers.{ClassesBelow};
ghost use Rattle.attributes.specs.Attributes.{Matches};
ghost use Rattle.visits.specs.Visits.{operands_of};
ghost use Rattle.memory.specs.Layout.{instructions_most, ivars_most};
ghost use Rattle.program.specs.Layout.{opnds_at, program_size};
ghost use Rattle.settled.specs.Reads.{whole, ClassSettled, ClassesSettled, Operands, Decides, Touched, Unsettled};

use ids::{ClassId, InsnId};
use kinds::Words;
use program::{Name, Program};
use records::{Access, Record};
use state::{Held, State};

// A quick test that a covers k, which is no name.
fn covers(a: Words, k: Words) -> bool
    ensures { result ≡ true → Covered (words_of a) (words_of k) }
{
    !k.is_name() && sends::passing::surely_covers(a, k)
}

// The kind of the attribute at place a of class x, in words.
fn ivar_words(state: &Held, x: ClassId, a: usize) -> Words
    requires x_lt_classes { (x.0 < state.now.sizes.classes) × (a < ivars_most) }
    ensures { (v : Attrs) → a < v.count x.0 → words_of result ≡ get_or (get_or (ivars_of state.now.sizes v state.now.words.now) x.0 []) a Kind.Empty }
{
    let at = x.index() * memory::IVARS_MOST + a;
    Words {
        tag: state.words[state::IVARS + at],
        bits: state.words[state::IVAR_BITS + at],
    }
}

// A quick test that read i of attribute n, whose kind is k, is settled in class x.
// Stays: here and below three clauses (the state's, a class's, an instruction's) are about four arguments; a struct of program and state would say the first
// alone.
#[tactic(auto, using(attributes::proofs::Classes::class_counted))]
fn settled_in(program: &Program, state: &Held, n: Name, i: InsnId, k: Words, x: ClassId) -> bool
    requires state_matches { Matches program.now state.now.sizes }
    requires x_lt_classes { (x.0 < state.now.sizes.classes) × (i.0 < state.now.sizes.insns) }
    ensures { result ≡ true → ClassSettled program.now state.now.sizes state.now.words.now n i.0 (words_of k) x.0 }
{
    if !state.has_read(x, i) {
        return false;
    }
    match lookups::ivar_named(program, x, n) {
        Some(a) => covers(k, ivar_words(state, x, a)),
        None => false,
    }
}

// A quick test that read i of attribute n is settled in each class of a set.
fn settled(program: &Program, state: &Held, n: Name, i: InsnId, set: u64) -> bool
    requires state_matches { Matches program.now state.now.sizes }
    requires classes_below { ClassesBelow state.now.sizes.classes set }
    requires i_lt_insns { i.0 < state.now.sizes.insns }
    ensures { result ≡ true → ClassesSettled program.now state.now.sizes state.now.words.now n i.0 set }
{
    let k = flows::insn_words(state, i);
    for x in ids::classes(set) {
        if !settled_in(program, state, n, i, k, x) {
            return false;
        }
    }
    true
}

// A set of classes for which read i of attribute n is settled: those of the kind o, or none.
pub fn stamp(program: &Program, state: &Held, n: Name, i: InsnId, o: Words) -> usize
    requires state_matches { Matches program.now state.now.sizes }
    requires classes_below { o.tag ≡ 8 → ClassesBelow state.now.sizes.classes o.bits }
    requires i_lt_insns { i.0 < state.now.sizes.insns }
    ensures { ClassesSettled program.now state.now.sizes state.now.words.now n i.0 result }
{
    if o.is_set() && settled(program, state, n, i, o.bits as u64) {
        return o.bits;
    }
    0
}

// The kind of operand j of an instruction, in words; Nil where it has none.
// Stays: beside visits' `operand`, of a row, and flows' `returned`, of a Return's number, which also give Nil where there is none: they share one test, and give an
// operand, where this gives its kind in words.
pub fn operand_words(program: &Program, state: &Held, insn: Record, j: usize) -> Words
    requires count_bound { insn.first + insn.count ≤ program.now.counts.opnds }
    requires operand_inside { j < insn.count → OperandInside state.now.sizes (opnd_at program.now.words.now (opnds_at + 2 * insn.first + 2 * j)) }
    ensures { words_of result ≡ kind_in (kinds_of state.now.sizes state.now.words.now) (nth (operands_of program.now.words.now (row_of insn)) j) }
{
    if j < insn.count {
        let at = program::OPNDS + 2 * insn.first + 2 * j;
        return flows::opnd_words(program.words, state, Some(at));
    }
    Words::NIL
}

// The kind, in words, by which stamps of reads are made or kept: of a read its receiver's, of a setting its value's.
pub fn decisive_words(program: &Program, state: &Held, insn: Record) -> Words
    requires operands { Operands program.now.words.now program.now.counts state.now.sizes insn }
    ensures { Decides program.now.words.now state.now.sizes state.now.words.now insn (words_of result) }
{
    match insn.access() {
        Access::Neither => Words::EMPTY,
        Access::Read => operand_words(program, state, insn, 0),
        Access::Setting => operand_words(program, state, insn, 1),
    }
}

// Whether instruction j is a read whose kind may not cover k.
// Stays: the sort by its number in the row, where `Program::insn` would make it: that asks for a program that is ready, and `unsettle` only for its words.
fn touched(words: &[usize], state: &Held, j: InsnId, k: Words) -> bool
    requires program_size_in_bounds { program_size ≤ length words.now }
    requires j_lt_insns { j.0 < state.now.sizes.insns }
    ensures { Touched words.now state.now.sizes state.now.words.now j.0 (words_of k) result }
{
    let at = program::INSNS + program::INSN_WORDS * j.index();
    words[at] == program::GET_IVAR && !covers(flows::insn_words(state, j), k)
}

// Where kind k went into an attribute and reads were woken, a read whose kind may not cover k is settled in no class.
pub fn unsettle(words: &[usize], state: &State, stamps: &mut [usize], k: Words)
    requires program_size_in_bounds { program_size ≤ length words.now }
    requires stamps_len { length stamps.old ≡ instructions_most }
    ensures { Unsettled words.now state.now.sizes (words_of k) state.now.sizes.insns (whole state.now stamps.old) (whole state.now stamps.new) }
{
    for j in 0..state.sizes.insns {
        if touched(words, &state.tables(), InsnId(j as u32), k) {
            stamps[j] = 0;
        }
    }
}
