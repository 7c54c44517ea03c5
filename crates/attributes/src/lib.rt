// Reading and setting an attribute, by the classes of its receiver.
#![tactic(auto)]

ghost use Rattle.std.specs.Prelude.{◌≡◌, ◌<◌, Ok};
ghost use Rattle.ids.specs.Sets.{members_of};
ghost use Rattle.rules.specs.Actions.{each, fold, change};
ghost use Rattle.rules.specs.Lists.{is_just_name};
ghost use Rattle.rules.specs.Program.{about, op_of};
ghost use Rattle.rules.specs.Machine.{add_read, get_ivar, set_ivar};
ghost use Rattle.program.specs.Rows.{name_in, opnd_of};
ghost use Rattle.program.specs.View.{program_view};
ghost use Rattle.state.specs.Changes.{Every};
ghost use Rattle.state.specs.Methods.{Did};
ghost use Rattle.machine.specs.opnds.Reads.{OperandInside, StateReads};
ghost use Rattle.machine.specs.receivers.Receivers.{ClassesBelow, ReceiverWithin};
ghost use Rattle.attributes.specs.Attributes.{ProgramOf, Matches, mark_reads, read_ivars, set_ivars, wake_reads};

use ids::{ClassId, InsnId};
use kinds::Kind;
use program::{Name, Op, Opnd, Program};
use refusals::Refusal;
use state::{Held, State};

// ---- a read: it met the classes, then the union of the attribute's kinds

// Instruction i is a read that met each class of a set.
// Stays: what bounds a set, an instruction, a class or an operand by the state's sizes is a clause, as is what ties state and program: they are lent apart, so
// no change of the state has to promise that the program stays. A struct of both, to be read, would serve `read_one` and `read_each` alone, and `read_ivar`
// would make it of the same clause.
fn mark_each(state: &mut State, set: u64, i: InsnId)
    requires classes_below { ClassesBelow state.old.sizes.classes set }
    requires i_lt_insns { i.0 < state.old.sizes.insns }
    ensures { Did Every (λ L p. each (members_of set) (λ c. change (add_read c i.0))) state.old state.new (Ok tt) }
{
    for c in ids::classes(set) {
        state.add_read(c, i);
    }
}

// Instruction i is a read that met the receiver's classes, or 14.
#[tactic(auto, using(crate::proofs::Classes::receiver_below))]
pub fn mark_reads(state: &mut State, i: InsnId, o: Opnd) -> Result<(), Refusal>
    requires i_lt_insns { i.0 < state.old.sizes.insns }
    requires operand_inside { OperandInside state.old.sizes o }
    requires receiver_within { ReceiverWithin state.old.sizes state.old.words.now o }
    ensures { Did Every (λ L p. mark_reads i.0 (opnd_of o)) state.old state.new result }
{
    let set = machine::receivers::classes_of(&state.tables(), o)?;
    mark_each(state, set, i);
    Ok(())
}

// The union of k with the attribute's kind in one class, or 15.
#[tactic(auto, using(crate::proofs::Classes::class_counted, crate::proofs::Found::get_none))]
fn read_one(program: &Program, state: &Held, n: Name, k: Kind, x: ClassId) -> Result<Kind, Refusal>
    requires state_matches { Matches program.now state.now.sizes }
    requires x_lt_classes { x.0 < state.now.sizes.classes }
    ensures { StateReads state.now.sizes (ProgramOf program.now)
        (λ L P. get_ivar L P (name_in program.now.script.now n) k x.0) state.now.words.now result }
{
    let place = lookups::ivar_named(program, x, n).ok_or(Refusal::UnknownMember)?;
    kinds::union(k, state.ivar_at(x, place))
}

// The union of the attribute's kinds in the classes of a set.
fn read_each(program: &Program, state: &Held, n: Name, set: u64) -> Result<Kind, Refusal>
    requires state_matches { Matches program.now state.now.sizes }
    requires classes_below { ClassesBelow state.now.sizes.classes set }
    ensures { StateReads state.now.sizes (ProgramOf program.now)
        (λ L P. fold (get_ivar L P (name_in program.now.script.now n)) Kind.Empty (members_of set)) state.now.words.now result }
{
    let mut k = Kind::Empty;
    for x in ids::classes(set) {
        k = read_one(program, state, n, k, x)?;
    }
    Ok(k)
}

// The kind that a read of attribute n of receiver o gives, or 14, 15 or 19.
#[tactic(auto, using(crate::proofs::Classes::receiver_below))]
pub fn read_ivar(program: &Program, state: &Held, n: Name, o: Opnd) -> Result<Kind, Refusal>
    requires state_matches { Matches program.now state.now.sizes }
    requires operand_inside { OperandInside state.now.sizes o }
    requires receiver_within { ReceiverWithin state.now.sizes state.now.words.now o }
    ensures { StateReads state.now.sizes (ProgramOf program.now)
        (λ L P. read_ivars L P (name_in program.now.script.now n) (opnd_of o)) state.now.words.now result }
{
    let set = machine::receivers::classes_of(state, o)?;
    read_each(program, state, n, set)
}

// ---- a setting: the attribute is widened in each class

// Whether instruction i reads attribute n.
fn gets(program: &Program, i: InsnId, n: Name) -> bool
    requires { i.0 < program.now.counts.insns }
    ensures { result ≡ is_just_name (about (op_of (program_view program.now.script.now program.now.words.now program.now.counts) i.0)).gets (name_in program.now.script.now n) }
{
    match program.insn(i).op {
        Op::GetIvar(x) => lexer::same_bytes(program.name(x), program.name(n)),
        _ => false,
    }
}

// The reads of attribute n that met class x wait.
fn wake_reads(program: &Program, state: &mut State, n: Name, x: ClassId) -> Result<(), Refusal>
    requires state_matches { Matches program.now state.old.sizes }
    requires x_lt_classes { x.0 < state.old.sizes.classes }
    ensures { Did (ProgramOf program.now)
        (λ L P. wake_reads L P x.0 (name_in program.now.script.now n)) state.old state.new result }
{
    // Stays: no iterator over the reads: it would borrow the state, which the loop changes.
    let mut from = InsnId(0);
    while let Some(i) = state.next_read(x, from) {
        if gets(program, i, n) {
            state.push_insn(i)?;
        }
        from = InsnId(i.0 + 1);
    }
    Ok(())
}

// Attribute n of class x is widened by k, and its reads that met the class wait if this changes it; or 15.
#[tactic(auto, using(crate::proofs::Classes::class_counted))]
fn widen_one(
    program: &Program,
    state: &mut State,
    n: Name,
    k: Kind,
    x: ClassId,
) -> Result<(), Refusal>
    requires state_matches { Matches program.now state.old.sizes }
    requires x_lt_classes { x.0 < state.old.sizes.classes }
    ensures { Did (ProgramOf program.now)
        (λ L P. set_ivar L P (name_in program.now.script.now n) k x.0) state.old state.new result }
{
    let a = lookups::ivar_named(program, x, n).ok_or(Refusal::UnknownMember)?;
    let old = state.ivar_at(x, a);
    let union = kinds::union(old, k)?;
    if union == old {
        return Ok(());
    }
    state.set_ivar(x, a, union);
    wake_reads(program, state, n, x)
}

fn widen_each(
    program: &Program,
    state: &mut State,
    n: Name,
    k: Kind,
    set: u64,
) -> Result<(), Refusal>
    requires state_matches { Matches program.now state.old.sizes }
    requires classes_below { ClassesBelow state.old.sizes.classes set }
    ensures { Did (ProgramOf program.now)
        (λ L P. each (members_of set) (set_ivar L P (name_in program.now.script.now n) k)) state.old state.new result }
{
    for x in ids::classes(set) {
        widen_one(program, state, n, k, x)?;
    }
    Ok(())
}

// Attribute n of receiver o is widened by the kind of v in each class, or 14, 15, 19 or 20.
#[tactic(auto, using(crate::proofs::Classes::receiver_below))]
pub fn set_ivar(
    program: &Program,
    state: &mut State,
    n: Name,
    o: Opnd,
    v: Opnd,
) -> Result<(), Refusal>
    requires state_matches { Matches program.now state.old.sizes }
    requires operand_inside { OperandInside state.old.sizes o × OperandInside state.old.sizes v }
    requires receiver_within { ReceiverWithin state.old.sizes state.old.words.now o }
    ensures { Did (ProgramOf program.now)
        (λ L P. set_ivars L P (name_in program.now.script.now n) (opnd_of o) (opnd_of v)) state.old state.new result }
{
    let tables = state.tables();
    let k = machine::opnds::kind_of(&tables, v);
    let set = machine::receivers::classes_of(&tables, o)?;
    widen_each(program, state, n, k, set)
}
