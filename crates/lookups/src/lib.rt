// Look-ups in the program's tables by name, and attributes, which are looked up before they are declared.
#![tactic(auto)]

ghost use Rattle.std.specs.Prelude.{◌≡◌, true, ◌+◌, ◌*◌, ◌≤◌, ◌<◌, min, length, IfSome};
ghost use Rattle.rules.specs.Lists.{bytes, or_else, same};
ghost use Rattle.rules.specs.Program.{function_named, method_named, ivar_named, main_function};
ghost use Rattle.program.specs.Rows.{name_in, owner_in, class_at, ivars_of};
ghost use Rattle.program.specs.View.{program_view, ProgramReady};
ghost use Rattle.program.specs.Drafts.{DraftKept};
ghost use Rattle.memory.specs.Layout.{functions_most, classes_most, ivars_most};
ghost use Rattle.program.specs.Layout.{program_size};
ghost use Rattle.lookups.specs.Look.{name_at, fun_found, ivar_found, fun_row, ivar_row, is_fun, is_method, is_main, is_class, is_ivar, LookKnown, Constructs, LookTells, PutsIvar, Declares};

use ids::{BlockId, ClassId, FunId};
use program::{
    BLOCK_WORDS, BLOCKS, CLASS_WORDS, CLASSES, Draft, FUNCTION_WORDS, FUNCTIONS, IVAR_ROW_WORDS,
    IVARS, NAME_WORDS, Name, Program,
};
use refusals::Refusal;

// ---- tests of a row
// Stays: a number of a thing doesn't hold the program that it belongs to, so that its row lies in the tables is said where it is read.

// Whether the name that stands at a word of the tables has these bytes.
fn spells_at(program: &Program, at: usize, wanted: &[u8]) -> bool
    requires { at + 1 < length program.now.words.now }
    ensures { result ≡ same (name_in program.now.script.now (name_at program.now.words.now at)) wanted.now }
{
    let name = lexer::bytes_at(program.script, program.words[at], program.words[at + 1]);
    lexer::same_bytes(name, wanted)
}

#[tactic(auto, using(crate::proofs::Rows::is_fun_lem))]
fn is_fun(program: &Program, f: FunId, wanted: &[u8]) -> bool
    requires { f.0 < functions_most }
    ensures { result ≡ is_fun wanted.now (fun_row program.now.script.now program.now.words.now f.0) }
{
    spells_at(program, FUNCTIONS + FUNCTION_WORDS * f.index(), wanted)
}

#[tactic(auto, using(crate::proofs::Rows::method_here, crate::proofs::Rows::method_else))]
fn is_method(program: &Program, f: FunId, k: ClassId, wanted: &[u8]) -> bool
    requires { f.0 < functions_most }
    ensures { result ≡ is_method k.0 wanted.now (fun_row program.now.script.now program.now.words.now f.0) }
{
    let at = FUNCTIONS + FUNCTION_WORDS * f.index();
    program::is_owned(program.words[at + 2], k) && spells_at(program, at, wanted)
}

fn is_main(program: &Program, f: FunId) -> bool
    requires { f.0 < program.now.counts.functions }
    ensures { result ≡ is_main (fun_row program.now.script.now program.now.words.now f.0) }
{
    is_fun(program, f, b"main") && program.fun(f).class.is_none()
}

#[tactic(auto, unfolding(crate::specs::Look::is_class, program::specs::Rows::class_at))]
fn is_class(program: &Program, k: ClassId, wanted: &[u8]) -> bool
    requires { k.0 < classes_most }
    ensures { result ≡ is_class wanted.now (class_at program.now.script.now program.now.words.now k.0) }
{
    spells_at(program, CLASSES + CLASS_WORDS * k.index(), wanted)
}

#[tactic(auto, using(crate::proofs::Rows::is_ivar_lem))]
pub fn is_ivar(program: &Program, k: ClassId, j: usize, wanted: &[u8]) -> bool
    requires { (k.0 < classes_most) × (j < ivars_most) }
    ensures { result ≡ is_ivar wanted.now (ivar_row program.now.script.now program.now.words.now k.0 j) }
{
    let at = IVARS + IVAR_ROW_WORDS * k.index() + NAME_WORDS * j;
    spells_at(program, at, wanted)
}

// ---- look-ups
// Stays: a search makes the id of a number in its test, and once more of the number found. With the ids made first, by `map`, it was tried, and is no plainer: one
// id fewer in each search, and an answer for each, since the check no longer finds that each id has a row.

// The latest function of a name, methods too.
pub fn function_named(program: &Program, n: Name) -> Option<FunId>
    ensures { fun_found result ≡ function_named (program_view program.now.script.now program.now.words.now program.now.counts) (name_in program.now.script.now n) }
{
    let wanted = program.name(n);
    let i = (0..program.counts.functions)
        .rev()
        .find(|i| is_fun(program, FunId(*i as u32), wanted))?;
    Some(FunId(i as u32))
}

// The method of a class whose name has these bytes.
fn method(program: &Program, k: ClassId, wanted: &[u8]) -> Option<FunId>
    ensures is { fun_found result ≡ method_named (program_view program.now.script.now program.now.words.now program.now.counts) k.0 wanted.now }
    ensures here { IfSome result (λ f. (f.0 < program.now.counts.functions) × (is_method k.0 wanted.now (fun_row program.now.script.now program.now.words.now f.0) ≡ true)) }
{
    let from = program.first_function(k);
    let i = (from..program.counts.functions).find(|i| is_method(
        program,
        FunId(*i as u32),
        k,
        wanted,
    ))?;
    Some(FunId(i as u32))
}

// The method of a class.
pub fn method_named(program: &Program, k: ClassId, n: Name) -> Option<FunId>
    ensures { fun_found result ≡ method_named (program_view program.now.script.now program.now.words.now program.now.counts) k.0 (name_in program.now.script.now n) }
{
    method(program, k, program.name(n))
}

// The constructor of a class, and the place of its name, which a call of it bears.
pub fn constructor_of(program: &Program, k: ClassId) -> Option<(FunId, Name)>
    ensures { Constructs program.now.script.now program.now.words.now program.now.counts k.0 result }
{
    let f = method(program, k, b"initialize")?;
    Some((f, program.fun(f).name))
}

// The last `main` outside of classes, else function 0.
pub fn main_function(program: &Program) -> FunId
    ensures { result.0 ≡ main_function (program_view program.now.script.now program.now.words.now program.now.counts) }
{
    let found = (0..program.counts.functions)
        .rev()
        .find(|i| is_main(program, FunId(*i as u32)));
    FunId(found.unwrap_or(0) as u32)
}

// How many of n classes a look-up knows: while a class is read, those before it.
fn known(n: usize, k: Option<ClassId>) -> usize
    ensures { result ≡ min (or_else (owner_in k) n) n }
{
    k.map_or(n, |k| n.min(k.index()))
}

// The latest class of a name; `k` is the class being read, which is not yet known.
pub fn class_named(program: &Program, k: Option<ClassId>, n: Name) -> Option<ClassId>
    ensures { LookKnown program.now.script.now program.now.words.now program.now.counts k n result }
{
    let wanted = program.name(n);
    let i = (0..known(program.counts.classes, k))
        .rev()
        .find(|i| is_class(program, ClassId(*i as u32), wanted))?;
    Some(ClassId(i as u32))
}

// How many attributes a class has.
pub fn ivars_of(program: &Program, k: ClassId) -> usize
    requires { k.0 < classes_most }
    ensures { result ≡ ivars_of program.now.words.now k.0 }
{
    program.words[CLASSES + CLASS_WORDS * k.index() + 2]
}

// The place of a class's attribute.
pub fn ivar_named(program: &Program, k: ClassId, n: Name) -> Option<usize>
    requires { k.0 < program.now.counts.classes }
    ensures { ivar_found result ≡ ivar_named (program_view program.now.script.now program.now.words.now program.now.counts) k.0 (name_in program.now.script.now n) }
{
    let wanted = program.name(n);
    (0..ivars_of(program, k)).find(|j| is_ivar(program, k, *j, wanted))
}

#[tactic(auto, using(crate::proofs::Rows::tells_is))]
pub fn is_terminated(program: &Program, b: BlockId) -> bool
    requires { b.0 < program.now.counts.blocks }
    ensures { LookTells program.now.words.now program.now.counts b.0 result }
{
    let at = BLOCKS + BLOCK_WORDS * b.index();
    program.words[at + 1] != 0
}

// ---- attributes

// Stays: it writes a row into a lent slice, so it asks that the tables fit in it, as the writers of program's rows do. Written out in `push_ivar` it was tried, and
// is no plainer: its head and its clauses go, and the answers are twice as long.

#[tactic(auto, using(crate::proofs::Ivars::ivar_put))]
fn put_ivar(words: &mut [usize], k: ClassId, j: usize, n: Name)
    requires program_size_in_bounds { program_size ≤ length words.old }
    requires k_lt_classes_most { (k.0 < classes_most) × (j < ivars_most) }
    ensures { PutsIvar k.0 j n words.old words.new }
{
    let x = k.index();
    let at = IVARS + IVAR_ROW_WORDS * x + NAME_WORDS * j;
    words[at] = n.start;
    words[at + 1] = n.len;
    words[CLASSES + CLASS_WORDS * x + 2] = j + 1;
}

// An attribute of class k, or 7 or 11.
pub fn push_ivar(draft: &mut Draft, script: &[u8], k: ClassId, n: Name) -> Result<(), Refusal>
    requires { k.0 < draft.old.counts.classes }
    ensures kept { DraftKept draft.old draft.new }
    ensures counts { draft.new.counts ≡ draft.old.counts }
    ensures declares { Declares draft.old.limits k.0 n script.now draft.old.words.now draft.old.counts draft.new.words.now result }
{
    let program = draft.program(script);
    if ivar_named(&program, k, n).is_some() {
        return Err(Refusal::NameTaken);
    }
    let j = ivars_of(&program, k);
    if draft.limits.ivars <= j {
        return Err(Refusal::OverLimit);
    }
    put_ivar(draft.words, k, j, n);
    Ok(())
}
