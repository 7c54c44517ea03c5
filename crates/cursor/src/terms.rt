// Names for their values, assignments, and sends.
ghost use Rattle.std.specs.Prelude.{◌≡◌, ℕ, ◌+◌, ◌≤◌, ◌<◌, length, is_some, IfSome};
ghost use Rattle.rules.specs.Program as P;
ghost use Rattle.rules.specs.Reading.{Reads, is_fixed, fixed, create_instance, send as send_of};
ghost use Rattle.program.specs.Rows.{opnd_of, name_in};
ghost use Rattle.program.specs.View.{limits_of};
ghost use Rattle.program.specs.Drafts.{DraftKept};
ghost use Rattle.memory.specs.Layout.{script_most, operands_most};
ghost use Rattle.variables.specs.Layout.{bindings_most, entries_most, variables_size};
ghost use Rattle.cursor.specs.Layout.{scratch_size};
ghost use Rattle.cursor.specs.Cursor.{opnds_of, waiting};
ghost use Rattle.cursor.specs.Steps.{means};
ghost use Rattle.cursor.specs.Promises.{Assigns, AssignsAt, MeansAt, SendsAt};
ghost use Rattle.cursor.specs.Parsers.{cursor_of, parsed_in, operand, ParserKept, AddsKept, Reading, ParserDid};

use crate::{Parser, push_call, waiting};
use ids::{BlockId, ClassId};
use kinds::Kind;
use program::{Callee, Draft, Given, Name, Op, Opnd, Program};
use refusals::Refusal;

// The three fixed values.
#[tactic(auto, using(crate::proofs::terms::Terms::none_fixed))]
fn fixed_value(script: &[u8], n: Name) -> Option<Opnd>
    ensures fixed { is_some result ≡ is_fixed (name_in script.now n) }
    ensures value { IfSome result (λ v. opnd_of v ≡ fixed (name_in script.now n)) }
{
    match n.of(script) {
        b"nil" => Some(Opnd::Const(Kind::Nil)),
        b"true" => Some(Opnd::Const(Kind::Truth(true))),
        b"false" => Some(Opnd::Const(Kind::Truth(false))),
        _ => None,
    }
}

// The name n is bound to v as variable k, unless it is a fixed value's.
pub fn assign(
    script: &[u8],
    scratch: &mut [usize],
    k: usize,
    n: Name,
    v: Opnd,
) -> Result<(), Refusal>
    requires scratch_size_in_bounds { (scratch_size ≤ length scratch.old) × (k < bindings_most) }
    requires len_bound { n.start + n.len ≤ script_most }
    ensures { AssignsAt script.now n v k scratch.old scratch.new result }
{
    if fixed_value(script, n).is_some() {
        return Err(Refusal::NameTaken);
    }
    phis::set_var(scratch, k, n, v);
    Ok(())
}

// What a name means: a fixed value, else a function, else a class, else one of so many variables. `class` is the one being read.
pub fn name_value(
    program: &Program,
    scratch: &[usize],
    class: Option<ClassId>,
    vars: usize,
    n: Name,
) -> Result<Opnd, Refusal>
    requires { (variables_size ≤ length scratch.now) × (vars ≤ entries_most) }
    ensures { MeansAt n class vars program.now.script.now program.now.words.now program.now.counts scratch.now result }
{
    if let Some(v) = fixed_value(program.script, n) {
        return Ok(v);
    }
    if let Some(f) = lookups::function_named(program, n) {
        return Ok(Opnd::Const(Kind::Fun(f)));
    }
    if let Some(k) = lookups::class_named(program, class, n) {
        return Ok(Opnd::Const(Kind::Class(k)));
    }
    let found = phis::get_var(program.script, scratch, vars, n);
    found.ok_or(Refusal::UnboundName)
}

impl<'a> Parser<'a> {
    // The same as the next variable.
    pub fn assign(&mut self, n: Name, v: Opnd) -> Result<Opnd, Refusal>
        requires scratch_size_in_bounds { scratch_size ≤ length self.old.scratch.now }
        requires vars_bound { self.old.vars < bindings_most }
        requires len_bound { n.start + n.len ≤ script_most }
        ensures kept { ParserKept self.old self.new }
        ensures program { self.new.program ≡ self.old.program }
        ensures assigns { Assigns self.old.script.now n v (cursor_of self.old) self.old.scratch.now self.new.scratch.now (parsed_in self.new result) }
    {
        assign(self.script, self.scratch, self.vars, n, v)?;
        self.vars += 1;
        Ok(v)
    }

    // Stays: `Reading` is a fact of a moment, inside of a function and before any refusal, which no field can say.

    // What a name means.
    pub fn name_value(&self, n: Name) -> Result<Opnd, Refusal>
        requires { Reading self.now }
        ensures { ParserDid (λ L s. means (name_in s n)) 0 self.now self.now (operand self.now result) }
    {
        name_value(
            &self.program_so_far(),
            &*self.scratch,
            self.class,
            self.vars,
            n,
        )
    }

    // The method n of v, or the class v's `new`, is called with the k arguments that stand behind those that wait.
    pub fn send(&mut self, v: Opnd, n: Name, k: usize) -> Result<Opnd, Refusal>
        requires reading { Reading self.old }
        requires k_bound { self.old.args + k ≤ operands_most }
        ensures kept { AddsKept self.old self.new }
        ensures did { (E : ℕ → Reads P.Opnd) → ParserDid
            (λ L s. send_of L s E (opnd_of v) (name_in s n) (waiting self.old.scratch.now self.old.args k)) 0
            self.old self.new (operand self.new result) }
    {
        let at = self.args;
        let args = waiting(&mut *self.scratch, at, k);
        send(&mut self.program, self.script, self.block, v, n, args)
    }
}

// ---- sends in a block of a draft

// A New and, where the class has a constructor, the call of it on the new object; without one the arguments are dropped.
fn create_instance(
    draft: &mut Draft,
    script: &[u8],
    b: BlockId,
    k: ClassId,
    args: &[usize],
) -> Result<Opnd, Refusal>
    requires { b.0 < draft.old.counts.blocks }
    ensures kept { DraftKept draft.old draft.new }
    ensures did { (E : ℕ → Reads P.Opnd) → SendsAt script.now b (create_instance (limits_of draft.old.limits) script.now E k.0 (opnds_of args.now))
        draft.old draft.new result }
{
    let i = draft.push_insn(b, Op::New(k), Given::Zero)?;
    let o = Opnd::Insn(i);
    let program = draft.program(script);
    if let Some((_, name)) = lookups::constructor_of(&program, k) {
        push_call(draft, b, Callee::Dynamic(o, name), args)?;
    }
    Ok(o)
}

// The method n of v, or the class v's `new`, is called.
pub fn send(
    draft: &mut Draft,
    script: &[u8],
    b: BlockId,
    v: Opnd,
    n: Name,
    args: &[usize],
) -> Result<Opnd, Refusal>
    requires { b.0 < draft.old.counts.blocks }
    ensures kept { DraftKept draft.old draft.new }
    ensures did { (E : ℕ → Reads P.Opnd) → SendsAt script.now b
        (send_of (limits_of draft.old.limits) script.now E (opnd_of v) (name_in script.now n) (opnds_of args.now)) draft.old draft.new result }
{
    match v {
        Opnd::Const(Kind::Class(class)) => {
            if lexer::same_bytes(n.of(script), b"new") {
                return create_instance(draft, script, b, class, args);
            }
            Err(Refusal::NotCallable)
        }
        _ => push_call(draft, b, Callee::Dynamic(v, n), args),
    }
}
