// The first kinds of a class's attributes: nothing where the constructor surely sets them, else Nil.
ghost use Rattle.std.specs.Prelude.{◌≡◌, ℕ, ◌+◌, ◌*◌, ◌≤◌, ◌<◌, length};
ghost use Rattle.memory.specs.Layout.{classes_most, ivars_most};
ghost use Rattle.constructors.specs.Layout.{walk_size};
ghost use Rattle.constructors.specs.firsts.Firsts.{PutsKinds, Entries, FirstIs, FirstsAre};

use crate::Flow;
use ids::ClassId;
use kinds::Kind;
use refusals::Refusal;

// The first kinds of n attributes: nothing for those in a set, else Nil. The bytes stand from one place on, the payloads from another.
// Stays: the contracts say of the state's whole memory what changed, so the parts of the bytes and of the payloads go by their places in it, and not as two
// slices, here and below.
fn put_kinds(words: &mut [usize], tags: usize, payloads: usize, n: usize, bits: usize)
    requires n_le_ivars_most { n ≤ ivars_most }
    requires n_bound { (tags + n ≤ payloads) × (payloads + n ≤ length words.old) }
    ensures { PutsKinds tags payloads n bits words.old words.new }
{
    chains::fill(words, payloads, n, 0);
    for a in 0..n {
        let is_set = (bits >> a) % 2 != 0;
        let kind = if is_set { Kind::Empty } else { Kind::Nil };
        words[tags + a] = kind.tag();
    }
}

// The first kinds of class k's attributes, from place 64 * k of the table on; question 13.
pub fn first_kinds(
    flow: &Flow,
    scratch: &mut [usize],
    words: &mut [usize],
    tags: usize,
    payloads: usize,
    k: ClassId,
) -> Result<(), Refusal>
    requires entries { Entries flow.now.indexed.program.words.now flow.now.indexed.program.counts }
    requires walk_size_in_bounds { (walk_size ≤ length scratch.old) × (k.0 < flow.now.indexed.program.counts.classes) }
    requires ivars_most_bound { (tags + (classes_most * ivars_most) ≤ payloads) × (payloads + (classes_most * ivars_most) ≤ length words.old) }
    ensures { FirstIs flow.now.indexed.program.script.now flow.now.indexed.program.words.now flow.now.indexed.program.counts k.0 tags payloads words.old words.new result }
{
    let program = flow.indexed.program;
    let n = lookups::ivars_of(&program, k);
    let bits = match lookups::constructor_of(&program, k) {
        Some((f, _)) => flow.analyze_ctor(scratch, k, program.fun(f).entry)?,
        None => 0,
    };
    let row = memory::IVARS_MOST * k.index();
    put_kinds(words, tags + row, payloads + row, n, bits);
    Ok(())
}

// The first kinds of all classes' attributes; question 13.
pub fn all_first_kinds(
    flow: &Flow,
    scratch: &mut [usize],
    words: &mut [usize],
    tags: usize,
    payloads: usize,
) -> Result<(), Refusal>
    requires entries { Entries flow.now.indexed.program.words.now flow.now.indexed.program.counts }
    requires walk_size_in_bounds { walk_size ≤ length scratch.old }
    requires ivars_most_bound { (tags + (classes_most * ivars_most) ≤ payloads) × (payloads + (classes_most * ivars_most) ≤ length words.old) }
    ensures { FirstsAre flow.now.indexed.program.script.now flow.now.indexed.program.words.now flow.now.indexed.program.counts tags payloads words.old words.new result }
{
    for k in 0..flow.indexed.program.counts.classes {
        first_kinds(flow, scratch, words, tags, payloads, ClassId(k as u32))?;
    }
    Ok(())
}
