// The final state, written into the answer memory.
#![tactic(auto)]

ghost use Rattle.std.specs.Prelude.{◌≡◌, List, ℕ, ◌+◌, ◌≤◌, ◌<◌, length};
ghost use Rattle.memory.specs.Memory.{over};
ghost use Rattle.memory.specs.Layout.{blocks_most};
ghost use Rattle.answer.specs.Layout.{answer_length};
ghost use Rattle.publish.specs.Final.{GivenBy, with_state};

use ids::{BlockId, FunId, InsnId};
use state::Held;

// The words from a place on: what `word` gives for each number below n.
fn write_each<F: Fn(usize) -> usize>(answer: &mut [usize], at: usize, n: usize, word: F)
    requires callable { (i : ℕ) → i < n → F.pre word i }
    requires room { at + n ≤ length answer.old }
    ensures { (t : List ℕ) → GivenBy (F.post word) n t → answer.new ≡ over at t answer.old }
{
    for (i, to) in answer[at..at + n].iter_mut().enumerate() {
        *to = word(i);
    }
}

// All tables but those of the uses, and a count.
pub fn write_state(state: &Held, count: u64, answer: &mut [usize])
    requires answer_len { (length answer.old ≡ answer_length) × (state.now.sizes.blocks ≤ blocks_most) }
    ensures { answer.new ≡ with_state state.now.sizes state.now.words.now count answer.old }
{
    let sizes = state.sizes;
    answer::write_totals(
        answer,
        sizes.functions,
        sizes.blocks,
        sizes.insns,
        count as usize,
    );
    write_each(answer, answer::LIVE, sizes.blocks, |b| {
        usize::from(state.is_live(BlockId(b as u32)))
    });
    write_each(answer, answer::TAGS, sizes.insns, |i| {
        state.kind_at(InsnId(i as u32)).tag()
    });
    write_each(answer, answer::PAYLOADS, sizes.insns, |i| {
        state.kind_at(InsnId(i as u32)).payload()
    });
    write_each(
        answer,
        answer::CALLERS,
        sizes.functions * memory::ROW_WORDS,
        |j| {
            let f = FunId((j / memory::ROW_WORDS) as u32);
            state.caller_word(f, j % memory::ROW_WORDS)
        },
    );
}
