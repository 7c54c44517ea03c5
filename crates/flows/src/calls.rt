// The callers of a function, as an iterator.
ghost use Rattle.std.specs.Prelude.{◌≡◌, ◌<◌};
ghost use Rattle.memory.specs.Layout.{row_words};

use ids::{FunId, InsnId};
use state::Held;

// What is left of a function's callers, in rising order: the bits that are left of a word of their row, and the words behind it.
#[derive(Drop)]
pub struct Callers<'a> {
    state: &'a Held<'a>,
    f: FunId,
    word: usize,
    left: usize,
    ghost within: { f.0 < state.now.sizes.functions },
    ghost few: { word < row_words },
}

impl<'a> Callers<'a> {
    ghost use Rattle.state.specs.View.{called_of};
    ghost use Rattle.state.specs.Changes.{marks_from};
    ghost use Rattle.flows.specs.Left.{callers_left};

    // Stays: f is bounded by the state's sizes, as in `Held`'s readers.
    pub fn of(state: &'a Held<'a>, f: FunId) -> Callers<'a>
        requires { f.0 < state.now.sizes.functions }
        ensures { callers_left result ≡ marks_from (called_of state.now.sizes state.now.words.now) f.0 0 }
    {
        Callers {
            state,
            f,
            word: 0,
            left: state.caller_word(f, 0),
        }
    }
}

impl<'a> Iterator for Callers<'a> {
    type Item = InsnId;

    ghost use Rattle.std.specs.Iterator.{YieldsFirstBy, item_count};
    ghost use Rattle.flows.specs.Left.{callers_left};

    ghost next_gives = { YieldsFirstBy (λ i. i.0) callers_left };

    ghost remaining = { item_count callers_left };

    #[inline(always)]
    fn next(&mut self) -> Option<InsnId> {
        // Stays: a search through the row's words would have the word at hand, with what is left of it, as a case of its own.
        let mut word = self.word;
        let mut left = self.left;
        while left == 0 {
            word += 1;
            if self.state.sizes.insns <= word * 64 {
                return None;
            }
            left = self.state.caller_word(self.f, word);
        }
        let b = memory::tables::lowest_bit(left);
        self.word = word;
        self.left = b.rest;
        Some(InsnId((word * 64 + b.place) as u32))
    }
}
