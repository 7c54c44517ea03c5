// The answer memory: its layout, publishing into it, and reading it.
#![tactic(auto)]

ghost use Rattle.std.specs.Prelude.{◌≡◌, [], ◌∷◌, ◌+◌, ◌≤◌, ◌<◌, length};
ghost use Rattle.memory.specs.Memory.{over};
ghost use Rattle.memory.specs.Layout.{functions_most, blocks_most, instructions_most, uses_most};
ghost use Rattle.answer.specs.Layout.{answer_length};
ghost use Rattle.answer.specs.Image.{functions_in, blocks_in, instructions_in, count_in, live_in, tag_in, payload_in, start_in, user_in, bits_in, calls_in};

use ids::{BlockId, FunId, InsnId};

// Where the tables start, behind the four totals.
pub const LIVE: usize = 4;

pub const TAGS: usize = LIVE + memory::BLOCKS_MOST;

pub const PAYLOADS: usize = TAGS + memory::INSTRUCTIONS_MOST;

pub const STARTS: usize = PAYLOADS + memory::INSTRUCTIONS_MOST;

pub const USERS: usize = STARTS + memory::INSTRUCTIONS_MOST + 1;

pub const CALLERS: usize = USERS + memory::USES_MOST;

// The published length.
pub const ANSWER_LEN: usize = CALLERS + memory::FUNCTIONS_MOST * memory::ROW_WORDS;

// Stores the four totals.
#[tactic(auto, unfolding(memory::specs::Memory::over))]
pub fn write_totals(
    answer: &mut [usize],
    functions: usize,
    blocks: usize,
    instructions: usize,
    count: usize,
)
    requires { length answer.old ≡ answer_length }
    ensures { answer.new ≡ over 0 (functions ∷ blocks ∷ instructions ∷ count ∷ []) answer.old }
{
    answer[..LIVE].copy_from_slice(&[functions, blocks, instructions, count]);
}

// An answer memory of the published length, as it is read, whatever it holds. A number above its limit counts as the limit.
#[derive(Clone, Copy)]
pub struct Answer<'a> {
    pub words: &'a [usize],
    pub ghost sized: { length words.now ≡ answer_length },
}

impl Answer<'_> {
    // Stays: three readers of one shape, since each has its own place among the published totals, and its own limit.
    #[tactic(auto, unfolding(crate::specs::Image::functions_in))]
    pub fn functions(&self) -> usize
        ensures { (result ≡ functions_in self.now.words.now) × (result ≤ functions_most) }
    {
        self.words[0].min(memory::FUNCTIONS_MOST)
    }

    #[tactic(auto, unfolding(crate::specs::Image::blocks_in))]
    pub fn blocks(&self) -> usize
        ensures { (result ≡ blocks_in self.now.words.now) × (result ≤ blocks_most) }
    {
        self.words[1].min(memory::BLOCKS_MOST)
    }

    #[tactic(auto, unfolding(crate::specs::Image::instructions_in))]
    pub fn instructions(&self) -> usize
        ensures { (result ≡ instructions_in self.now.words.now) × (result ≤ instructions_most) }
    {
        self.words[2].min(memory::INSTRUCTIONS_MOST)
    }

    #[tactic(auto, unfolding(crate::specs::Image::count_in))]
    pub fn count(&self) -> usize
        ensures { result ≡ count_in self.now.words.now }
    {
        self.words[3]
    }

    // Stays: an id knows no table's length, so each reader asks that its number is below it, here and below; who reads an answer tests each number against a
    // total first.
    #[tactic(auto, unfolding(crate::specs::Image::live_in))]
    pub fn live(&self, b: BlockId) -> bool
        requires { b.0 < blocks_most }
        ensures { result ≡ live_in self.now.words.now b.0 }
    {
        self.words[LIVE + b.index()] != 0
    }

    #[tactic(auto, unfolding(crate::specs::Image::tag_in))]
    pub fn tag(&self, i: InsnId) -> usize
        requires { i.0 < instructions_most }
        ensures { result ≡ tag_in self.now.words.now i.0 }
    {
        self.words[TAGS + i.index()]
    }

    #[tactic(auto, unfolding(crate::specs::Image::payload_in))]
    pub fn payload(&self, i: InsnId) -> usize
        requires { i.0 < instructions_most }
        ensures { result ≡ payload_in self.now.words.now i.0 }
    {
        self.words[PAYLOADS + i.index()]
    }

    // Where the users of an instruction start, and end: the last one's end where those of a number behind it would start.
    #[tactic(auto, unfolding(crate::specs::Image::start_in))]
    pub fn users_start(&self, i: InsnId) -> usize
        requires { i.0 ≤ instructions_most }
        ensures { (result ≡ start_in self.now.words.now i.0) × (result ≤ uses_most) }
    {
        self.words[STARTS + i.index()].min(memory::USES_MOST)
    }

    pub fn users_end(&self, i: InsnId) -> usize
        requires { i.0 < instructions_most }
        ensures { (result ≡ start_in self.now.words.now (i.0 + 1)) × (result ≤ uses_most) }
    {
        self.users_start(InsnId(i.0 + 1))
    }

    // The user at a place of their table.
    #[tactic(auto, unfolding(crate::specs::Image::user_in))]
    pub fn user(&self, j: usize) -> InsnId
        requires { j < uses_most }
        ensures { result.0 ≡ user_in self.now.words.now j }
    {
        let n = self.words[USERS + j].min(memory::INSTRUCTIONS_MOST);
        InsnId(n as u32)
    }

    // The callers of a function from an instruction on, as bits of one word.
    #[tactic(auto, unfolding(crate::specs::Image::word_in))]
    pub fn callers_from(&self, f: FunId, i: InsnId) -> usize
        requires f_lt_functions_most { f.0 < functions_most }
        requires i_lt_instructions_most { i.0 < instructions_most }
        ensures { result ≡ bits_in self.now.words.now f.0 i.0 }
    {
        let n = i.index();
        self.words[CALLERS + (f.index() * memory::ROW_WORDS + n / 64)] >> (n % 64)
    }

    pub fn calls(&self, f: FunId, i: InsnId) -> bool
        requires f_lt_functions_most { f.0 < functions_most }
        requires i_lt_instructions_most { i.0 < instructions_most }
        ensures { result ≡ calls_in self.now.words.now f.0 i.0 }
    {
        self.callers_from(f, i) % 2 != 0
    }
}
