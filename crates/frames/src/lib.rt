// The frames of an answer as text, written line by line from the answer memory.
#![tactic(auto)]

ghost use Rattle.std.specs.Prelude.{◌≡◌, [], ◌∷◌, ◌≤◌, ◌<◌, length, None, Some, option_map};
ghost use Rattle.std.specs.Iterator.{at_most};
ghost use Rattle.rules.specs.Frames.{digit_of, digits, frame_line};
ghost use Rattle.rules.specs.Sorts.{sort_byte, widths};
ghost use Rattle.frames.specs.Table.{sort_named, sort_from};
ghost use Rattle.frames.specs.Text.{line_most, frame_text, left_at, Wrote, Stepped, Gives, Piece};

use answer::Answer;
use ids::{BlockId, FunId, InsnId};

// No line is longer, its end included.
pub const LINE_MOST: usize = 32;

// No frame has more numbers.
pub const NUMBERS_MOST: usize = 4;

// The sorts of frames, each with the byte that begins its lines.
// Stays: the bytes are published, and each stands once, as each width does.
#[derive(Clone, Copy)]
pub enum Sort {
    Totals = 1,
    Block = 2,
    Kind = 3,
    Use = 4,
    Caller = 5,
    Refusal = 127,
}

const SORTS: [Sort; 6] = [
    Sort::Totals,
    Sort::Block,
    Sort::Kind,
    Sort::Use,
    Sort::Caller,
    Sort::Refusal,
];

impl Sort {
    pub fn byte(self) -> usize
        ensures { result ≡ sort_byte (sort_named self) }
    {
        self as usize
    }

    // How many bytes wide its numbers are.
    pub fn widths(self) -> &'static [usize]
        ensures { result.now ≡ widths (sort_named self) }
    {
        match self {
            Sort::Totals => &[1, 1, 2, 8],
            Sort::Block => &[1, 1],
            Sort::Kind => &[2, 1, 8],
            Sort::Use => &[2, 2],
            Sort::Caller => &[1, 2],
            Sort::Refusal => &[1],
        }
    }

    // The sort that a byte begins.
    pub fn from_byte(byte: usize) -> Option<Sort>
        ensures { option_map sort_named result ≡ sort_from byte }
    {
        for sort in SORTS {
            if sort.byte() == byte {
                return Some(sort);
            }
        }
        None
    }
}

// A frame: the totals; whether a block is live; an instruction's kind, by its tag and payload; its use by another; a function's caller; a refusal's number.
// Stays: a tag and a payload, since answer memory may hold words that are no kind's; and a refusal's number, since the frame is written for each that a byte
// holds, and a `Refusal` would ask more of callers.
#[derive(Clone, Copy)]
pub enum Frame {
    Totals(Totals),
    Block(BlockId, bool),
    Kind(InsnId, usize, usize),
    Use(InsnId, InsnId),
    Caller(FunId, InsnId),
    Refusal(u8),
}

#[derive(Clone, Copy)]
pub struct Totals {
    pub functions: usize,
    pub blocks: usize,
    pub instructions: usize,
    pub count: usize,
}

// The place of a frame that may be next: the totals; a block's; an instruction's kind; its use at a place of the users' table; a function's from a caller on.
// Stays: the one place that a buffer ends at and the next begins at, by which the contracts say what is left; five iterators, one behind the other, would hold a
// place each.
#[derive(Clone, Copy)]
pub enum NextFrame {
    Totals,
    Block(BlockId),
    Instruction(InsnId),
    Use(InsnId, usize),
    Caller(FunId, InsnId),
}

// A hexadecimal digit.
fn digit(n: usize) -> u8
    requires { n < 16 }
    ensures { result ≡ digit_of n }
{
    b"0123456789abcdef"[n]
}

// The lowest digits of n, as many as there is room for.
// Stays: std's `{:02x}` writes all digits of a number, and a place of lent memory may hold one that is longer than its field.
fn put(n: usize, out: &mut [u8])
    ensures { out.new ≡ digits (length out.old) n [] }
{
    let mut rest = n;
    // Stays: by places; tried: behind `iter_mut().rev()` the check knows nothing of what was written (LIBRARY.md of Rattle).
    for left in (0..out.len()).rev() {
        out[left] = digit(rest % 16);
        rest /= 16;
    }
}

// A line: the byte of its sort, its numbers, and its end.
#[tactic(auto, using(crate::proofs::Laws::lining_width, crate::proofs::Laws::lining_fits, crate::proofs::Laws::lining_end))]
fn write_line(sort: Sort, numbers: &[usize], out: &mut [u8]) -> usize
    requires { (length numbers.now ≡ length (widths (sort_named sort))) × (line_most ≤ length out.old) }
    ensures { Wrote (frame_line (sort_named sort) numbers.now) out.old result out.new }
{
    put(sort.byte(), &mut out[..2]);
    let widths = sort.widths();
    let mut at = 2;
    for k in 0..numbers.len() {
        let end = at + 2 * widths[k];
        put(numbers[k], &mut out[at..end]);
        at = end;
    }
    out[at] = b'\n';
    at + 1
}

impl Frame {
    // Writes the frame's line at the start of memory, and answers how long it is.
    #[tactic(auto, unfolding(rules::specs::Frames::refusal_frame))]
    pub fn write(self, out: &mut [u8]) -> usize
        requires { line_most ≤ length out.old }
        ensures { Wrote (frame_text self) out.old result out.new }
    {
        match self {
            Frame::Totals(t) => write_line(
                Sort::Totals,
                &[t.functions, t.blocks, t.instructions, t.count],
                out,
            ),
            Frame::Block(b, live) => write_line(Sort::Block, &[b.index(), usize::from(live)], out),
            Frame::Kind(i, tag, payload) => write_line(Sort::Kind, &[i.index(), tag, payload], out),
            Frame::Use(i, user) => write_line(Sort::Use, &[i.index(), user.index()], out),
            Frame::Caller(f, i) => write_line(Sort::Caller, &[f.index(), i.index()], out),
            Frame::Refusal(n) => write_line(Sort::Refusal, &[usize::from(n)], out),
        }
    }
}

// What stands at a place: its frame, if it has one, and the place behind it.
struct Step {
    frame: Option<Frame>,
    next: Option<NextFrame>,
}

// The frames of an answer from a place on, read from the answer memory.
#[derive(Drop)]
pub struct Frames<'a> {
    pub answer: Answer<'a>,
    pub next: Option<NextFrame>,
}

impl<'a> Frames<'a> {
    // All frames.
    pub fn of(answer: Answer<'a>) -> Frames<'a>
        ensures { (result.answer ≡ answer.entry) × (result.next ≡ Some NextFrame.Totals) }
    {
        Frames {
            answer,
            next: Some(NextFrame::Totals),
        }
    }

    #[tactic(auto, using(crate::proofs::Steps::totals_step))]
    fn totals(&self) -> Step
        ensures { Stepped self.now.answer.words.now NextFrame.Totals result.frame result.next }
    {
        Step {
            frame: Some(Frame::Totals(Totals {
                functions: self.answer.functions(),
                blocks: self.answer.blocks(),
                instructions: self.answer.instructions(),
                count: self.answer.count(),
            })),
            next: Some(NextFrame::Block(BlockId(0))),
        }
    }

    #[tactic(auto, using(crate::proofs::Steps::block_end, crate::proofs::Steps::block_more))]
    fn block(&self, b: BlockId) -> Step
        ensures { Stepped self.now.answer.words.now (NextFrame.Block b) result.frame result.next }
    {
        if self.answer.blocks() <= b.index() {
            return Step {
                frame: None,
                next: Some(NextFrame::Instruction(InsnId(0))),
            };
        }
        Step {
            frame: Some(Frame::Block(b, self.answer.live(b))),
            next: Some(NextFrame::Block(BlockId(b.0 + 1))),
        }
    }

    #[tactic(auto, using(crate::proofs::Steps::kind_more))]
    fn instruction(&self, i: InsnId) -> Step
        ensures { Stepped self.now.answer.words.now (NextFrame.Instruction i) result.frame result.next }
    {
        if self.answer.instructions() <= i.index() {
            return Step {
                frame: None,
                next: Some(NextFrame::Use(InsnId(0), self.answer.users_start(InsnId(0)))),
            };
        }
        let tag = self.answer.tag(i);
        let payload = self.answer.payload(i);
        Step {
            frame: Some(Frame::Kind(i, tag, payload)),
            next: Some(NextFrame::Instruction(InsnId(i.0 + 1))),
        }
    }

    #[tactic(auto, using(crate::proofs::Steps::use_end))]
    fn user(&self, i: InsnId, j: usize) -> Step
        ensures { Stepped self.now.answer.words.now (NextFrame.Use i j) result.frame result.next }
    {
        if self.answer.instructions() <= i.index() {
            return Step {
                frame: None,
                next: Some(NextFrame::Caller(FunId(0), InsnId(0))),
            };
        }
        let end = self.answer.users_end(i);
        if end <= j {
            return Step {
                frame: None,
                next: Some(NextFrame::Use(InsnId(i.0 + 1), end)),
            };
        }
        Step {
            frame: Some(Frame::Use(i, self.answer.user(j))),
            next: Some(NextFrame::Use(i, j + 1)),
        }
    }

    #[tactic(auto, using(crate::proofs::Steps::caller_end, crate::proofs::Steps::caller_next, crate::proofs::Steps::caller_skip, crate::proofs::Steps::caller_none, crate::proofs::Steps::caller_more))]
    fn caller(&self, f: FunId, i: InsnId) -> Step
        ensures { Stepped self.now.answer.words.now (NextFrame.Caller f i) result.frame result.next }
    {
        if self.answer.functions() <= f.index() {
            return Step {
                frame: None,
                next: None,
            };
        }
        if self.answer.instructions() <= i.index() {
            return Step {
                frame: None,
                next: Some(NextFrame::Caller(FunId(f.0 + 1), InsnId(0))),
            };
        }
        let bits = self.answer.callers_from(f, i);
        if bits == 0 {
            // None in the rest of the word.
            return Step {
                frame: None,
                next: Some(NextFrame::Caller(f, InsnId((i.0 / 64 + 1) * 64))),
            };
        }
        let next = Some(NextFrame::Caller(f, InsnId(i.0 + 1)));
        if bits % 2 == 0 {
            return Step { frame: None, next };
        }
        Step {
            frame: Some(Frame::Caller(f, i)),
            next,
        }
    }

    fn step(&self, at: NextFrame) -> Step
        ensures { Stepped self.now.answer.words.now at result.frame result.next }
    {
        match at {
            NextFrame::Totals => self.totals(),
            NextFrame::Block(b) => self.block(b),
            NextFrame::Instruction(i) => self.instruction(i),
            NextFrame::Use(i, j) => self.user(i, j),
            NextFrame::Caller(f, i) => self.caller(f, i),
        }
    }

    // Writes frames as far as the memory has room for a line, and answers how many bytes they are: none only at the end.
    pub fn fill(&mut self, out: &mut [u8]) -> usize
        requires { line_most ≤ length out.old }
        ensures piece { Piece self.old.answer.words.now self.old.next out.old self.new.next result out.new }
        ensures ended { result ≡ 0 → self.new.next ≡ None }
        ensures answer { self.new.answer ≡ self.old.answer }
    {
        let mut len = 0;
        // Stays: a sum of lengths, since a line's length differs from frame to frame, and a frame is taken only where a line has room.
        while LINE_MOST <= out.len() - len {
            let Some(frame) = self.next() else {
                break;
            };
            len += frame.write(&mut out[len..]);
        }
        len
    }
}

impl Iterator for Frames<'_> {
    type Item = Frame;

    ghost next_gives = { λ s r t. Gives s.answer.words.now s.next r t.next × (t.answer ≡ s.answer) };

    ghost remaining = { λ s. at_most (left_at s.next) };

    fn next(&mut self) -> Option<Frame> {
        while let Some(at) = self.next {
            let Step { frame, next } = self.step(at);
            self.next = next;
            if frame.is_some() {
                return frame;
            }
        }
        None
    }
}
