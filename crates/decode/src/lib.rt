// A stored answer's frames read back.
#![tactic(auto)]

ghost use Rattle.std.specs.Prelude.{get_or, OnSome, IfSome, EachIndex, true, [], ◌∷◌, ◌<◌, ◌^◌, ◌≡◌, ◌≤◌, ◌+◌, length, drop, option_map, MatchOption, Option};
ghost use Rattle.memory.specs.Layout.{functions_most, blocks_most, instructions_most, uses_most};
ghost use Rattle.answer.specs.Layout.{answer_length};
ghost use Rattle.rules.specs.Sorts.{of_totals, of_block, of_kind, of_use, of_caller, of_refusal, widths};
ghost use Rattle.frames.specs.Table.{sort_named};
ghost use Rattle.decode.specs.Lines.{digit_in, if_some, digits_in, numbers_in, allowed, legal_from, frame_in};
ghost use Rattle.decode.specs.Stored.{Begun, Progress, nothing, read_frame, read_from};
ghost use Rattle.decode.specs.Standing.{legal_frame, begun_image};
ghost use Rattle.decode.specs.Taking.{Stands, Took, Reached, Underway, TakenTo, IllegalIn};
ghost use Rattle.decode.specs.Load.{number_of, told, held, loaded};
ghost use Rattle.memory.specs.Memory.{zeros, Blank};
ghost use Rattle.frames.specs.declared.Frame.TheVariants as F;

use frames::{Frame, Sort, Totals};
use ids::{BlockId, FunId, InsnId};
use kinds::tags;

// ---- numbers

// A lower-case hexadecimal digit.
fn digit(c: u8) -> Option<usize>
    ensures { result ≡ digit_in c }
{
    match c {
        b'0'..=b'9' => Some(usize::from(c - b'0')),
        b'a'..=b'f' => Some(usize::from(c - b'a') + 10),
        _ => None,
    }
}

// A number of so many digits at a place of the text.
fn number(text: &[u8], at: usize, digits: usize) -> Option<usize>
    requires { (at ≤ length text.now) × (digits ≤ 16) }
    ensures { (digits_in digits 0 (drop at text.now) ≡ option_map (λ n. (n, drop (at + digits) text.now)) result) × OnSome result (at + digits ≤ length text.now) }
{
    let mut n = 0;
    for i in 0..digits {
        let c = *text.get(at + i)?;
        n = n * 16 + digit(c)?;
    }
    Some(n)
}

// Numbers of these widths in bytes, one behind the other; answers where they end.
#[tactic(auto, using(crate::proofs::Digits::several_start, crate::proofs::Digits::several_bad, crate::proofs::Digits::several_more, crate::proofs::Digits::several_done))]
fn numbers(text: &[u8], start: usize, widths: &[usize], out: &mut [usize]) -> Option<usize>
    requires { (start ≤ length text.now) × (length widths.now ≡ length out.old) × EachIndex widths.now (λ k. get_or widths.now k 0 ≤ 8) }
    ensures { (numbers_in widths.now (drop start text.now) ≡ option_map (λ at. (out.new, drop at text.now)) result) × IfSome result (λ at. at ≤ length text.now) }
{
    let mut at = start;
    for k in 0..out.len() {
        let digits = 2 * widths[k];
        out[k] = number(text, at, digits)?;
        at += digits;
    }
    Some(at)
}

// ---- lines: a frame of each sort, if its numbers are legal

// The questions that a script can be refused by.
const QUESTIONS: usize = 20;

#[tactic(auto, unfolding(crate::specs::Lines::legal_from, crate::specs::Lines::legal_numbers))]
fn totals_frame(functions: usize, blocks: usize, instructions: usize, count: usize) -> Option<Frame>
    ensures { legal_from of_totals (functions ∷ blocks ∷ instructions ∷ count ∷ []) ≡ result }
{
    if memory::FUNCTIONS_MOST < functions
        || memory::BLOCKS_MOST < blocks
        || memory::INSTRUCTIONS_MOST < instructions
    {
        return None;
    }
    Some(Frame::Totals(Totals {
        functions,
        blocks,
        instructions,
        count,
    }))
}

#[tactic(auto, unfolding(crate::specs::Lines::legal_from, crate::specs::Lines::legal_numbers))]
fn block_frame(block: usize, live: usize) -> Option<Frame>
    ensures { legal_from of_block (block ∷ live ∷ []) ≡ result }
{
    if memory::BLOCKS_MOST <= block || 1 < live {
        return None;
    }
    Some(Frame::Block(BlockId(block as u32), live != 0))
}

// A payload that a kind's byte allows.
fn allows(tag: usize, payload: usize) -> bool
    ensures { result ≡ allowed tag payload }
{
    match tag {
        tags::EMPTY | tags::NIL | tags::INT | tags::BOOL | tags::ANY => payload == 0,
        tags::NUM => true,
        tags::TRUTH => payload <= 1,
        tags::FUN => payload < memory::FUNCTIONS_MOST,
        tags::CLASS => payload < memory::CLASSES_MOST,
        tags::OBJECTS => payload != 0,
        _ => false,
    }
}

#[tactic(auto, unfolding(crate::specs::Lines::legal_from, crate::specs::Lines::legal_numbers))]
fn kind_frame(instruction: usize, tag: usize, payload: usize) -> Option<Frame>
    ensures { legal_from of_kind (instruction ∷ tag ∷ payload ∷ []) ≡ result }
{
    if memory::INSTRUCTIONS_MOST <= instruction || !allows(tag, payload) {
        return None;
    }
    Some(Frame::Kind(InsnId(instruction as u32), tag, payload))
}

#[tactic(auto, unfolding(crate::specs::Lines::legal_from, crate::specs::Lines::legal_numbers))]
fn use_frame(used: usize, user: usize) -> Option<Frame>
    ensures { legal_from of_use (used ∷ user ∷ []) ≡ result }
{
    if memory::INSTRUCTIONS_MOST <= used || memory::INSTRUCTIONS_MOST <= user {
        return None;
    }
    Some(Frame::Use(InsnId(used as u32), InsnId(user as u32)))
}

#[tactic(auto, unfolding(crate::specs::Lines::legal_from, crate::specs::Lines::legal_numbers))]
fn caller_frame(function: usize, caller: usize) -> Option<Frame>
    ensures { legal_from of_caller (function ∷ caller ∷ []) ≡ result }
{
    if memory::FUNCTIONS_MOST <= function || memory::INSTRUCTIONS_MOST <= caller {
        return None;
    }
    Some(Frame::Caller(FunId(function as u32), InsnId(caller as u32)))
}

// The number of a question that can be answered no.
#[tactic(auto, unfolding(crate::specs::Lines::legal_from, crate::specs::Lines::legal_numbers))]
fn refusal_frame(question: usize) -> Option<Frame>
    ensures { legal_from of_refusal (question ∷ []) ≡ result }
{
    if question == 0 || QUESTIONS < question {
        return None;
    }
    Some(Frame::Refusal(question as u8))
}

// The frame of a sort with these numbers, if they are those of a legal one.
fn frame_of(sort: Sort, n: &[usize]) -> Option<Frame>
    requires { length n.now ≡ length (widths (sort_named sort)) }
    ensures { legal_from (sort_named sort) n.now ≡ result }
{
    match sort {
        Sort::Totals => totals_frame(n[0], n[1], n[2], n[3]),
        Sort::Block => block_frame(n[0], n[1]),
        Sort::Kind => kind_frame(n[0], n[1], n[2]),
        Sort::Use => use_frame(n[0], n[1]),
        Sort::Caller => caller_frame(n[0], n[1]),
        Sort::Refusal => refusal_frame(n[0]),
    }
}

// A legal frame, and where the text goes on behind its line.
#[derive(Clone, Copy)]
struct Line {
    frame: Frame,
    end: usize,
}

// The line at a place of the text.
fn line_at(text: &[u8], start: usize) -> Option<Line>
    requires { start ≤ length text.now }
    ensures { (frame_in (drop start text.now) ≡ option_map (λ l. (l.frame, drop l.end text.now)) result) × IfSome result (λ l. l.end ≤ length text.now) }
{
    let byte = number(text, start, 2)?;
    let sort = Sort::from_byte(byte)?;
    let widths = sort.widths();
    let mut store = [0; frames::NUMBERS_MOST];
    let n = &mut store[..widths.len()];
    let end = numbers(text, start + 2, widths, n)?;
    if *text.get(end)? != b'\n' {
        return None;
    }
    let frame = frame_of(sort, n)?;
    Some(Line {
        frame,
        end: end + 1,
    })
}

// ---- an answer, frame by frame

// How far the reading of an answer has come: its totals; how many blocks, kinds, uses and callers were told; the last use and the last caller.
#[derive(Clone, Copy)]
pub struct Partial {
    pub totals: Totals,
    pub live: usize,
    pub kinds: usize,
    pub uses: usize,
    pub row: usize,
    pub user: usize,
    pub calls: usize,
    pub function: usize,
    pub caller: usize,
}

// Whether a block is live.
fn block(partial: Partial, b: BlockId, live: bool, answer: &mut [usize]) -> Option<Partial>
    requires { (length answer.old ≡ answer_length) × (partial.totals.blocks ≤ blocks_most) }
    ensures { (x : Begun) → Stands x partial answer.old → Took x (F.Block b live) result answer.new }
{
    if b.index() != partial.live || partial.totals.blocks <= b.index() {
        return None;
    }
    answer[answer::LIVE + b.index()] = usize::from(live);
    Some(Partial {
        live: partial.live + 1,
        ..partial
    })
}

// The starts of the rows behind `partial.row`, up to row.
fn starts(partial: Partial, row: usize, answer: &mut [usize])
    requires { (length answer.old ≡ answer_length) × (partial.row ≤ row) × (row ≤ instructions_most) }
    ensures { (x : Begun) → Stands x partial answer.old → answer.new ≡ begun_image row x }
{
    for k in partial.row..row {
        answer[answer::STARTS + k + 1] = partial.uses;
    }
}

// An instruction's kind.
fn kind(
    partial: Partial,
    i: InsnId,
    tag: usize,
    payload: usize,
    answer: &mut [usize],
) -> Option<Partial>
    requires { (length answer.old ≡ answer_length) × (partial.totals.instructions ≤ instructions_most) × (legal_frame (F.Kind i tag payload) ≡ true) }
    ensures { (x : Begun) → Stands x partial answer.old → Took x (F.Kind i tag payload) result answer.new }
{
    let at = i.index();
    if partial.live != partial.totals.blocks
        || at != partial.kinds
        || partial.totals.instructions <= at
    {
        return None;
    }
    if tag == tags::FUN && partial.totals.functions <= payload {
        return None;
    }
    answer[answer::TAGS + at] = tag;
    answer[answer::PAYLOADS + at] = payload;
    Some(Partial {
        kinds: partial.kinds + 1,
        ..partial
    })
}

// A use of an instruction by another.
fn user(partial: Partial, i: InsnId, u: InsnId, answer: &mut [usize]) -> Option<Partial>
    requires { (length answer.old ≡ answer_length) × (partial.totals.instructions ≤ instructions_most) }
    ensures { (x : Begun) → Stands x partial answer.old → Took x (F.Use i u) result answer.new }
{
    let row = i.index();
    let user = u.index();
    if partial.live != partial.totals.blocks
        || partial.kinds != partial.totals.instructions
        || partial.calls != 0
    {
        return None;
    }
    if partial.totals.instructions <= row
        || partial.totals.instructions <= user
        || memory::USES_MOST <= partial.uses
    {
        return None;
    }
    if row < partial.row || (row == partial.row && partial.uses != 0 && user <= partial.user) {
        return None;
    }
    starts(partial, row, answer);
    answer[answer::USERS + partial.uses] = user;
    Some(Partial {
        uses: partial.uses + 1,
        row,
        user,
        ..partial
    })
}

// A caller of a function.
fn caller(partial: Partial, f: FunId, i: InsnId, answer: &mut [usize]) -> Option<Partial>
    requires { (length answer.old ≡ answer_length) × (partial.totals.functions ≤ functions_most) × (partial.totals.instructions ≤ instructions_most) × (partial.calls < 2 ^ 32) }
    ensures { (x : Begun) → Stands x partial answer.old → Took x (F.Caller f i) result answer.new }
{
    let function = f.index();
    let caller = i.index();
    if partial.live != partial.totals.blocks || partial.kinds != partial.totals.instructions {
        return None;
    }
    if partial.totals.functions <= function || partial.totals.instructions <= caller {
        return None;
    }
    if partial.calls != 0
        && (function < partial.function
            || (function == partial.function && caller <= partial.caller))
    {
        return None;
    }
    let at = answer::CALLERS + function * memory::ROW_WORDS + caller / 64;
    // Stays: the bit isn't set yet, so adding sets it, and the law of the caller rows is one of sums.
    answer[at] = answer[at].wrapping_add(1 << (caller % 64));
    Some(Partial {
        calls: partial.calls + 1,
        function,
        caller,
        ..partial
    })
}

// A frame of an answer that has begun.
fn go_on(partial: Partial, frame: Frame, answer: &mut [usize]) -> Option<Partial>
    requires { (length answer.old ≡ answer_length) × (legal_frame frame ≡ true) × ((x : Begun) × Stands x partial answer.old) }
    ensures { (x : Begun) → Stands x partial answer.old → Took x frame result answer.new }
{
    match frame {
        Frame::Totals(_) | Frame::Refusal(_) => None,
        Frame::Block(b, live) => block(partial, b, live, answer),
        Frame::Kind(i, tag, payload) => kind(partial, i, tag, payload, answer),
        Frame::Use(i, u) => user(partial, i, u, answer),
        Frame::Caller(f, i) => caller(partial, f, i, answer),
    }
}

// ---- a text, frame by frame

// How far the reading of a text has come: nothing yet; a refusal; an answer; a frame that may not stand there, behind which lines are only asked to be legal.
#[derive(Clone, Copy)]
pub enum Decoder {
    Nothing,
    Refusal(u8),
    Answer(Partial),
    Misplaced,
}

// The first frame.
fn begin(frame: Frame, answer: &mut [usize]) -> Decoder
    requires { Blank answer.old answer_length × (legal_frame frame ≡ true) }
    ensures { Reached (read_frame nothing frame) result answer.new }
{
    match frame {
        Frame::Totals(t) => {
            answer::write_totals(answer, t.functions, t.blocks, t.instructions, t.count);
            Decoder::Answer(Partial {
                totals: t,
                live: 0,
                kinds: 0,
                uses: 0,
                row: 0,
                user: 0,
                calls: 0,
                function: 0,
                caller: 0,
            })
        }
        Frame::Refusal(n) => Decoder::Refusal(n),
        Frame::Block(_, _) | Frame::Kind(_, _, _) | Frame::Use(_, _) | Frame::Caller(_, _) => {
            Decoder::Misplaced
        }
    }
}

// The next frame.
fn take(decoder: Decoder, frame: Frame, answer: &mut [usize]) -> Decoder
    requires { Underway decoder answer.old × (legal_frame frame ≡ true) }
    ensures { (p : Option Progress) → Reached p decoder answer.old → Reached (if_some p (λ q. read_frame q frame)) result answer.new }
{
    match decoder {
        Decoder::Nothing => begin(frame, answer),
        Decoder::Answer(partial) => match go_on(partial, frame, answer) {
            Some(partial) => Decoder::Answer(partial),
            None => Decoder::Misplaced,
        },
        Decoder::Refusal(_) | Decoder::Misplaced => Decoder::Misplaced,
    }
}

// ---- and piece by piece

// A piece of text that was taken up to `end`.
#[derive(Clone, Copy)]
pub struct Taken {
    pub decoder: Decoder,
    pub end: usize,
}

// Takes the whole lines of a piece of the text; none if one of them is illegal, whatever follows. What is left is shorter than `LINE_MOST`, so a piece that is as
// long is taken on; a line that is illegal may be told with the next piece.
#[tactic(auto, using(crate::proofs::Turns::going_start, crate::proofs::Turns::going_done))]
pub fn take_lines(decoder: Decoder, text: &[u8], answer: &mut [usize]) -> Option<Taken>
    requires { Underway decoder answer.old }
    ensures { (p : Option Progress) → Reached p decoder answer.old → MatchOption result (IllegalIn p text.now) (λ r. TakenTo p text.now r.decoder r.end answer.new) }
{
    let mut decoder = decoder;
    let mut end = 0;
    while let Some(line) = line_at(text, end) {
        decoder = take(decoder, line.frame, answer);
        end = line.end;
    }
    if frames::LINE_MOST <= text.len() - end {
        return None;
    }
    Some(Taken { decoder, end })
}

// Why nothing was read.
#[derive(Clone, Copy, PartialEq, Eq, Debug)]
pub enum Unread {
    MemoryTooShort = 2,
    IllegalLine = 21,
    Misplaced = 22,
}

impl From<Unread> for u8 {
    ghost from_gives = { λ e n. n ≡ number_of e };

    fn from(e: Unread) -> u8 {
        e as u8
    }
}

// What was read: an answer, which stands in the answer memory; a refusal, by its number; nothing.
#[derive(Clone, Copy, PartialEq, Eq, Debug)]
pub enum Loaded {
    Answer,
    Refusal(u8),
    Unread(Unread),
}

// Nothing was read.
pub fn give_up(e: Unread, answer: &mut [usize]) -> Loaded
    ensures { (result ≡ Loaded.Unread e) × (answer.new ≡ zeros (length answer.old)) }
{
    memory::clear(answer);
    Loaded::Unread(e)
}

// The end of a text.
#[tactic(auto, unfolding(crate::specs::Stored::read_from, crate::specs::Lines::frames_in))]
fn finish(decoder: Decoder, answer: &mut [usize]) -> Loaded
    requires { Underway decoder answer.old }
    ensures { (p : Option Progress) → Reached p decoder answer.old → held (read_from p []) ≡ (told result, answer.new) }
{
    match decoder {
        Decoder::Nothing | Decoder::Misplaced => give_up(Unread::Misplaced, answer),
        Decoder::Refusal(n) => Loaded::Refusal(n),
        Decoder::Answer(partial) => {
            if partial.live != partial.totals.blocks
                || partial.kinds != partial.totals.instructions
            {
                return give_up(Unread::Misplaced, answer);
            }
            starts(partial, partial.totals.instructions, answer);
            Loaded::Answer
        }
    }
}

// The last piece of a text.
pub fn read_last(decoder: Decoder, text: &[u8], answer: &mut [usize]) -> Loaded
    requires { Underway decoder answer.old }
    ensures { (p : Option Progress) → Reached p decoder answer.old → held (read_from p text.now) ≡ (told result, answer.new) }
{
    let Some(taken) = take_lines(decoder, text, answer) else {
        return give_up(Unread::IllegalLine, answer);
    };
    if taken.end < text.len() {
        return give_up(Unread::IllegalLine, answer);
    }
    finish(taken.decoder, answer)
}

// Reads a stored answer. No demand is made of the text or of the memory: what it gives and leaves is `loaded`.
pub fn read_frames(text: &[u8], answer: &mut [usize]) -> Loaded
    ensures { loaded text.now answer.old ≡ (told result, answer.new) }
{
    if answer.len() < answer::ANSWER_LEN {
        return Loaded::Unread(Unread::MemoryTooShort);
    }
    let part = &mut answer[..answer::ANSWER_LEN];
    memory::clear(part);
    read_last(Decoder::Nothing, text, part)
}
