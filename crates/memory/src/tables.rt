// Rows of bits in a memory of 64-bit words.
ghost use Rattle.std.specs.Prelude.{◌≡◌, ◌+◌, ◌/◌, ◌≤◌, ◌<◌, length};
ghost use Rattle.memory.specs.Layout.{instructions_most, row_words};
ghost use Rattle.memory.specs.tables.Tables.{listed};
ghost use Rattle.memory.specs.tables.Bits.{bit_at, with_bit, Next, RowWord, LowestBit};

// The lowest bit of a word, and the word without it.
#[derive(Clone, Copy)]
pub struct Lowest {
    pub place: usize,
    pub rest: usize,
}

// Bit i of the row that starts at base.
// Stays: a row goes by where it starts and is no slice: the contracts tell the state's tables by the bits of its whole memory, and `set_bit` promises that all
// other words stay.
#[tactic(auto, unfolding(crate::specs::tables::Bits::bit_at))]
pub fn test_bit(words: &[usize], base: usize, i: usize) -> bool
    requires { base + i / 64 < length words.now }
    ensures { result ≡ bit_at words.now base i }
{
    let word = words[base + i / 64];
    (word >> (i % 64)) % 2 != 0
}

#[tactic(auto, using(crate::proofs::tables::Bit::bit_stored))]
pub fn set_bit(words: &mut [usize], base: usize, i: usize)
    requires { base + i / 64 < length words.old }
    ensures { words.new ≡ with_bit words.old base i }
{
    let at = base + i / 64;
    words[at] = words[at] | (1 << (i % 64));
}

// The first set bit from `from` on, among the first n bits of the row.
// Stays: a search through the row's words would have the first word, cut below `from`, as a case of its own.
#[tactic(auto, using(crate::proofs::tables::Walk::walks))]
pub fn next_bit(words: &[usize], base: usize, from: usize, n: usize) -> Option<usize>
    requires { (n ≤ instructions_most) × (base + row_words ≤ length words.now) }
    ensures { Next (bit_at words.now base) n from result }
{
    let mut i = from;
    while i < n {
        let passed = i % 64;
        let rest = words[base + i / 64] >> passed;
        if rest != 0 {
            let j = i + rest.trailing_zeros() as usize;
            return (j < n).then_some(j);
        }
        i = i - passed + 64;
    }
    None
}

// Word k of a row of n bits; what stands behind them in memory is left out.
#[tactic(auto, using(crate::proofs::tables::Word::row_words))]
pub fn row_word(words: &[usize], base: usize, n: usize, k: usize) -> usize
    requires { (k < row_words) × (base + row_words ≤ length words.now) }
    ensures { RowWord (listed n (bit_at words.now base)) k result }
{
    let from = k * 64;
    if n <= from {
        return 0;
    }
    let word = words[base + k];
    let left = n - from;
    if left < 64 {
        return word % (1 << left);
    }
    word
}

// The lowest bit of a word that has one.
// Stays: beside `ids::smallest`, which gives a class of a set: here it is a place in a word of lent memory, and a number of one sort is never used for another's.
#[tactic(auto, using(crate::proofs::tables::Words::lowest_bits))]
pub fn lowest_bit(w: usize) -> Lowest
    requires { 0 < w }
    ensures { LowestBit w result.place result.rest }
{
    Lowest {
        place: w.trailing_zeros() as usize,
        rest: w & (w - 1),
    }
}
