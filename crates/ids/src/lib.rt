// The numbers of a program's things, and sets of classes.
#![tactic(auto)]

mod upward;

ghost use Rattle.std.specs.Prelude.{◌≡◌, ◌%◌, ◌^◌, ◌<◌};
ghost use Rattle.std.specs.Int.Count.{ones};
ghost use Rattle.ids.specs.Sets.{one_of, two_of, next_of};

pub use upward::{ClassWalk, classes};

// A class, a function, a block and an instruction: four types, so that no number is used for another sort of thing.
// Stays: `index` stands in each. The checker refuses an `impl` that a macro of ours writes, and one type with the sort of thing as its
// parameter would hold a marker besides, in every id that is made and in every pattern.
// Stays: a row's number becomes an id by a cast: the check finds at each place that it fits, where `try_from` would hand on an error that
// can't occur.
#[derive(Clone, Copy, PartialEq, Eq)]
pub struct ClassId(pub u32);

#[derive(Clone, Copy, PartialEq, Eq)]
pub struct FunId(pub u32);

#[derive(Clone, Copy, PartialEq, Eq)]
pub struct BlockId(pub u32);

#[derive(Clone, Copy, PartialEq, Eq)]
pub struct InsnId(pub u32);

impl ClassId {
    pub const NIL: ClassId = ClassId(0);

    pub const INT: ClassId = ClassId(1);

    pub const TRUE: ClassId = ClassId(2);

    pub const FALSE: ClassId = ClassId(3);

    pub fn index(self) -> usize
        ensures { result ≡ self.0 }
    {
        self.0 as usize
    }
}

impl FunId {
    pub fn index(self) -> usize
        ensures { result ≡ self.0 }
    {
        self.0 as usize
    }
}

impl BlockId {
    pub fn index(self) -> usize
        ensures { result ≡ self.0 }
    {
        self.0 as usize
    }
}

impl InsnId {
    pub fn index(self) -> usize
        ensures { result ≡ self.0 }
    {
        self.0 as usize
    }
}

// The number of a thing in a word, which no longer one is written to.
pub fn number_in(word: usize) -> u32
    ensures { result ≡ word % 2 ^ 32 }
{
    (word % 4294967296) as u32
}

// The set of one class.
#[tactic(auto, using(crate::proofs::Bits::one_shl))]
pub fn one(c: ClassId) -> u64
    requires { c.0 < 64 }
    ensures { result ≡ one_of c.0 }
{
    1u64 << c.0
}

// The set of two classes.
pub fn two(c: ClassId, d: ClassId) -> u64
    requires { (c.0 < 64) × (d.0 < 64) }
    ensures { result ≡ two_of c.0 d.0 }
{
    one(c) | one(d)
}

// A step of the walk upward: the smallest class, found by counting trailing zeros, and the set without it.
#[tactic(auto, using(crate::proofs::Bits::one_shl, crate::proofs::Walk::smallest))]
pub fn smallest(s: u64) -> Option<(ClassId, u64)>
    ensures { result ≡ next_of s }
{
    if s == 0 {
        return None;
    }
    let i = s.trailing_zeros();
    Some((ClassId(i), s - (1 << i)))
}

// How many classes a set has.
pub fn count(s: u64) -> u32
    ensures { result ≡ ones s }
{
    s.count_ones()
}
