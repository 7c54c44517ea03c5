// A kind in the two words that the tables hold of it: its byte and its payload.
use crate::{Kind, tags};

// Stays: two words and no `Kind`: tests of the byte are faster than tests of the kind that it stands for, so rules that join many operands go by these words.
// With kinds in three functions of sends, rings of parameters took 78 in 100 longer, which is over the bar (docs/DECISIONS.md, 66).
#[derive(Clone, Copy, PartialEq, Eq)]
pub struct Words {
    pub tag: usize,
    pub bits: usize,
}

impl From<Kind> for Words {
    ghost use Rattle.std.specs.Prelude.{◌≡◌};
    ghost use Rattle.kinds.specs.Kinds.{tag_of};
    ghost use Rattle.kinds.specs.InWords.{words_of};

    ghost from_gives = { λ k x. (words_of x ≡ k) × (x.tag ≡ tag_of k) };

    #[inline(always)]
    #[tactic(auto, using(crate::proofs::Told::made))]
    fn from(k: Kind) -> Words {
        Words {
            tag: k.tag(),
            bits: k.payload(),
        }
    }
}

impl Words {
    ghost use Rattle.std.specs.Prelude.{◌≡◌};
    ghost use Rattle.kinds.specs.Kinds.{is_empty, is_name, is_set, is_any};
    ghost use Rattle.kinds.specs.InWords.{words_of, as_set};

    pub const EMPTY: Words = Words {
        tag: tags::EMPTY,
        bits: 0,
    };

    pub const NIL: Words = Words {
        tag: tags::NIL,
        bits: 0,
    };

    // The kind that they stand for.
    #[inline(always)]
    pub fn kind(self) -> Kind
        ensures { result ≡ words_of self }
    {
        crate::kind_from(self.tag, self.bits)
    }

    #[inline(always)]
    #[tactic(auto, using(crate::proofs::Told::empty_tag))]
    pub fn is_empty(self) -> bool
        ensures { result ≡ is_empty (words_of self) }
    {
        self.tag == tags::EMPTY
    }

    #[inline(always)]
    #[tactic(auto, using(crate::proofs::Told::name_tag))]
    pub fn is_name(self) -> bool
        ensures { result ≡ is_name (words_of self) }
    {
        (self.tag == tags::FUN) | (self.tag == tags::CLASS)
    }

    #[inline(always)]
    #[tactic(auto, using(crate::proofs::Told::set_tag))]
    pub fn is_set(self) -> bool
        ensures { result ≡ is_set (words_of self) }
    {
        self.tag == tags::OBJECTS
    }

    #[inline(always)]
    #[tactic(auto, using(crate::proofs::Told::any_tag))]
    pub fn is_any(self) -> bool
        ensures { result ≡ is_any (words_of self) }
    {
        tags::OBJECTS < self.tag
    }

    // The classes of the kind, unless it is a name or Any. The built-in classes are 0 to 3: bits 1, 2, 4 and 8.
    #[tactic(auto, using(crate::proofs::Told::sets))]
    pub fn as_set(self) -> Option<u64>
        ensures { result ≡ as_set (words_of self) }
    {
        match self.tag {
            tags::OBJECTS => Some(self.bits as u64),
            tags::EMPTY => Some(0),
            tags::NIL => Some(1),
            tags::NUM | tags::INT => Some(2),
            tags::BOOL => Some(12),
            tags::TRUTH => Some(if self.bits == 0 { 8 } else { 4 }),
            _ => None,
        }
    }
}
