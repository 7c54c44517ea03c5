// The kinds of values that the analysis tells apart, their union, and arithmetic on them.
#![tactic(auto)]

pub mod tags;
pub mod words;

ghost use Rattle.std.specs.Prelude.{◌≡◌, true, false, ◌||◌, ◌<◌};
ghost use Rattle.ids.specs.Sets.{one_of, two_of};
ghost use Rattle.kinds.specs.Kinds.{tag_of, payload_of, fits_of, kind_from, is_empty, is_number, is_truth, is_name, is_any};
ghost use Rattle.kinds.specs.Union.{set_of, is_alone, mix_of, union_of, join_of};
ghost use Rattle.kinds.specs.Rules.{kind_of, result_of, wide_of, by_unions, arith_of, admits};

use ids::{ClassId, FunId};
use refusals::Refusal;
pub use words::Words;

#[derive(Clone, Copy, PartialEq, Eq)]
pub enum Kind {
    Empty,
    Nil,
    Num(i64),
    Truth(bool),
    Fun(FunId),
    Class(ClassId),
    Int,
    Bool,
    Objects(u64),
    Any,
}

// The operations on numbers.
#[derive(Clone, Copy, PartialEq, Eq)]
pub enum Arith {
    Add,
    Sub,
    Mul,
    Less,
}

impl Kind {
    // The kind of one class.
    pub fn object(c: ClassId) -> Kind
        requires { c.0 < 64 }
        ensures { result ≡ Kind.Objects (one_of c.0) }
    {
        Kind::Objects(ids::one(c))
    }

    // The kind of two classes.
    pub fn two_objects(c: ClassId, d: ClassId) -> Kind
        requires { (c.0 < 64) × (d.0 < 64) }
        ensures { result ≡ Kind.Objects (two_of c.0 d.0) }
    {
        Kind::Objects(ids::two(c, d))
    }

    // The kind byte, as a word.
    // Stays: memory and frames publish these numbers, so no order of the variants may move them.
    pub fn tag(self) -> usize
        ensures { result ≡ tag_of self }
    {
        match self {
            Kind::Empty => tags::EMPTY,
            Kind::Nil => tags::NIL,
            Kind::Num(_) => tags::NUM,
            Kind::Truth(_) => tags::TRUTH,
            Kind::Fun(_) => tags::FUN,
            Kind::Class(_) => tags::CLASS,
            Kind::Int => tags::INT,
            Kind::Bool => tags::BOOL,
            Kind::Objects(_) => tags::OBJECTS,
            Kind::Any => tags::ANY,
        }
    }

    // The payload, as a word: 0 where the kind has none.
    pub fn payload(self) -> usize
        ensures { (result ≡ payload_of self) × (fits_of self ≡ true) }
    {
        match self {
            Kind::Num(n) => numbers::bits_of(n) as usize,
            Kind::Truth(t) => t as usize,
            Kind::Fun(f) => f.index(),
            Kind::Class(c) => c.index(),
            Kind::Objects(s) => s as usize,
            _ => 0,
        }
    }

    pub fn is_empty(self) -> bool
        ensures { result ≡ is_empty self }
    {
        matches!(self, Kind::Empty)
    }

    pub fn is_any(self) -> bool
        ensures { result ≡ is_any self }
    {
        matches!(self, Kind::Any)
    }

    pub fn is_name(self) -> bool
        ensures { result ≡ is_name self }
    {
        matches!(self, Kind::Fun(_) | Kind::Class(_))
    }

    fn is_number(self) -> bool
        ensures { result ≡ is_number self }
    {
        matches!(self, Kind::Num(_) | Kind::Int)
    }

    fn is_truth(self) -> bool
        ensures { result ≡ is_truth self }
    {
        matches!(self, Kind::Truth(_) | Kind::Bool)
    }

    // The set of the kind's classes.
    pub fn classes(self) -> u64
        ensures { result ≡ set_of self }
    {
        match self {
            Kind::Nil => ids::one(ClassId::NIL),
            Kind::Num(_) | Kind::Int => ids::one(ClassId::INT),
            Kind::Truth(true) => ids::one(ClassId::TRUE),
            Kind::Truth(false) => ids::one(ClassId::FALSE),
            Kind::Bool => ids::two(ClassId::TRUE, ClassId::FALSE),
            Kind::Objects(s) => s,
            Kind::Empty | Kind::Fun(_) | Kind::Class(_) | Kind::Any => 0,
        }
    }

    // The kind admits the then arm of a choice (`arm` is true) or its else arm.
    pub fn admits(self, arm: bool) -> bool
        ensures { result ≡ admits arm self }
    {
        match self {
            Kind::Empty => false,
            Kind::Truth(t) => t == arm,
            _ => true,
        }
    }
}

// The kind of a byte and a payload, each a word.
#[tactic(auto, unfolding(crate::specs::Kinds::kind_from))]
pub fn kind_from(tag: usize, bits: usize) -> Kind
    ensures { result ≡ kind_from tag bits }
{
    match tag {
        tags::EMPTY => Kind::Empty,
        tags::NIL => Kind::Nil,
        tags::NUM => Kind::Num(numbers::number_of(bits as u64)),
        tags::TRUTH => Kind::Truth(bits != 0),
        tags::FUN => Kind::Fun(FunId(ids::number_in(bits))),
        tags::CLASS => Kind::Class(ClassId(ids::number_in(bits))),
        tags::INT => Kind::Int,
        tags::BOOL => Kind::Bool,
        tags::OBJECTS => Kind::Objects(bits as u64),
        _ => Kind::Any,
    }
}

// The union of two kinds that are neither Empty, Any nor names.
#[tactic(auto, using(crate::proofs::Steps::told_and, crate::proofs::Steps::mix_same, crate::proofs::Steps::mix_number, crate::proofs::Steps::mix_truth, crate::proofs::Steps::mix_set, crate::proofs::Same::eq_same, crate::proofs::Same::ne_same))]
fn mix(a: Kind, b: Kind) -> Kind
    requires { (is_alone a || is_alone b) ≡ false }
    ensures { result ≡ mix_of a b }
{
    if a == b {
        return a;
    }
    if a.is_number() & b.is_number() {
        return Kind::Int;
    }
    if a.is_truth() & b.is_truth() {
        return Kind::Bool;
    }
    Kind::Objects(a.classes() | b.classes())
}

// The union of any two kinds.
#[tactic(auto, using(crate::proofs::Steps::unions))]
fn union_of(a: Kind, b: Kind) -> Result<Kind, Refusal>
    ensures { result ≡ union_of a b }
{
    if a.is_any() | b.is_any() {
        return Ok(Kind::Any);
    }
    if a.is_empty() {
        return Ok(b);
    }
    if b.is_empty() {
        return Ok(a);
    }
    if a.is_name() | b.is_name() {
        return Err(Refusal::KindsClash);
    }
    Ok(mix(a, b))
}

// The same; two sets are joined at once.
#[tactic(auto, using(crate::proofs::Laws::sets_joined))]
pub fn union(a: Kind, b: Kind) -> Result<Kind, Refusal>
    ensures { result ≡ union_of a b }
{
    match (a, b) {
        (Kind::Objects(s), Kind::Objects(t)) => Ok(Kind::Objects(s | t)),
        _ => union_of(a, b),
    }
}

// A step of the union of many.
pub fn join(j: Result<Kind, Refusal>, k: Kind) -> Result<Kind, Refusal>
    ensures { result ≡ join_of j k }
{
    union(j?, k)
}

// A result as a kind: Int where it leaves i64.
fn kind_of(f: Option<i64>) -> Kind
    ensures { result ≡ kind_of f }
{
    match f {
        Some(z) => Kind::Num(z),
        None => Kind::Int,
    }
}

// Of two known numbers.
#[tactic(auto, unfolding(crate::specs::Rules::result_of))]
fn result_of(o: Arith, m: i64, n: i64) -> Kind
    ensures { result ≡ result_of o m n }
{
    match o {
        Arith::Add => kind_of(numbers::sum(m, n)),
        Arith::Sub => kind_of(numbers::difference(m, n)),
        Arith::Mul => kind_of(numbers::product(m, n)),
        Arith::Less => Kind::Truth(numbers::less(m, n)),
    }
}

// Of two numbers that are not both known.
fn wide_of(o: Arith) -> Kind
    ensures { result ≡ wide_of o }
{
    match o {
        Arith::Add | Arith::Sub | Arith::Mul => Kind::Int,
        Arith::Less => Kind::Bool,
    }
}

#[tactic(auto, using(crate::proofs::Steps::by_int, crate::proofs::Steps::by_other, crate::proofs::Steps::by_refusal, crate::proofs::Same::eq_same, crate::proofs::Same::ne_same))]
fn by_union(o: Arith, a: Kind, b: Kind) -> Result<Kind, Refusal>
    ensures { result ≡ by_unions o (union_of a b) }
{
    if union(a, b)? == Kind::Int {
        return Ok(wide_of(o));
    }
    Ok(Kind::Any)
}

// Add, Sub, Mul and LessThan on kinds.
#[tactic(auto, using(crate::proofs::Steps::rules_of))]
pub fn combine(o: Arith, a: Kind, b: Kind) -> Result<Kind, Refusal>
    ensures { result ≡ arith_of o a b }
{
    if a.is_empty() | b.is_empty() {
        return Ok(Kind::Empty);
    }
    match (a, b) {
        (Kind::Num(m), Kind::Num(n)) => Ok(result_of(o, m, n)),
        _ => by_union(o, a, b),
    }
}
