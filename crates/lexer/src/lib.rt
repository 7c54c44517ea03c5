// The words of a script, and names as places in it.
#![tactic(auto)]

ghost use Rattle.std.specs.Prelude.{Bool, ◌≡◌, ℕ, ◌+◌, ◌<◌, drop};
ghost use Rattle.rules.specs.Lists.{same};
ghost use Rattle.rules.specs.Words.{blank, letter, in_word, digit, sign, run, decimal};
ghost use Rattle.lexer.specs.Names.{name};
ghost use Rattle.lexer.specs.Lexed.{kept_token, fitting, Passes, Lexes, Glances};

use refusals::Refusal;

// What a word is: a literal with its value, a sign with its byte.
#[derive(Clone, Copy, PartialEq, Eq)]
pub enum Token {
    // Stays: in the rules it is a word with no bytes, and a reading goes on to the place behind it, which `None` wouldn't have.
    // A class ends with it as with `end`; elsewhere it is a word that doesn't fit.
    EndOfText,
    Name,
    Number(i64),
    Def,
    Class,
    End,
    Return,
    If,
    Else,
    AttrAccessor,
    Sign(u8),
}

// A word, its place in the script and the place behind it.
// Stays: the tables store a name as its place and its length, so a word has both and no slice.
// Stays: `next`, their sum, is a field as in the rules' word. Tried in this crate as a method, with a ghost field that says that the sum doesn't overflow: a glance promises
// a word that it doesn't make, so each of its laws has to bring that fact too; and eleven places of four crates, with their proofs, read the field.
#[derive(Clone, Copy)]
pub struct Word {
    pub token: Token,
    pub start: usize,
    pub len: usize,
    pub next: usize,
}

// ---- names

// The n bytes from a on, as far as the script goes.
// Stays: the tables and the variables hold a name as these two numbers, and this makes its bytes of them.
pub fn bytes_at(script: &[u8], a: usize, n: usize) -> &[u8]
    ensures { result.now ≡ name script.now a n }
{
    let rest = &script[a.min(script.len())..];
    &rest[..n.min(rest.len())]
}

// Put in where it is called, since most names differ in their first bytes.
// Stays: it is `==`, with its contract in the rules' words; else each caller would have to show that they mean the same.
#[inline(always)]
pub fn same_bytes(x: &[u8], y: &[u8]) -> bool
    ensures { result ≡ same x.now y.now }
{
    x == y
}

// ---- bytes

fn is_blank(b: u8) -> bool
    ensures { result ≡ blank b }
{
    matches!(b, b'\t'..=b'\r' | b' ')
}

fn is_letter(b: u8) -> bool
    ensures { result ≡ letter b }
{
    b.is_ascii_alphabetic()
}

fn is_in_word(b: u8) -> bool
    ensures { result ≡ in_word b }
{
    b.is_ascii_alphanumeric() | (b == b'_')
}

fn is_digit(b: u8) -> bool
    ensures { result ≡ digit b }
{
    b.is_ascii_digit()
}

fn is_sign(b: u8) -> bool
    ensures { result ≡ sign b }
{
    b"(),+-*=<.:@".contains(&b)
}

// ---- runs of bytes

// The place behind the bytes from `at` on that pass the test.
// By `position` the words of a script take 5 in 100 more instructions (docs/BENCHMARK.md).
fn behind<F: Fn(u8) -> bool>(script: &[u8], at: usize, test: F) -> usize
    requires { F.IsAlwaysCallable test }
    ensures { (f : ℕ → Bool) → Passes f (F.post test) → result ≡ at + run f (drop at script.now) }
{
    for i in at..script.len() {
        if !test(script[i]) {
            return i;
        }
    }
    at.max(script.len())
}

pub fn skip_blank(script: &[u8], at: usize) -> usize
    ensures { result ≡ at + run blank (drop at script.now) }
{
    behind(script, at, is_blank)
}

// ---- words

// The number that decimal digits write, unless it leaves i64.
#[tactic(auto, using(crate::proofs::Runs::ends))]
fn literal(digits: &[u8]) -> Option<i64>
    ensures { result ≡ fitting (decimal 0 digits.now) }
{
    let mut value: i64 = 0;
    for digit in digits {
        value = value
            .checked_mul(10)?
            .checked_add(i64::from(digit.saturating_sub(b'0')))?;
    }
    Some(value)
}

// What a word that begins with a letter is.
#[tactic(auto, using(crate::proofs::Texts::kept_none, crate::proofs::Texts::kept_return, crate::proofs::Texts::kept_attr))]
fn kept_token(word: &[u8]) -> Token
    ensures { result ≡ kept_token word.now }
{
    match word {
        b"def" => Token::Def,
        b"class" => Token::Class,
        b"end" => Token::End,
        b"return" => Token::Return,
        b"if" => Token::If,
        b"else" => Token::Else,
        b"attr_accessor" => Token::AttrAccessor,
        _ => Token::Name,
    }
}

// The next word from a place on, blanks skipped.
fn word_at(script: &[u8], at: usize) -> Result<Word, Refusal>
    ensures { Lexes script.now at result }
{
    let start = skip_blank(script, at);
    let Some(&b) = script.get(start) else {
        return Ok(Word {
            token: Token::EndOfText,
            start,
            len: 0,
            next: start,
        });
    };
    if is_letter(b) {
        let next = behind(script, start, is_in_word);
        let len = next - start;
        let token = kept_token(bytes_at(script, start, len));
        return Ok(Word {
            token,
            start,
            len,
            next,
        });
    }
    if is_digit(b) {
        let next = behind(script, start, is_digit);
        let len = next - start;
        let value = literal(bytes_at(script, start, len)).ok_or(Refusal::NumberTooLarge)?;
        return Ok(Word {
            token: Token::Number(value),
            start,
            len,
            next,
        });
    }
    if is_sign(b) {
        return Ok(Word {
            token: Token::Sign(b),
            start,
            len: 1,
            next: start + 1,
        });
    }
    Err(Refusal::UnknownByte)
}

// The next word from a place on, where only signs are told apart, with the place behind them: a word need not be read to its end.
// Stays: beside `word_at`, since each level of an expression asks only whether a sign is next (docs/DECISIONS.md, 39): by `word_at` a word's bytes would be read
// once a level.
fn sign_at(script: &[u8], at: usize) -> Result<Option<(u8, usize)>, Refusal>
    ensures { Glances script.now at result }
{
    let start = skip_blank(script, at);
    let Some(&b) = script.get(start) else {
        return Ok(None);
    };
    if is_letter(b) {
        return Ok(None);
    }
    if is_digit(b) {
        let next = behind(script, start, is_digit);
        if literal(bytes_at(script, start, next - start)).is_none() {
            return Err(Refusal::NumberTooLarge);
        }
        return Ok(None);
    }
    if is_sign(b) {
        return Ok(Some((b, start + 1)));
    }
    Err(Refusal::UnknownByte)
}

// ---- the reader

// A script and a place in it.
#[derive(Clone, Copy)]
pub struct Reader<'a> {
    pub src: &'a [u8],
    pub at: usize,
}

impl<'a> Reader<'a> {
    pub fn new(src: &'a [u8], at: usize) -> Reader<'a>
        ensures { (result.src ≡ src.entry) × (result.at ≡ at) }
    {
        Reader { src, at }
    }

    // The next word from the reader's place on.
    pub fn next(self) -> Result<Word, Refusal>
        ensures { Lexes self.entry.src.now self.entry.at result }
    {
        word_at(self.src, self.at)
    }

    // The same, where only signs are told apart.
    pub fn next_sign(self) -> Result<Option<(u8, usize)>, Refusal>
        ensures { Glances self.entry.src.now self.entry.at result }
    {
        sign_at(self.src, self.at)
    }
}

// The next word of a reader at that place.
pub fn read_word(script: &[u8], at: usize) -> Result<Word, Refusal>
    ensures { Lexes script.now at result }
{
    Reader::new(script, at).next()
}

// The next word of a reader at that place, where only signs are told apart.
pub fn glance(script: &[u8], at: usize) -> Result<Option<(u8, usize)>, Refusal>
    ensures { Glances script.now at result }
{
    Reader::new(script, at).next_sign()
}
