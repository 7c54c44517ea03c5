// The readers of one word, of a script and a place in it. The word itself is what `lexer::read_word` gives.
ghost use Rattle.std.specs.Prelude.{◌≡◌, List, ℕ, Ok};
ghost use Rattle.lexer.specs.declared.Token.TheVariants.{EndOfText};
ghost use Rattle.cursor.specs.Cursor.{Cursor};
ghost use Rattle.cursor.specs.Promises.{Sees, Idents, named_by, NameAt, MatchAt, NumberAt, ExpectAt, LiteralAt};

use lexer::{Token, Word};
use program::Name;
use refusals::Refusal;

// The name that the word x is.
pub fn name_of(x: Word) -> Result<Name, Refusal>
    ensures { (s : List ℕ) (c : Cursor) → Sees s c (Ok x) → Idents s c (named_by c x result) }
{
    if x.token == Token::Name {
        return Ok(Name {
            start: x.start,
            len: x.len,
        });
    }
    Err(Refusal::UnexpectedWord)
}

// The name that the next word is, and the place behind it.
pub fn expect_ident(script: &[u8], at: usize) -> Result<(Name, usize), Refusal>
    ensures { NameAt script.now at result }
{
    let x = lexer::read_word(script, at)?;
    let n = name_of(x)?;
    Ok((n, x.next))
}

// Stays: the end of text is a `Token` (lexer says why), but has no bytes that could be taken: it is excluded here, below and in `Parser`, and no caller asks for it. A
// type without it would be a second enum of the other tokens, with a match from one to the other.
fn match_word(script: &[u8], at: usize, k: Token) -> Result<Option<usize>, Refusal>
    requires { k ≡ EndOfText → ⊥ }
    ensures { MatchAt script.now k at result }
{
    let x = lexer::read_word(script, at)?;
    if x.token == k {
        return Ok(Some(x.next));
    }
    Ok(None)
}

// The same of a sign, for which a glance is enough.
fn match_sign(script: &[u8], at: usize, k: u8) -> Result<Option<usize>, Refusal>
    ensures { MatchAt script.now (Token.Sign k) at result }
{
    let Some((b, next)) = lexer::glance(script, at)? else {
        return Ok(None);
    };
    if b == k {
        return Ok(Some(next));
    }
    Ok(None)
}

// The place behind the next word, where that is the one asked for.
pub fn match_token(script: &[u8], at: usize, k: Token) -> Result<Option<usize>, Refusal>
    requires { k ≡ EndOfText → ⊥ }
    ensures { MatchAt script.now k at result }
{
    if let Token::Sign(b) = k {
        return match_sign(script, at, b);
    }
    match_word(script, at, k)
}

// The same of a literal, whatever number it writes: that is no one token.
pub fn match_number(script: &[u8], at: usize) -> Result<Option<usize>, Refusal>
    ensures { NumberAt script.now at result }
{
    let x = lexer::read_word(script, at)?;
    if let Token::Number(_) = x.token {
        return Ok(Some(x.next));
    }
    Ok(None)
}

// The place behind the word k, which has to be the next.
pub fn expect(script: &[u8], at: usize, k: Token) -> Result<usize, Refusal>
    requires { k ≡ EndOfText → ⊥ }
    ensures { ExpectAt script.now k at result }
{
    match_token(script, at, k)?.ok_or(Refusal::UnexpectedWord)
}

// The same of a literal, whatever number it writes.
pub fn expect_number(script: &[u8], at: usize) -> Result<usize, Refusal>
    ensures { LiteralAt script.now at result }
{
    match_number(script, at)?.ok_or(Refusal::UnexpectedWord)
}
