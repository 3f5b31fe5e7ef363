//! Cuts a line into tokens.
ghost use Rattle.std.specs.Prelude.{◌≡◌, IfOk, IfSome};
ghost use Rattle.arcstr_range.specs.View.{IsFoundWith};

use crate::fault::{Fault, Reason};
use crate::tree::Operator;
use arcintern::{Interner, Symbol};
use arcstr::view::StrView;
use std::alloc::Global;

/// What a token is.
#[derive(Clone, Copy, Debug, PartialEq, Eq)]
pub enum Kind {
    Number(u64),
    Name(Symbol),
    Operator(Operator),
    Open,
    Close,
    Equals,
}

/// A token, and its byte offset in the text.
#[derive(Clone, Copy, Debug)]
pub struct Token {
    pub kind: Kind,
    pub place: usize,
}

/// The tokens of a line. Names become symbols.
pub fn tokens_of(
    alloc: Global,
    names: &mut Interner,
    line: &StrView<'_>,
) -> Result<Vec<Token>, Fault> {
    let mut tokens = Vec::new(alloc);
    let mut rest = line.trim();
    for _ in 0..line.text().len() {
        if rest.text().is_empty() {
            break;
        }
        let unknown = Fault::at(rest.place(), Reason::UnknownCharacter);
        let (word, after) = first_word(&rest).ok_or(unknown)?;
        // In parts: the check does not take a whole token with a symbol out of a `Result`.
        let Token { kind, place } = token_of(names, &word)?;
        tokens.push(Token { kind, place })?;
        rest = after.trim_start();
    }
    Ok(tokens)
}

/// The longest run of letters and digits at the start of the view, or its first character, and the
/// rest of the view. Both are found in each text in which the view is found.
fn first_word<'a>(view: &StrView<'a>) -> Option<(StrView<'a>, StrView<'a>)>
    ensures found { IfSome result (λ parts. IsFoundWith view.now parts.0
        × IsFoundWith view.now parts.1) }
{
    let text = view.text();
    let first = text.chars().next().map_or(0, char::len_utf8);
    let run = text.find(|c: char| !c.is_alphanumeric());
    view.split_at(run.unwrap_or(text.len()).max(first))
}

/// The token of a word, where the word is.
fn token_of(names: &mut Interner, word: &StrView<'_>) -> Result<Token, Fault>
    ensures place { IfOk result (λ token. token.place ≡ word.now.place) }
{
    let place = word.place();
    let text = word.text();
    let kind = match text {
        "+" => Kind::Operator(Operator::Plus),
        "-" => Kind::Operator(Operator::Minus),
        "*" => Kind::Operator(Operator::Times),
        "/" => Kind::Operator(Operator::Over),
        "(" => Kind::Open,
        ")" => Kind::Close,
        "=" => Kind::Equals,
        _ if text.starts_with(|c: char| c.is_ascii_digit()) => {
            let is_number = text.bytes().all(|byte| byte.is_ascii_digit());
            let reason = if is_number {
                Reason::LargeNumber
            } else {
                Reason::BadNumber
            };
            Kind::Number(text.parse().map_err(|_| Fault::at(place, reason))?)
        }
        _ if text.starts_with(|c: char| c.is_alphabetic()) => Kind::Name(names.intern(text)?),
        _ => return Err(Fault::at(place, Reason::UnknownCharacter)),
    };
    Ok(Token { kind, place })
}
