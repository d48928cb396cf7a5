// Tokens as readers see them, and why reading stops.
ghost use Rattle.std.specs.Prelude.{◌≡◌, IfOk};
ghost use Rattle.alloy_syntax.specs.ParserTokens.{seen, seen_all};

use crate::reading::Form;
use crate::{ParserToken, class_of};
use alloy_lex::Token;
use std::alloc::{AllocError, AllocFailed, Global};

/// The tokens that are left.
#[derive(Clone, Copy)]
pub struct Tokens<'a> {
    pub left: &'a [ParserToken<'a>],
}

/// Why no tree is answered.
#[derive(Drop)]
pub enum ParseStop<'a> {
    Memory,
    /// The tokens from the first that can't stand there.
    Refused(Tokens<'a>),
    /// The tokens from the first that lies too deep.
    Deep(Tokens<'a>),
    /// A refused form, and the tokens from the one that it is named by.
    Unsupported(Form, Tokens<'a>),
}

impl From<AllocError> for ParseStop<'_> {
    ghost use Rattle.alloy_syntax.specs.declared.parse_stop.ParseStop.TheVariants.{Memory};

    ghost from_gives = { λ _ e. e ≡ Memory };

    fn from(_e: AllocError) -> Self {
        ParseStop::Memory
    }
}

impl<T: Drop> From<AllocFailed<T>> for ParseStop<'_> {
    ghost use Rattle.alloy_syntax.specs.declared.parse_stop.ParseStop.TheVariants.{Memory};

    ghost from_gives = { λ _ e. e ≡ Memory };

    fn from(_e: AllocFailed<T>) -> Self {
        ParseStop::Memory
    }
}

/// Each token as a reader sees it.
pub fn seen_tokens<'a>(
    alloc: Global,
    tokens: &[Token<'a>],
) -> Result<Vec<ParserToken<'a>>, AllocError>
    ensures { IfOk result (λ found. found.items ≡ seen_all tokens.now) }
{
    let mut found = Vec::with_capacity(alloc, tokens.len())?;
    for token in tokens {
        found.push(seen(token))?;
    }
    Ok(found)
}

fn seen<'a>(token: &Token<'a>) -> ParserToken<'a>
    ensures { result ≡ seen token.now }
{
    ParserToken {
        class: class_of(token),
        place: token.place,
        text: token.text.again(),
    }
}
