// What a lexer answers: tokens, or a fault.
ghost use Rattle.std.specs.Prelude.{◌≡◌, IfOk};
ghost use Rattle.std.specs.Str.{IsUtf8};

use std::alloc::{AllocError, AllocFailed, Global};
use std::marker::Model;
use thiserror::Error;

/// A place in a text: its line, and its column in characters. Both count from 1.
#[derive(Clone, Copy, Debug, PartialEq, Eq)]
pub struct Place {
    pub line: u32,
    pub column: u32,
}

/// What a token is. The words that the language refuses are words too. A path is two names with a slash between.
#[derive(Clone, Copy, Debug, PartialEq, Eq)]
pub enum TokenKind {
    Name,
    Path,
    Number,
    Word,
    Symbol,
}

/// A text of its own, seen as the list of its bytes.
#[derive(Debug, Drop)]
pub struct Text {
    text: String,
}

/// What a token spells, lent by the text that it was read from, and seen as the list of its bytes.
#[derive(Debug, Drop)]
pub struct Spelling<'a> {
    text: &'a str,
}

/// A token: what it is, how many bytes of the source stand before it, the place where it begins, and what it spells. It
/// borrows the source.
#[derive(Drop)]
pub struct Token<'a> {
    pub kind: TokenKind,
    pub start: u32,
    pub place: Place,
    pub text: Spelling<'a>,
}

/// Why a text has no tokens: its first fault, or no memory for them.
#[derive(Clone, Copy, Debug, PartialEq, Eq, Error)]
pub enum LexFault {
    #[error("{}:{}: no token begins here", .place.line, .place.column)]
    BadCharacter { place: Place },
    #[error("{}:{}: the comment isn't closed", .place.line, .place.column)]
    OpenComment { place: Place },
    #[error("{}:{}: the number is above 1000", .place.line, .place.column)]
    NumberTooLarge { place: Place },
    #[error("no memory")]
    Memory,
}

impl Model for Text {
    ghost use Rattle.std.specs.Prelude.{List, ℕ, string_bytes};

    ghost Value = { List ℕ };

    ghost view = { λ t. string_bytes t.text };
}

impl Text {
    /// The text that spells this.
    pub fn of(alloc: Global, text: &str) -> Result<Text, AllocError>
        ensures { IfOk result (λ t. t ≡ text.now) }
    {
        Ok(Text {
            text: String::from_str(alloc, text)?,
        })
    }

    /// What it spells.
    pub fn text(&self) -> &str
        ensures value { result.now ≡ self.now }
        ensures utf8 { IsUtf8 self.now }
    {
        self.text.as_str()
    }

    /// An equal text.
    pub fn copy(&self, alloc: Global) -> Result<Text, AllocError>
        ensures { IfOk result (λ t. t ≡ self.now) }
    {
        Text::of(alloc, self.text())
    }
}

impl<'a> Model for Spelling<'a> {
    ghost use Rattle.std.specs.Prelude.{List, ℕ};

    ghost Value = { List ℕ };

    ghost view = { λ s. s.text.now };
}

impl<'a> Spelling<'a> {
    pub(crate) fn of(text: &'a str) -> Spelling<'a>
        ensures { result ≡ text.now }
    {
        Spelling { text }
    }

    /// What it spells.
    pub fn text(&self) -> &'a str
        ensures value { result.now ≡ self.now }
        ensures utf8 { IsUtf8 self.now }
    {
        self.text
    }

    /// The same spelling, lent again.
    pub fn again(&self) -> Spelling<'a>
        ensures { result ≡ self.now }
    {
        Spelling { text: self.text }
    }
}

impl From<AllocError> for LexFault {
    ghost use Rattle.alloy_lex.specs.declared.token.LexFault.TheVariants.{Memory};

    ghost from_gives = { λ _ e. e ≡ Memory };

    fn from(_e: AllocError) -> Self {
        LexFault::Memory
    }
}

impl<T: Drop> From<AllocFailed<T>> for LexFault {
    ghost use Rattle.alloy_lex.specs.declared.token.LexFault.TheVariants.{Memory};

    ghost from_gives = { λ _ e. e ≡ Memory };

    fn from(_e: AllocFailed<T>) -> Self {
        LexFault::Memory
    }
}
