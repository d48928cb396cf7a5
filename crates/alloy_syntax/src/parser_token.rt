// What a reader sees of a token.
use crate::class::Class;
use alloy_lex::{Place, Spelling};

/// A token as a reader sees it: its terminal, its place, and what it spells.
#[derive(Drop)]
pub struct ParserToken<'a> {
    pub class: Class,
    pub place: Place,
    pub text: Spelling<'a>,
}
