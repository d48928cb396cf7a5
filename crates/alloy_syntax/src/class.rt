// The terminals of the grammar.
ghost use Rattle.std.specs.Prelude.{◌≡◌, map};
ghost use Rattle.alloy_syntax.specs.Class.{class_of, class_in, is_class, code_of};

use alloy_lex::{Token, TokenKind};

/// A terminal of the grammar. Two spellings of one terminal, as `&&` and `and`, are one class.
#[derive(Clone, Copy)]
pub enum Class {
    Name,
    Path,
    Number,
    LeftBrace,
    RightBrace,
    LeftBracket,
    RightBracket,
    LeftParen,
    RightParen,
    Comma,
    Colon,
    Bar,
    Dot,
    Plus,
    Minus,
    Ampersand,
    Arrow,
    Tilde,
    Caret,
    Star,
    PlusPlus,
    DomainArrow,
    RangeArrow,
    Hash,
    Equal,
    NotEqual,
    Less,
    Greater,
    AtMost,
    AtLeast,
    Not,
    And,
    Or,
    Iff,
    Implies,
    Abstract,
    All,
    As,
    Assert,
    But,
    Check,
    Disj,
    Else,
    Exactly,
    Expect,
    Extends,
    Fact,
    For,
    Fun,
    Iden,
    In,
    Let,
    Lone,
    Module,
    No,
    None,
    One,
    Open,
    Pred,
    Run,
    Set,
    Sig,
    Some,
    Univ,
    /// A word that the language refuses.
    Refused,
}

/// The words of the language.
pub const WORDS: [(&str, Class); 34] = [
    ("abstract", Class::Abstract),
    ("all", Class::All),
    ("and", Class::And),
    ("as", Class::As),
    ("assert", Class::Assert),
    ("but", Class::But),
    ("check", Class::Check),
    ("disj", Class::Disj),
    ("else", Class::Else),
    ("exactly", Class::Exactly),
    ("expect", Class::Expect),
    ("extends", Class::Extends),
    ("fact", Class::Fact),
    ("for", Class::For),
    ("fun", Class::Fun),
    ("iden", Class::Iden),
    ("iff", Class::Iff),
    ("implies", Class::Implies),
    ("in", Class::In),
    ("let", Class::Let),
    ("lone", Class::Lone),
    ("module", Class::Module),
    ("no", Class::No),
    ("none", Class::None),
    ("not", Class::Not),
    ("one", Class::One),
    ("open", Class::Open),
    ("or", Class::Or),
    ("pred", Class::Pred),
    ("run", Class::Run),
    ("set", Class::Set),
    ("sig", Class::Sig),
    ("some", Class::Some),
    ("univ", Class::Univ),
];

/// The symbols.
pub const SYMBOLS: [(&str, Class); 33] = [
    ("{", Class::LeftBrace),
    ("}", Class::RightBrace),
    ("[", Class::LeftBracket),
    ("]", Class::RightBracket),
    ("(", Class::LeftParen),
    (")", Class::RightParen),
    (",", Class::Comma),
    (":", Class::Colon),
    ("|", Class::Bar),
    (".", Class::Dot),
    ("+", Class::Plus),
    ("-", Class::Minus),
    ("&", Class::Ampersand),
    ("->", Class::Arrow),
    ("~", Class::Tilde),
    ("^", Class::Caret),
    ("*", Class::Star),
    ("++", Class::PlusPlus),
    ("<:", Class::DomainArrow),
    (":>", Class::RangeArrow),
    ("#", Class::Hash),
    ("=", Class::Equal),
    ("!=", Class::NotEqual),
    ("<", Class::Less),
    (">", Class::Greater),
    ("=<", Class::AtMost),
    ("<=", Class::AtMost),
    (">=", Class::AtLeast),
    ("!", Class::Not),
    ("&&", Class::And),
    ("||", Class::Or),
    ("<=>", Class::Iff),
    ("=>", Class::Implies),
];

/// The terminal that a token is.
#[tactic(auto, unfolding(crate::specs::Class::class_of))]
pub fn class_of(token: &Token) -> Class
    ensures { result ≡ class_of token.now }
{
    match token.kind {
        TokenKind::Name => Class::Name,
        TokenKind::Path => Class::Path,
        TokenKind::Number => Class::Number,
        TokenKind::Word => class_in(&WORDS, token.text.text()),
        TokenKind::Symbol => class_in(&SYMBOLS, token.text.text()),
    }
}

/// Whether two terminals are one.
#[tactic(auto, unfolding(crate::specs::Class::is_class))]
pub fn is_class(class: Class, other: Class) -> bool
    ensures { result ≡ is_class class other }
{
    code_of(class) == code_of(other)
}

fn code_of(class: Class) -> u8
    ensures { result ≡ code_of class }
{
    match class {
        Class::Name => 0,
        Class::Path => 1,
        Class::Number => 2,
        Class::LeftBrace => 3,
        Class::RightBrace => 4,
        Class::LeftBracket => 5,
        Class::RightBracket => 6,
        Class::LeftParen => 7,
        Class::RightParen => 8,
        Class::Comma => 9,
        Class::Colon => 10,
        Class::Bar => 11,
        Class::Dot => 12,
        Class::Plus => 13,
        Class::Minus => 14,
        Class::Ampersand => 15,
        Class::Arrow => 16,
        Class::Tilde => 17,
        Class::Caret => 18,
        Class::Star => 19,
        Class::PlusPlus => 20,
        Class::DomainArrow => 21,
        Class::RangeArrow => 22,
        Class::Hash => 23,
        Class::Equal => 24,
        Class::NotEqual => 25,
        Class::Less => 26,
        Class::Greater => 27,
        Class::AtMost => 28,
        Class::AtLeast => 29,
        Class::Not => 30,
        Class::And => 31,
        Class::Or => 32,
        Class::Iff => 33,
        Class::Implies => 34,
        Class::Abstract => 35,
        Class::All => 36,
        Class::As => 37,
        Class::Assert => 38,
        Class::But => 39,
        Class::Check => 40,
        Class::Disj => 41,
        Class::Else => 42,
        Class::Exactly => 43,
        Class::Expect => 44,
        Class::Extends => 45,
        Class::Fact => 46,
        Class::For => 47,
        Class::Fun => 48,
        Class::Iden => 49,
        Class::In => 50,
        Class::Let => 51,
        Class::Lone => 52,
        Class::Module => 53,
        Class::No => 54,
        Class::None => 55,
        Class::One => 56,
        Class::Open => 57,
        Class::Pred => 58,
        Class::Run => 59,
        Class::Set => 60,
        Class::Sig => 61,
        Class::Some => 62,
        Class::Univ => 63,
        Class::Refused => 64,
    }
}

// The terminal that the table has for a text; what it doesn't have is refused.
#[tactic(auto, unfolding(crate::specs::Class::class_in))]
fn class_in(table: &[(&str, Class)], text: &str) -> Class
    ensures { result ≡ class_in (map (λ entry. (entry.0.now, entry.1)) table.now) text.now }
{
    let mut rest = table;
    'each: while let [(spelling, class), others @ ..] = rest {
        if *spelling == text {
            return *class;
        }
        rest = others;
    }
    Class::Refused
}
