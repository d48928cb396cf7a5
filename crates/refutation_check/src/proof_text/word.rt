// The words of a line, one at a time.
ghost use Rattle.std.specs.Prelude.{◌≡◌, ◌≢◌, ◌≤◌, ◌<◌, ◌∷◌, [], List, ℕ, length, IfSome, IsNone, IfNone, if◌then◌else◌};
ghost use Rattle.refutation_check.specs.ProofText.{words_in};
ghost use Rattle.refutation_check.specs.Scanned.{is_digit, behind_spaces, behind_digits, ends_before, with_digit, read_after, IsFirstWord};

/// No number of a proof text is greater.
pub const MOST: u32 = 2_147_483_647;

/// What a word of a proof text is. A number above 2,147,483,647 is 2,147,483,648 here.
#[derive(Clone, Copy, Debug, PartialEq, Eq)]
pub enum Word {
    /// `c`
    Clause,
    /// `s`
    Step,
    /// `0`
    End,
    /// A number from 1.
    Number(u32),
    /// A number from 1 with `-` before it.
    Negative(u32),
    /// Anything else.
    Other,
}

fn is_digit(b: u8) -> bool
    ensures { result ≡ is_digit b }
{
    b'0' <= b && b <= b'9'
}

// Behind the spaces at the front.
fn behind_spaces(bytes: &[u8]) -> &[u8]
    ensures { result.now ≡ behind_spaces bytes.now }
{
    let mut rest = bytes;
    'each: while let [b, tail @ ..] = rest {
        if *b != b' ' {
            return rest;
        }
        rest = tail;
    }
    rest
}

// A number and one digit more.
fn with_digit(number: u32, digit: u8) -> u32
    requires { number ≤ 2147483648 }
    ensures value { result ≡ with_digit number digit }
    ensures small { result ≤ 2147483648 }
{
    let longer = u64::from(number) * 10 + u64::from(digit.saturating_sub(b'0'));
    if longer <= u64::from(MOST) {
        longer as u32
    } else {
        MOST + 1
    }
}

// The number whose digits stand at the front, behind those of another one, and what stands behind it.
fn number_from(number: u32, bytes: &[u8]) -> (u32, &[u8])
    requires { number ≤ 2147483648 }
    ensures value { result.0 ≡ read_after number bytes.now }
    ensures rest { result.1.now ≡ behind_digits bytes.now }
{
    let mut value = number;
    let mut rest = bytes;
    'each: while let [b, tail @ ..] = rest {
        if !is_digit(*b) {
            return (value, rest);
        }
        value = with_digit(value, *b);
        rest = tail;
    }
    (value, rest)
}

// Whether a word ends before these bytes.
fn ends_before(bytes: &[u8]) -> bool
    ensures { result ≡ ends_before bytes.now }
{
    match bytes {
        [] => true,
        [b, ..] => *b == b' ',
    }
}

// The word, where it ends there.
fn ended(word: Word, rest: &[u8]) -> Word
    ensures { result ≡ (if ends_before rest.now then word else Word.Other) }
{
    if ends_before(rest) { word } else { Word::Other }
}

// A word that begins with a digit from 1.
#[tactic(auto, using(crate::proofs::ReadWords::number_first))]
fn number(first: u8, rest: &[u8]) -> (Word, &[u8])
    requires from_one { 49 ≤ first }
    requires digit { first ≤ 57 }
    ensures { IsFirstWord (first ∷ rest.now) result.0 result.1.now }
{
    let (value, behind) = number_from(u32::from(first - b'0'), rest);
    (ended(Word::Number(value), behind), behind)
}

// A word that begins with `-` and a digit from 1.
#[tactic(auto, using(crate::proofs::ReadWords::negative_first))]
fn negative(first: u8, rest: &[u8]) -> (Word, &[u8])
    requires from_one { 49 ≤ first }
    requires digit { first ≤ 57 }
    ensures { IsFirstWord (45 ∷ first ∷ rest.now) result.0 result.1.now }
{
    let (value, behind) = number_from(u32::from(first - b'0'), rest);
    (ended(Word::Negative(value), behind), behind)
}

// A word that begins with `-`.
#[tactic(auto, using(crate::proofs::ReadWords::minus_alone))]
fn signed(bytes: &[u8]) -> (Word, &[u8])
    ensures { IsFirstWord (45 ∷ bytes.now) result.0 result.1.now }
{
    match bytes {
        [b, tail @ ..] if b'1' <= *b && *b <= b'9' => negative(*b, tail),
        _ => (Word::Other, bytes),
    }
}

// A word that begins with this byte.
#[tactic(auto, using(crate::proofs::ReadWords::zero_first, crate::proofs::ReadWords::clause_first, crate::proofs::ReadWords::step_first, crate::proofs::ReadWords::other_first))]
fn word_from(first: u8, rest: &[u8]) -> (Word, &[u8])
    requires { first ≢ 32 }
    ensures { IsFirstWord (first ∷ rest.now) result.0 result.1.now }
{
    match first {
        b'0' => (ended(Word::End, rest), rest),
        b'c' => (ended(Word::Clause, rest), rest),
        b's' => (ended(Word::Step, rest), rest),
        b'-' => signed(rest),
        b'1'..=b'9' => number(first, rest),
        _ => (Word::Other, rest),
    }
}

/// The first word of a line, if it has one, and what stands behind it.
pub fn next_word(bytes: &[u8]) -> Option<(Word, &[u8])>
    ensures none { IfNone result (words_in bytes.now ≡ []) }
    ensures word { IfSome result (λ found. IsFirstWord bytes.now found.0 found.1.now) }
{
    match behind_spaces(bytes) {
        [] => None,
        [b, tail @ ..] => Some(word_from(*b, tail)),
    }
}
