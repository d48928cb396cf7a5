// How the words and the symbols of the language are spelled.
ghost use Rattle.std.specs.Prelude.{◌≡◌, ℕ, ◌≤◌, [], ◌∷◌, length, if◌then◌else◌};
ghost use Rattle.std.specs.List.{list_any};
ghost use Rattle.std.specs.Str.{bytes_eq};
ghost use Rattle.alloy_lex.specs.Words.{is_word, words_of, symbol_len};

/// Whether one of the words is spelled so.
#[tactic(auto, using(crate::proofs::Lengths::word_of_length, crate::proofs::Lengths::word_of_none))]
pub fn is_word(text: &str) -> bool
    ensures { result ≡ is_word text.now }
{
    match text.len() {
        2 => is_word_of_two(text),
        3 => is_word_of_three(text),
        4 => is_word_of_four(text),
        5 => is_word_of_five(text),
        6 => is_word_of_six(text),
        7 => is_word_of_seven(text),
        8 => is_word_of_eight(text),
        9 => is_word_of_nine(text),
        10 => is_word_of_ten(text),
        12 => is_word_of_twelve(text),
        _ => false,
    }
}

#[tactic(auto, unfolding(crate::specs::Words::words_of))]
fn is_word_of_two(text: &str) -> bool
    ensures { result ≡ list_any (bytes_eq text.now) (words_of 2) }
{
    matches!(text, "as" | "in" | "no" | "or")
}

#[tactic(auto, unfolding(crate::specs::Words::words_of))]
fn is_word_of_three(text: &str) -> bool
    ensures { result ≡ list_any (bytes_eq text.now) (words_of 3) }
{
    matches!(
        text,
        "all"
            | "and"
            | "but"
            | "for"
            | "fun"
            | "iff"
            | "let"
            | "not"
            | "one"
            | "run"
            | "set"
            | "sig"
            | "seq"
            | "sum"
            | "Int"
            | "int"
            | "var"
    )
}

#[tactic(auto, unfolding(crate::specs::Words::words_of))]
fn is_word_of_four(text: &str) -> bool
    ensures { result ≡ list_any (bytes_eq text.now) (words_of 4) }
{
    matches!(
        text,
        "disj"
            | "else"
            | "fact"
            | "iden"
            | "lone"
            | "none"
            | "open"
            | "pred"
            | "some"
            | "univ"
            | "enum"
            | "this"
            | "once"
    )
}

#[tactic(auto, unfolding(crate::specs::Words::words_of))]
fn is_word_of_five(text: &str) -> bool
    ensures { result ≡ list_any (bytes_eq text.now) (words_of 5) }
{
    matches!(text, "check" | "after" | "since" | "until" | "steps")
}

#[tactic(auto, unfolding(crate::specs::Words::words_of))]
fn is_word_of_six(text: &str) -> bool
    ensures { result ≡ list_any (bytes_eq text.now) (words_of 6) }
{
    matches!(
        text,
        "assert" | "expect" | "module" | "String" | "always" | "before"
    )
}

#[tactic(auto, unfolding(crate::specs::Words::words_of))]
fn is_word_of_seven(text: &str) -> bool
    ensures { result ≡ list_any (bytes_eq text.now) (words_of 7) }
{
    matches!(text, "exactly" | "extends" | "implies" | "private")
}

#[tactic(auto, unfolding(crate::specs::Words::words_of))]
fn is_word_of_eight(text: &str) -> bool
    ensures { result ≡ list_any (bytes_eq text.now) (words_of 8) }
{
    matches!(text, "abstract" | "releases")
}

#[tactic(auto, unfolding(crate::specs::Words::words_of))]
fn is_word_of_nine(text: &str) -> bool
    ensures { result ≡ list_any (bytes_eq text.now) (words_of 9) }
{
    matches!(text, "triggered")
}

#[tactic(auto, unfolding(crate::specs::Words::words_of))]
fn is_word_of_ten(text: &str) -> bool
    ensures { result ≡ list_any (bytes_eq text.now) (words_of 10) }
{
    matches!(text, "eventually")
}

#[tactic(auto, unfolding(crate::specs::Words::words_of))]
fn is_word_of_twelve(text: &str) -> bool
    ensures { result ≡ list_any (bytes_eq text.now) (words_of 12) }
{
    matches!(text, "historically")
}

/// The length of the longest symbol at the front of these bytes, or 0.
#[tactic(auto, unfolding(crate::specs::Words::symbol_len))]
pub fn symbol_of(a: u8, b: u8, c: u8) -> usize
    ensures { result ≡ symbol_len (a ∷ b ∷ c ∷ []) }
{
    match a {
        b'{' | b'}' | b'[' | b']' | b'(' | b')' | b',' | b'.' | b'~' | b'^' | b'*' | b'#' => 1,
        b':' => one_or_two(b == b'>'),
        b'|' => one_or_two(b == b'|'),
        b'+' => one_or_two(b == b'+'),
        b'-' => one_or_two(b == b'>'),
        b'&' => one_or_two(b == b'&'),
        b'!' => one_or_two(b == b'='),
        b'>' => one_or_two(b == b'='),
        b'=' => one_or_two(b == b'<' || b == b'>'),
        b'<' => {
            if b == b'=' && c == b'>' {
                3
            } else {
                one_or_two(b == b':' || b == b'=')
            }
        }
        _ => 0,
    }
}

fn one_or_two(two: bool) -> usize
    ensures { result ≡ (if two then 2 else 1) }
{
    if two { 2 } else { 1 }
}
