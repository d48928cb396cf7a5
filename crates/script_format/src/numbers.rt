// Numbers of a script.
ghost use Rattle.std.specs.Prelude.{◌≡◌};
ghost use Rattle.script_format.specs.Words.{number_in, number_within};

use crate::names::is_digit;

/// The number that a word of one to six digits says.
pub fn number_of(word: &str) -> Option<u32>
    ensures { result ≡ number_in word.now }
{
    let digits = word.as_bytes();
    if digits.is_empty() || digits.len() > 6 {
        return None;
    }
    let mut number = 0_u32;
    for digit in digits {
        if !is_digit(*digit) {
            return None;
        }
        number = number * 10 + u32::from(*digit - b'0');
    }
    Some(number)
}

/// The number that a word says, where it is one of these.
pub fn number_within(least: u32, most: u32, word: &str) -> Option<u32>
    ensures { result ≡ number_within least most word.now }
{
    match number_of(word) {
        Some(number) if least <= number && number <= most => Some(number),
        _ => None,
    }
}
