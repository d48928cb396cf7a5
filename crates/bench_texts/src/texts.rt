// Texts of models.
ghost use Rattle.std.specs.Prelude.{◌≡◌, ◌++◌, decimal, IfOk, IsSome, MatchResult, option_map, string_bytes};
ghost use Rattle.bench_texts.specs.Texts.{filled, repeated, spelled, text_at};

use crate::shapes::shape_of;
use itoa::Buffer;
use std::alloc::{AllocError, Global};

/// The text of this kind and count; `None` where there is no such kind, or the count is above a million. Want of memory is told only
/// where there is such a text.
pub fn text_of(alloc: Global, kind: &str, count: u32) -> Result<Option<String>, AllocError>
    ensures { MatchResult result (λ text. option_map string_bytes text ≡ text_at kind.now count) (λ _. IsSome (text_at kind.now count)) }
{
    if count > 1_000_000 {
        return Ok(None);
    }
    let Some(shape) = shape_of(kind) else {
        return Ok(None);
    };
    let mut text = String::new(alloc);
    add(&mut text, shape.head, count)?;
    add_each(&mut text, shape.each, count)?;
    add(&mut text, shape.middle, count)?;
    add_each(&mut text, shape.again, count)?;
    add(&mut text, shape.tail, count)?;
    Ok(Some(text))
}

// Adds the part for each number from 1 up to the count.
fn add_each(text: &mut String, part: &str, count: u32) -> Result<(), AllocError>
    ensures { IfOk result (λ _. string_bytes text.new ≡ string_bytes text.old ++ repeated count part.now) }
{
    for number in 1..count {
        add(text, part, number)?;
    }
    Ok(())
}

// Adds the part for a number.
fn add(text: &mut String, part: &str, number: u32) -> Result<(), AllocError>
    ensures { IfOk result (λ _. string_bytes text.new ≡ string_bytes text.old ++ filled number part.now) }
{
    for character in part.chars() {
        add_character(text, character, number)?;
    }
    Ok(())
}

// Adds what a character of a part says for a number.
fn add_character(text: &mut String, character: char, number: u32) -> Result<(), AllocError>
    ensures { IfOk result (λ _. string_bytes text.new ≡ string_bytes text.old ++ spelled number character) }
{
    match character {
        '%' => add_number(text, number),
        '@' => add_number(text, number.saturating_sub(1)),
        _ => text.push(character),
    }
}

fn add_number(text: &mut String, number: u32) -> Result<(), AllocError>
    ensures { IfOk result (λ _. string_bytes text.new ≡ string_bytes text.old ++ decimal number) }
{
    let mut buffer = Buffer::new();
    text.push_str(buffer.format(number))?;
    Ok(())
}
