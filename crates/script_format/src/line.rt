// What a line of a script says.
ghost use Rattle.std.specs.Prelude.{◌≡◌, map, IfOk};
ghost use Rattle.script_format.specs.Lines.{directive_of_three, directive_of_five, directive_of, command_of_one, command_of_two, command_of_three, command_of, line_beside, line_of};

use crate::names::{is_name, is_relation_name};
use crate::numbers::number_within;
use crate::tuples::tuple_in;
use crate::words::{is_directive, is_idle, words_of};
use session_words::{Command, Step};
use std::alloc::{AllocError, Global};
use tuple_core::Name;

/// What a line says where it stands.
#[derive(Drop)]
pub enum Line {
    /// Nothing.
    Idle,
    /// A line of this model's text.
    Text {
        model: u32,
    },
    /// What is no directive, before the first one.
    Stray,
    /// A model's text begins.
    Model {
        name: Name,
    },
    /// A session on a command of a model begins; there is no number where the word isn't one from 1 to 1,000.
    Session {
        name: Name,
        model: Name,
        number: Option<u32>,
    },
    /// Further commands of a session begin.
    More {
        name: Name,
    },
    /// A command of this session.
    Command {
        session: u32,
        command: Command,
    },
    /// A command with a number of another form, or out of its range.
    BadNumber,
    /// A directive of no form, or a line of a session that is no command.
    Unknown,
}

/// What the last directive began: nothing, where there was none, or the lines of this model or this session.
#[derive(Clone, Copy)]
pub enum Open {
    Nothing,
    Model(u32),
    Session(u32),
}

/// What a line says, below the last directive.
#[tactic(auto, unfolding(crate::specs::Lines::line_of))]
pub fn line_of(alloc: Global, began: Open, text: &str) -> Result<Line, AllocError>
    ensures { IfOk result (λ line. line ≡ line_of began text.now) }
{
    if is_directive(text) {
        return Ok(directive_of(alloc, &words_of(alloc, text)?)?);
    }
    Ok(line_beside(alloc, began, text)?)
}

// What a line that is no directive says.
fn line_beside(alloc: Global, began: Open, text: &str) -> Result<Line, AllocError>
    ensures { IfOk result (λ line. line ≡ line_beside began text.now) }
{
    if let Open::Model(model) = began {
        return Ok(Line::Text { model });
    }
    if is_idle(alloc, text)? {
        return Ok(Line::Idle);
    }
    match began {
        Open::Session(session) => Ok(command_of(alloc, session, &words_of(alloc, text)?)?),
        _ => Ok(Line::Stray),
    }
}

fn directive_of(alloc: Global, words: &[&str]) -> Result<Line, AllocError>
    ensures { IfOk result (λ line. line ≡ directive_of (map (λ word. word.now) words.now)) }
{
    match words.len() {
        3 => Ok(directive_of_three(alloc, words[0], words[1], words[2])?),
        5 => Ok(directive_of_five(alloc, words[0], words[1], words[2], words[3], words[4])?),
        _ => Ok(Line::Unknown),
    }
}

// `== model NAME` or `== more NAME`.
fn directive_of_three(alloc: Global, mark: &str, kind: &str, name: &str) -> Result<Line, AllocError>
    ensures { IfOk result (λ line. line ≡ directive_of_three mark.now kind.now name.now) }
{
    if mark != "==" || !is_name(name) {
        return Ok(Line::Unknown);
    }
    if kind == "model" {
        let name = Name::of(alloc, name)?;
        return Ok(Line::Model { name });
    }
    if kind == "more" {
        let name = Name::of(alloc, name)?;
        return Ok(Line::More { name });
    }
    Ok(Line::Unknown)
}

// `== session NAME MODEL NUMBER`.
fn directive_of_five(
    alloc: Global,
    mark: &str,
    kind: &str,
    name: &str,
    model: &str,
    number: &str,
) -> Result<Line, AllocError>
    ensures { IfOk result (λ line. line ≡ directive_of_five mark.now kind.now name.now model.now number.now) }
{
    if mark != "==" || kind != "session" {
        return Ok(Line::Unknown);
    }
    if !is_name(name) || !is_name(model) {
        return Ok(Line::Unknown);
    }
    let name = Name::of(alloc, name)?;
    let model = Name::of(alloc, model)?;
    let number = number_within(1, 1000, number);
    Ok(Line::Session {
        name,
        model,
        number,
    })
}

fn command_of(alloc: Global, session: u32, words: &[&str]) -> Result<Line, AllocError>
    ensures { IfOk result (λ line. line ≡ command_of session (map (λ word. word.now) words.now)) }
{
    match words.len() {
        1 => Ok(command_of_one(session, words[0])),
        2 => Ok(command_of_two(session, words[0], words[1])),
        3 => Ok(command_of_three(alloc, session, words[0], words[1], words[2])?),
        _ => Ok(Line::Unknown),
    }
}

// A command of one word.
fn command_of_one(session: u32, word: &str) -> Line
    ensures { result ≡ command_of_one session word.now }
{
    let step = if word == "next" {
        Step::Next
    } else if word == "offers" {
        Step::Offers
    } else if word == "back" {
        Step::Back
    } else if word == "proof" {
        Step::Proof
    } else {
        return Line::Unknown;
    };
    Line::Command {
        session,
        command: Command::Step(step),
    }
}

// `all N` or `budget B`.
fn command_of_two(session: u32, word: &str, number: &str) -> Line
    ensures { result ≡ command_of_two session word.now number.now }
{
    if word == "all" {
        return match number_within(1, 1000, number) {
            Some(count) => Line::Command {
                session,
                command: Command::All(count),
            },
            None => Line::BadNumber,
        };
    }
    if word == "budget" {
        return match number_within(0, 100_000, number) {
            Some(budget) => Line::Command {
                session,
                command: Command::Step(Step::Budget(budget)),
            },
            None => Line::BadNumber,
        };
    }
    Line::Unknown
}

// `augment RELATION TUPLE`.
fn command_of_three(
    alloc: Global,
    session: u32,
    word: &str,
    relation: &str,
    tuple: &str,
) -> Result<Line, AllocError>
    ensures { IfOk result (λ line. line ≡ command_of_three session word.now relation.now tuple.now) }
{
    if word != "augment" || !is_relation_name(alloc, relation)? {
        return Ok(Line::Unknown);
    }
    let Some(tuple) = tuple_in(alloc, tuple)? else {
        return Ok(Line::Unknown);
    };
    let relation = Name::of(alloc, relation)?;
    Ok(Line::Command {
        session,
        command: Command::Step(Step::Augment { relation, tuple }),
    })
}
