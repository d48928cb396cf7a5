// How steps and commands are written.
use session_words::{AtomName, Command, Step};
use std::alloc::{AllocError, Global};
use std::fmt::Write;
use std::test::Fail;

fn push_atom(text: &mut String, atom: &AtomName) -> Result<(), Fail> {
    Ok(write!(text, " {} {}", atom.top.text(), atom.place)?)
}

fn told_augment(alloc: Global, relation: &str, tuple: &[AtomName]) -> Result<String, Fail> {
    let mut text = format!(in alloc; "augment {relation}")?;
    for atom in tuple {
        push_atom(&mut text, atom)?;
    }
    Ok(text)
}

fn told_word(alloc: Global, word: &str) -> Result<String, Fail> {
    Ok(String::from_str(alloc, word)?)
}

fn told_number(alloc: Global, word: &str, number: u32) -> Result<String, Fail> {
    Ok(format!(in alloc; "{word} {number}")?)
}

/// How a step is written.
pub fn told_step(alloc: Global, step: &Step) -> Result<String, Fail> {
    match step {
        Step::Next => told_word(alloc, "next"),
        Step::Offers => told_word(alloc, "offers"),
        Step::Augment { relation, tuple } => told_augment(alloc, relation.text(), tuple.names()),
        Step::Back => told_word(alloc, "back"),
        Step::Budget(budget) => told_number(alloc, "budget", *budget),
        Step::Proof => told_word(alloc, "proof"),
    }
}

/// How a command is written.
pub fn told_command(alloc: Global, command: &Command) -> Result<String, Fail> {
    match command {
        Command::All(count) => told_number(alloc, "all", *count),
        Command::Step(step) => told_step(alloc, step),
    }
}

/// Commands, each behind a blank.
pub fn told_commands(alloc: Global, commands: &[Command]) -> Result<String, Fail> {
    let mut text = String::new(alloc);
    for command in commands {
        push_behind(&mut text, &told_command(alloc, command)?)?;
    }
    Ok(text)
}

fn push_behind(text: &mut String, word: &str) -> Result<(), AllocError> {
    text.push_str(" ")?;
    text.push_str(word)
}
