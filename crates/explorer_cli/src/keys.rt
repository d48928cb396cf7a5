// The keys under which the problems of commands are served.
ghost use Rattle.std.specs.Prelude.{◌≡◌, ◌<◌, ◌++◌, ◌^◌, length, IfOk};
ghost use Rattle.explorer_cli.specs.Runs.{IsServed};
ghost use Rattle.explorer_cli.specs.Keys.{key_of, place_of, problems_in, problems_of};

use rel_formula::Problem;
use script_format::SessionEntry;
use served_models::ServedCommand;
use std::alloc::{AllocError, Global};

/// The key of the command on which the session is: the commands of earlier models come first. The command is one that has a
/// problem.
pub fn key_of(models: &[Vec<ServedCommand>], session: &SessionEntry) -> u32
    requires served { IsServed models.now session.now }
    requires few { length (problems_of models.now) < 2 ^ 32 }
    ensures { result ≡ key_of models.now session.now.model session.now.number }
{
    let model = session.model as usize;
    let before = commands_in(&models[..model]);
    (before + place_of(&models[model], session.number)) as u32
}

// How many commands the models have.
fn commands_in(models: &[Vec<ServedCommand>]) -> usize
    requires { length (problems_of models.now) < 2 ^ 32 }
    ensures { result ≡ length (problems_of models.now) }
{
    let mut count = 0;
    for made in models {
        count += made.len();
    }
    count
}

// Of a model's commands that are served, the place of the one of this number: so many come before it.
fn place_of(commands: &[ServedCommand], number: u32) -> usize
    ensures { result ≡ place_of number commands.now }
{
    commands
        .iter()
        .take_while(|command| command.number != number)
        .count()
}

/// The problems of the models' commands, by key.
pub fn problems_of(
    alloc: Global,
    models: Vec<Vec<ServedCommand>>,
) -> Result<Vec<Problem>, AllocError>
    ensures { IfOk result (λ problems. problems.items ≡ problems_of models.items) }
{
    let mut models = models;
    let mut problems = Vec::new(alloc);
    while let Some(made) = models.pop() {
        put_in_front(&mut problems, made)?;
    }
    Ok(problems)
}

// Puts the problems of a model's commands in front of others.
fn put_in_front(problems: &mut Vec<Problem>, made: Vec<ServedCommand>) -> Result<(), AllocError>
    ensures { IfOk result (λ _. problems.new.items ≡ problems_in made ++ problems.old.items) }
{
    let mut made = made;
    while let Some(command) = made.pop() {
        problems.insert(0, command.problem)?;
    }
    Ok(())
}
