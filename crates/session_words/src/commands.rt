// Commands of a session.
ghost use Rattle.std.specs.Prelude.{◌≡◌, ◌++◌, ◌∷◌, [], IfOk, OnOk, OnErr};

use crate::steps::Step;
use std::alloc::{AllocError, Global};
use std::marker::Model;

/// A line of a session in a script: one step, or so many times the next scenario.
#[derive(Drop)]
pub enum Command {
    Step(Step),
    All(u32),
}

impl Command {
    /// An equal command.
    pub fn copy(&self, alloc: Global) -> Result<Command, AllocError>
        ensures { IfOk result (λ c. c ≡ self.now) }
    {
        match self {
            Command::Step(step) => Ok(Command::Step(step.copy(alloc)?)),
            Command::All(count) => Ok(Command::All(*count)),
        }
    }
}

/// The commands of a session. Contracts see the list of them.
#[derive(Drop)]
pub struct Commands {
    commands: Vec<Command>,
}

impl Model for Commands {
    ghost use Rattle.std.specs.Prelude.{List};
    ghost use Rattle.session_words.specs.declared.commands.Command.{Command};

    ghost Value = { List Command };

    ghost view = { λ s. s.commands.items };
}

impl Commands {
    /// These commands.
    pub fn of(commands: Vec<Command>) -> Commands
        ensures { result ≡ commands.items }
    {
        Commands { commands }
    }

    /// Puts a command at the end. After an error the commands are as before.
    pub fn push(&mut self, command: Command) -> Result<(), AllocError>
        ensures ok { OnOk result (self.new ≡ self.old ++ command ∷ []) }
        ensures err { OnErr result (self.new ≡ self.old) }
    {
        self.commands.push(command)?;
        Ok(())
    }

    /// The commands, in order.
    pub fn commands(&self) -> &[Command]
        ensures { result.now ≡ self.now }
    {
        self.commands.as_slice()
    }

    /// Gives the commands back.
    pub fn into_commands(self) -> Vec<Command>
        ensures { result.items ≡ self }
    {
        self.commands
    }

    /// Equal commands.
    pub fn copy(&self, alloc: Global) -> Result<Commands, AllocError>
        ensures { IfOk result (λ s. s ≡ self.now) }
    {
        let commands = copies_of(alloc, self.commands.as_slice())?;
        Ok(Commands { commands })
    }
}

fn copies_of(alloc: Global, commands: &[Command]) -> Result<Vec<Command>, AllocError>
    ensures { IfOk result (λ copies. copies.items ≡ commands.now) }
{
    let mut copies = Vec::new(alloc);
    for command in commands {
        copies.push(command.copy(alloc)?)?;
    }
    Ok(copies)
}
