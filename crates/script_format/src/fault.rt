// Faults of scripts.
ghost use Rattle.std.specs.Prelude.{◌≡◌};
ghost use Rattle.script_format.specs.Script.{fault_at};

use std::alloc::AllocError;
use thiserror::Error;

/// Why bytes are no script. A line is its number, from 1.
#[derive(Clone, Copy, Debug, PartialEq, Eq, Error)]
pub enum ScriptFault {
    /// More than 1,048,576 bytes.
    #[error("more than 1048576 bytes")]
    TooLong,
    /// No UTF-8.
    #[error("no UTF-8")]
    NotText,
    /// A directive of no form, or a line of a session that is no command.
    #[error("line {line}: no directive or command")]
    BadDirective { line: u32 },
    /// A line before the first directive that has an effect.
    #[error("line {line}: text before the first directive")]
    StrayText { line: u32 },
    /// A session on a model that was not named before.
    #[error("line {line}: no model of that name stands above")]
    UnknownModel { line: u32 },
    /// Further commands of a session that was not named before.
    #[error("line {line}: no session of that name stands above")]
    UnknownSession { line: u32 },
    /// A model's or a session's name that was given before.
    #[error("line {line}: the name was given before")]
    Twice { line: u32 },
    /// A number of another form, or out of its range.
    #[error("line {line}: no number in its range")]
    BadNumber { line: u32 },
    /// More models, sessions, pairs of a model and a command, commands or scenarios asked for than a script may have.
    #[error("line {line}: more than a script may have")]
    TooMany { line: u32 },
    /// There was not enough memory.
    #[error("no memory")]
    Memory,
}

/// What is wrong with a line.
#[derive(Clone, Copy)]
pub enum Kind {
    StrayText,
    BadDirective,
    BadNumber,
    UnknownModel,
    UnknownSession,
    Twice,
    TooMany,
}

impl Kind {
    /// The fault of the line with this number.
    pub fn at(self, line: u32) -> ScriptFault
        ensures { result ≡ fault_at self line }
    {
        match self {
            Kind::StrayText => ScriptFault::StrayText { line },
            Kind::BadDirective => ScriptFault::BadDirective { line },
            Kind::BadNumber => ScriptFault::BadNumber { line },
            Kind::UnknownModel => ScriptFault::UnknownModel { line },
            Kind::UnknownSession => ScriptFault::UnknownSession { line },
            Kind::Twice => ScriptFault::Twice { line },
            Kind::TooMany => ScriptFault::TooMany { line },
        }
    }
}

/// Why a line isn't taken.
#[derive(Clone, Copy)]
pub enum Stop {
    Fault(Kind),
    Memory,
}

impl From<AllocError> for Stop {
    ghost use Rattle.script_format.specs.declared.fault.Stop.TheVariants.{Memory};

    ghost from_gives = { λ _ stop. stop ≡ Memory };

    fn from(_: AllocError) -> Self {
        Stop::Memory
    }
}

impl From<AllocError> for ScriptFault {
    ghost use Rattle.script_format.specs.declared.fault.ScriptFault.TheVariants.{Memory};

    ghost from_gives = { λ _ fault. fault ≡ Memory };

    fn from(_: AllocError) -> Self {
        ScriptFault::Memory
    }
}
