// How a program ends.
ghost use Rattle.std.specs.Prelude.{◌≡◌};
ghost use Rattle.outside_io.specs.Status.{number_of};

/// How a program ends that reads an input and writes the answer to it.
#[derive(Clone, Copy, Debug, PartialEq, Eq)]
pub enum Status {
    /// All is done; a proof text is accepted.
    Done,
    /// A proof text is read and not accepted.
    NotAccepted,
    /// The words say no command.
    WordsRefused,
    /// The input is no script, or no proof text.
    InputRefused,
    /// A model of the script can't be used.
    ModelRefused,
    /// The source failed.
    SourceFailed,
    /// The sink failed.
    SinkFailed,
    /// Memory was wanting.
    NoMemory,
}

impl Status {
    /// The number that the system is told.
    pub fn number(self) -> u8
        ensures { result ≡ number_of self }
    {
        match self {
            Status::Done => 0,
            Status::NotAccepted => 1,
            Status::WordsRefused => 2,
            Status::InputRefused => 3,
            Status::ModelRefused => 4,
            Status::SourceFailed => 5,
            Status::SinkFailed => 6,
            Status::NoMemory => 7,
        }
    }
}
