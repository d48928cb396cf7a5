// Where a worker stops before a command.

/// A place that a worker passes before each command. No promise rests on it; a test may hold a worker there for a while.
pub trait Gate {
    /// Returns when the command with this number, from 0, of this session, from 0, may go on.
    fn pass(&self, session: u32, command: u32);
}

/// A gate that is always open.
#[derive(Clone, Copy)]
pub struct OpenGate;

impl Gate for OpenGate {
    fn pass(&self, _session: u32, _command: u32) {}
}
