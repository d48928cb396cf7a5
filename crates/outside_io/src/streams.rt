// A source over the library's reader, and a sink over its writer.
ghost use Rattle.std.specs.Prelude.{◌≡◌, ℕ, ◌<◌, ◌≤◌, ◌↔◌, List, [], ◌++◌, length, take, Ok, IfSome, IfNone, IfOk, OnOk, OnErr};
ghost use Rattle.outside_io.specs.Count.{Rose, raised};
ghost use Rattle.std.specs.Io.KnownBytes.{Keeps, Appends, ReadConsumes};
ghost use Rattle.outside_io.specs.Streams.{untold};

use crate::counter::raised;
use crate::sink::Sink;
use crate::source::{Failed, Source};
use std::io::{ErrorKind, Read, Write};
use std::marker::Model;

// A call that signals interrupt is made so many times at most.
const MOST_TRIES: u32 = 1000;

/// A source over a reader. It tells no bytes. A contract sees the reader and the count of faults.
///
/// A read that a signal interrupts (`ErrorKind::Interrupted`) is tried again, up to 1,000 tries in all. An error that
/// is left after that, and each other one, is a fault.
#[derive(Drop)]
pub struct StdSource<R> {
    reader: R,
    faults: u64,
}

impl<R> Model for StdSource<R> {
    ghost use Rattle.outside_io.specs.Streams.{Counted, counted_code};

    ghost Value = { Counted R };

    ghost coded = { counted_code R.code };

    ghost view = { λ s. record { stream = s.reader; faults = s.faults } };
}

impl<R: Read + Drop> StdSource<R> {
    /// A source over this reader, with no fault so far.
    pub fn new(reader: R) -> StdSource<R>
        ensures { result ≡ record { stream = reader; faults = 0 } }
    {
        StdSource { reader, faults: 0 }
    }
}

impl<R: Read + Drop> Source for StdSource<R> {
    ghost tells = { λ _. ⊥ };

    ghost left = { λ _. untold };

    ghost faults = { λ s. s.faults };

    fn read(&mut self, into: &mut [u8]) -> Result<usize, Failed>
        ensures tells { ⊥ ↔ ⊥ }
        ensures faults { self.old.faults ≤ self.new.faults }
        ensures most { IfOk result (λ n. n ≤ length into.new) }
        ensures bytes { ⊥ → IfOk result (λ n. untold ≡ take n into.new ++ untold) }
        ensures end { ⊥ → 0 < length into.old → IfOk result (λ n. (n ≡ 0) ↔ (untold ≡ [])) }
        ensures failed { OnErr result (Rose self.old.faults self.new.faults) }
        ensures not_taken { ⊥ → OnErr result (untold ≡ untold) }
        ensures empty { length into.old ≡ 0 → (result ≡ Ok 0) × (self.new ≡ self.old) }

        // Each error is counted, once, and nothing else is.
        ensures ok { OnOk result (self.new.faults ≡ self.old.faults) }
        ensures err { OnErr result (self.new.faults ≡ raised self.old.faults) }

        // Where the reader's bytes are known, it gives those.
        ensures given { ReadConsumes (R.remaining self.old.stream) (R.remaining self.new.stream) result into.new }
    {
        if into.is_empty() {
            return Ok(0);
        }
        match read_through(&mut self.reader, into) {
            Ok(count) => Ok(count),
            Err(Failed) => {
                self.faults = raised(self.faults);
                Err(Failed)
            }
        }
    }
}

// Reads into the front of a buffer, and tries again where a signal interrupts that.
fn read_through<R: Read>(reader: &mut R, into: &mut [u8]) -> Result<usize, Failed>
    ensures room { length into.new ≡ length into.old }
    ensures most { IfOk result (λ n. n ≤ length into.new) }
    ensures given { ReadConsumes (R.remaining reader.old) (R.remaining reader.new) result into.new }
{
    for _ in 0..MOST_TRIES {
        match reader.read(into) {
            Ok(count) => return Ok(count),
            Err(error) => {
                if error.kind() != ErrorKind::Interrupted {
                    return Err(Failed);
                }
            }
        }
    }
    Err(Failed)
}

/// A sink over a writer, which it flushes at each write. It tells no bytes. A contract sees the writer
/// and the count of faults.
///
/// A write or a flush that a signal interrupts (`ErrorKind::Interrupted`) is tried again, up to 1,000 tries in all. An
/// error that is left after that, and each other one, is a fault, and so is a write that took nothing.
#[derive(Drop)]
pub struct StdSink<W> {
    writer: W,
    faults: u64,
}

impl<W> Model for StdSink<W> {
    ghost use Rattle.outside_io.specs.Streams.{Counted, counted_code};

    ghost Value = { Counted W };

    ghost coded = { counted_code W.code };

    ghost view = { λ s. record { stream = s.writer; faults = s.faults } };
}

impl<W: Write + Drop> StdSink<W> {
    /// A sink over this writer, with no fault so far.
    pub fn new(writer: W) -> StdSink<W>
        ensures { result ≡ record { stream = writer; faults = 0 } }
    {
        StdSink { writer, faults: 0 }
    }
}

impl<W: Write + Drop> Sink for StdSink<W> {
    ghost tells = { λ _. ⊥ };

    ghost written = { λ _. untold };

    ghost faults = { λ s. s.faults };

    fn write(&mut self, piece: &[u8]) -> Result<usize, Failed>
        ensures tells { ⊥ ↔ ⊥ }
        ensures faults { self.old.faults ≤ self.new.faults }
        ensures most { IfOk result (λ n. n ≤ length piece.now) }
        ensures least { 0 < length piece.now → IfOk result (λ n. 0 < n) }
        ensures bytes { ⊥ → IfOk result (λ n. untold ≡ untold ++ take n piece.now) }
        ensures failed { OnErr result (Rose self.old.faults self.new.faults) }
        ensures not_appended { ⊥ → OnErr result (untold ≡ untold) }
        ensures empty { length piece.now ≡ 0 → (result ≡ Ok 0) × (self.new ≡ self.old) }

        // Each error is counted, once, and nothing else is.
        ensures ok { OnOk result (self.new.faults ≡ self.old.faults) }
        ensures err { OnErr result (self.new.faults ≡ raised self.old.faults) }

        // Where the writer's bytes are known, they grow by those.
        ensures passed { IfOk result (λ n. Appends (W.contents self.old.stream) (W.contents self.new.stream) (take n piece.now)) }

        // After an error they may have grown by a front of the piece, and by nothing else.
        ensures lost { OnErr result ((n : ℕ) × Appends (W.contents self.old.stream) (W.contents self.new.stream) (take n piece.now)) }
    {
        if piece.is_empty() {
            return Ok(0);
        }
        match write_through(&mut self.writer, piece) {
            Some(count) => Ok(count),
            None => {
                self.faults = raised(self.faults);
                Err(Failed)
            }
        }
    }
}

// Writes the front of a piece and flushes it. `None` means an error, or that nothing was taken.
fn write_through<W: Write>(writer: &mut W, piece: &[u8]) -> Option<usize>
    ensures most { IfSome result (λ n. n ≤ length piece.now) }
    ensures least { IfSome result (λ n. 0 < n) }
    ensures passed { IfSome result (λ n. Appends (W.contents writer.old) (W.contents writer.new) (take n piece.now)) }
    ensures lost { IfNone result ((n : ℕ) × Appends (W.contents writer.old) (W.contents writer.new) (take n piece.now)) }
{
    let count = write_front(writer, piece)?;
    flush(writer)?;
    if count == 0 { None } else { Some(count) }
}

// Writes the front of a piece, and tries again where a signal interrupts that. `None` means an error.
fn write_front<W: Write>(writer: &mut W, piece: &[u8]) -> Option<usize>
    ensures most { IfSome result (λ n. n ≤ length piece.now) }
    ensures passed { IfSome result (λ n. Appends (W.contents writer.old) (W.contents writer.new) (take n piece.now)) }
    ensures kept { IfNone result (Keeps (W.contents writer.old) (W.contents writer.new)) }
{
    for _ in 0..MOST_TRIES {
        match writer.write(piece) {
            Ok(count) => return Some(count),
            Err(error) => {
                if error.kind() != ErrorKind::Interrupted {
                    return None;
                }
            }
        }
    }
    None
}

// Flushes, and tries again where a signal interrupts that. `None` means an error.
fn flush<W: Write>(writer: &mut W) -> Option<()>
    ensures { Keeps (W.contents writer.old) (W.contents writer.new) }
{
    for _ in 0..MOST_TRIES {
        match writer.flush() {
            Ok(()) => return Some(()),
            Err(error) => {
                if error.kind() != ErrorKind::Interrupted {
                    return None;
                }
            }
        }
    }
    None
}
