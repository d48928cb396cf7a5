// A source and a sink in memory, which fail where they are told to.
ghost use Rattle.std.specs.Prelude.{◌≡◌, ℕ, ◌-◌, ◌<◌, ◌≤◌, ◌↔◌, ◌⊎◌, List, [], ◌++◌, length, take, drop, min, ⊤, Ok, IsErr, IfOk, OnOk, OnErr, IsTrue, Contains, vec_len, vec_capacity};
ghost use Rattle.outside_io.specs.Count.{Rose, raised, last_count};

use crate::counter::raised;
use crate::sink::Sink;
use crate::source::{Failed, Source};
use std::alloc::{AllocError, Global};
use std::marker::Model;

/// A source of bytes in memory.
///
/// A call on a buffer that isn't empty has a number, from 1; the calls whose numbers it was told fail, and no others.
#[derive(Drop)]
pub struct MemSource {
    bytes: Vec<u8>,
    at: usize,
    most: usize,
    fails: Vec<u32>,
    calls: u64,
    faults: u64,
}

impl Model for MemSource {
    ghost use Rattle.std.specs.Prelude.{◌<◌, ◌≤◌, drop, vec_len};
    ghost use Rattle.outside_io.specs.Memory.{Input};

    ghost Value = { Input };

    ghost view = { λ s. record { left = drop s.at s.bytes.items; most = s.most; fails = s.fails.items; calls = s.calls; faults = s.faults } };

    ghost invariant = { λ s. (s.at ≤ vec_len s.bytes) × (0 < s.most) };
}

impl MemSource {
    /// A source of these bytes, which gives at most `most` of them in a call.
    pub fn new(bytes: Vec<u8>, most: usize, fails: Vec<u32>) -> MemSource
        requires { 0 < most }
        ensures { result ≡ record { left = bytes.items; most = most; fails = fails.items; calls = 0; faults = 0 } }
    {
        MemSource {
            bytes,
            at: 0,
            most,
            fails,
            calls: 0,
            faults: 0,
        }
    }
}

impl Source for MemSource {
    ghost tells = { λ _. ⊤ };

    ghost left = { λ s. s.left };

    ghost faults = { λ s. s.faults };

    fn read(&mut self, into: &mut [u8]) -> Result<usize, Failed>
        ensures tells { ⊤ ↔ ⊤ }
        ensures faults { self.old.faults ≤ self.new.faults }
        ensures most { IfOk result (λ n. n ≤ length into.new) }
        ensures bytes { ⊤ → IfOk result (λ n. self.old.left ≡ take n into.new ++ self.new.left) }
        ensures end { ⊤ → 0 < length into.old → IfOk result (λ n. (n ≡ 0) ↔ (self.old.left ≡ [])) }
        ensures failed { OnErr result (Rose self.old.faults self.new.faults) }
        ensures not_taken { ⊤ → OnErr result (self.new.left ≡ self.old.left) }
        ensures empty { length into.old ≡ 0 → (result ≡ Ok 0) × (self.new ≡ self.old) }

        // It fails in the calls whose numbers it was told, and in no other.
        ensures fails { IsErr result ↔ ((0 < length into.old) × Contains self.old.fails (raised self.old.calls)) }
        ensures counted { OnErr result (self.new ≡ record self.old { calls = raised self.old.calls; faults = raised self.old.faults }) }
        ensures untouched { OnErr result (into.new ≡ into.old) }

        // Else it gives as much as there is room for.
        ensures count { IfOk result (λ n. n ≡ min (length into.old) (min self.old.most (length self.old.left))) }
        ensures given { IfOk result (λ n. into.new ≡ take n self.old.left ++ drop n into.old) }
        ensures rest { 0 < length into.old → IfOk result (λ n. self.new ≡ record self.old { left = drop n self.old.left; calls = raised self.old.calls }) }
    {
        if into.is_empty() {
            return Ok(0);
        }
        self.calls = raised(self.calls);
        if contains(&self.fails, self.calls) {
            self.faults = raised(self.faults);
            return Err(Failed);
        }
        let rest = &self.bytes[self.at..];
        let count = into.len().min(self.most).min(rest.len());
        into[..count].copy_from_slice(&rest[..count]);
        self.at += count;
        Ok(count)
    }
}

/// A sink of bytes in memory.
///
/// A call with a piece that isn't empty has a number, from 1. The calls whose numbers it was told fail, and those
/// that come when the room is full; no others.
#[derive(Drop)]
pub struct MemSink {
    bytes: Vec<u8>,
    room: usize,
    most: usize,
    fails: Vec<u32>,
    calls: u64,
    faults: u64,
}

impl Model for MemSink {
    ghost use Rattle.std.specs.Prelude.{◌<◌, ◌≤◌, vec_len, vec_capacity};
    ghost use Rattle.outside_io.specs.Memory.{Output};

    ghost Value = { Output };

    ghost view = { λ s. record { written = s.bytes.items; room = s.room; most = s.most; fails = s.fails.items; calls = s.calls; faults = s.faults } };

    ghost invariant = { λ s. (vec_len s.bytes ≤ s.room) × (s.room ≤ vec_capacity s.bytes) × (0 < s.most) };
}

impl MemSink {
    /// A sink with room for that many bytes, whose memory it takes here. It takes at most `most` of them in a call.
    pub fn new(
        alloc: Global,
        room: usize,
        most: usize,
        fails: Vec<u32>,
    ) -> Result<MemSink, AllocError>
        requires { 0 < most }
        ensures { IfOk result (λ sink. sink ≡ record { written = []; room = room; most = most; fails = fails.items; calls = 0; faults = 0 }) }
    {
        let bytes = Vec::with_capacity(alloc, room)?;
        Ok(MemSink {
            bytes,
            room,
            most,
            fails,
            calls: 0,
            faults: 0,
        })
    }

    /// What was written.
    pub fn bytes(&self) -> &[u8]
        ensures { result.now ≡ self.now.written }
    {
        &self.bytes
    }
}

impl Sink for MemSink {
    ghost tells = { λ _. ⊤ };

    ghost written = { λ s. s.written };

    ghost faults = { λ s. s.faults };

    fn write(&mut self, piece: &[u8]) -> Result<usize, Failed>
        ensures tells { ⊤ ↔ ⊤ }
        ensures faults { self.old.faults ≤ self.new.faults }
        ensures most { IfOk result (λ n. n ≤ length piece.now) }
        ensures least { 0 < length piece.now → IfOk result (λ n. 0 < n) }
        ensures bytes { ⊤ → IfOk result (λ n. self.new.written ≡ self.old.written ++ take n piece.now) }
        ensures failed { OnErr result (Rose self.old.faults self.new.faults) }
        ensures not_appended { ⊤ → OnErr result (self.new.written ≡ self.old.written) }
        ensures empty { length piece.now ≡ 0 → (result ≡ Ok 0) × (self.new ≡ self.old) }

        // It fails in the calls whose numbers it was told, and where the room is full, and in no other.
        ensures fails { IsErr result ↔ ((0 < length piece.now) × (Contains self.old.fails (raised self.old.calls) ⊎ (self.old.room ≡ length self.old.written))) }
        ensures counted { OnErr result (self.new ≡ record self.old { calls = raised self.old.calls; faults = raised self.old.faults }) }

        // Else it takes as much as there is room for.
        ensures count { IfOk result (λ n. n ≡ min (length piece.now) (min self.old.most (self.old.room - length self.old.written))) }
        ensures taken { 0 < length piece.now → IfOk result (λ n. self.new ≡ record self.old { written = self.old.written ++ take n piece.now; calls = raised self.old.calls }) }
    {
        if piece.is_empty() {
            return Ok(0);
        }
        self.calls = raised(self.calls);
        let count = piece.len().min(self.most).min(self.room - self.bytes.len());
        if count == 0 || contains(&self.fails, self.calls) {
            self.faults = raised(self.faults);
            return Err(Failed);
        }
        // The room was taken when the sink was made.
        self.bytes.extend_from_slice(&piece[..count]).unwrap();
        Ok(count)
    }
}

// Whether the number stands in the list.
fn contains(numbers: &[u32], number: u64) -> bool
    ensures { IsTrue result ↔ Contains numbers.now number }
{
    numbers.iter().any(|&n| u64::from(n) == number)
}
