// What a lock keeps.
ghost use Rattle.std.specs.Prelude.{◌≡◌, ℕ, List, length};

/// A value that a lock keeps: a list of entries, each under the number of a pass, and a base that no turn changes.
pub trait Kept: Drop {
    /// What a turn may add one of.
    type Entry;

    /// What stays as it was when the lock was made.
    type Base;

    // the number of the pass that an entry is under
    ghost by: { Self.Entry → ℕ };

    ghost entries: { Self → List Self.Entry };

    ghost base: { Self → Self.Base };

    /// The number of entries.
    fn count(&self) -> u64
        ensures { result ≡ length (entries self.now) };
}
