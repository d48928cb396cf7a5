// What a pass knows. No value of these types is ever made: they are the data that clauses and proofs speak of.
use std::collections::LinkedList;

/// What the first pass keeps of the last pass that it took back. `E` is an entry.
pub struct LastJoin<E> {
    /// What the first pass had seen.
    pub mine: LinkedList<E>,
    /// What the other one had seen.
    pub theirs: LinkedList<E>,
    /// The other's number.
    pub number: u32,
    /// The other's own entries.
    pub own: LinkedList<E>,
    /// The numbers that had been taken back before.
    pub joined: LinkedList<u32>,
    /// How many passes were out, the other among them.
    pub live: u32,
}

/// What a pass knows. `E` is an entry, and `B` the base.
pub struct View<E, B> {
    /// The pass was taken back.
    pub spent: bool,
    /// 0 is the first pass.
    pub number: u32,
    /// How many passes were split off from the first one; 0 for another pass.
    pub made: u32,
    /// How many of these were not taken back; 0 for another pass.
    pub live: u32,
    /// The numbers that the first pass took back.
    pub joined: LinkedList<u32>,
    /// What the first pass keeps of the last one.
    pub last: Option<LastJoin<E>>,
    /// The entries that the pass has seen.
    pub seen: LinkedList<E>,
    /// The entries under its number.
    pub own: LinkedList<E>,
    /// The value's base; `None` in a spent view.
    pub base: Option<B>,
    /// While the pass is in turn, the entries that it found or counted last.
    pub turn: Option<LinkedList<E>>,
}
