// Sets of lists.
ghost use Rattle.std.specs.Prelude.{◌≡◌, ◌++◌, [], ◌∷◌, length, OnOk, OnErr};
ghost use Rattle.model_types.specs.Bounding.{has};
ghost use Rattle.model_types.specs.Bounds.Same.{lists_of, AreSame};

use indexmap::IndexSet;
use std::alloc::{AllocError, Global};
use std::marker::Model;

/// The most lists of a bounding type.
pub const MOST_LISTS: usize = 2_097_152;

/// A set of lists of top-level signatures. Contracts see the lists, in the order in which they were put into it.
pub struct BoundingType {
    rows: IndexSet<Vec<usize>>,
}

// By hand, so that a caller's proof has one step wherever one is dropped.
impl Drop for BoundingType {
    fn drop(self) {
        let BoundingType { rows: _ } = self;
    }
}

impl Model for BoundingType {
    ghost use Rattle.std.specs.Prelude.{List, ℕ};
    ghost use Rattle.model_types.specs.Bounds.Same.{lists_of};

    ghost Value = { List (List ℕ) };

    ghost view = { λ t. lists_of t.rows.keys };
}

impl BoundingType {
    /// No list.
    pub fn new(alloc: Global) -> BoundingType
        ensures { result ≡ [] }
    {
        BoundingType {
            rows: IndexSet::new(alloc),
        }
    }

    /// How many lists there are.
    pub fn len(&self) -> usize
        ensures { result ≡ length self.now }
    {
        self.rows.len()
    }

    /// The lists.
    pub fn as_slice(&self) -> &[Vec<usize>]
        ensures { lists_of result.now ≡ self.now }
    {
        self.rows.as_slice()
    }

    /// Whether a list is one of these.
    pub fn contains(&self, list: &[usize]) -> bool
        ensures { result ≡ has self.now list.now }
    {
        self.rows.contains(list)
    }

    /// Puts a list into the set. More lists than a bounding type may have are want of memory.
    pub fn put(&mut self, list: Vec<usize>) -> Result<(), AllocError>
        ensures ok { OnOk result (AreSame self.new (self.old ++ list.items ∷ [])) }
        ensures err { OnErr result (self.new ≡ self.old) }
    {
        if self.rows.len() >= MOST_LISTS {
            return Err(AllocError);
        }
        self.rows.insert_full(list)?;
        Ok(())
    }
}
