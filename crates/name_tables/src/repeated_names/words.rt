// Texts by numbers.
ghost use Rattle.std.specs.Prelude.{◌≡◌, [], ◌∷◌, ◌++◌, Some, OnOk, IfOk};
ghost use Rattle.named_model.specs.Names.{number_of};

use crate::Names;
use std::alloc::{AllocError, Global};
use std::marker::Model;

/// Texts in the order in which they are met. The number of one is that of the place where it was met first. Contracts see
/// the list of them.
#[derive(Drop)]
pub struct Words {
    table: Names,
}

impl Model for Words {
    ghost use Rattle.std.specs.Prelude.{List, ℕ};

    ghost Value = { List (List ℕ) };

    ghost view = { λ w. w.table.globals.signatures };
}

impl Words {
    /// No text.
    pub fn new(alloc: Global) -> Words
        ensures { result ≡ [] }
    {
        Words {
            table: Names::new(alloc),
        }
    }

    /// Meets a text, and answers its number.
    pub fn meet(&mut self, alloc: Global, text: &str) -> Result<usize, AllocError>
        ensures words { OnOk result (self.new ≡ self.old ++ text.now ∷ []) }
        ensures number { IfOk result (λ n. number_of self.new text.now ≡ Some n) }
    {
        self.table.declare_signature(alloc, text)?;
        self.table.signature(text).ok_or(AllocError)
    }
}
