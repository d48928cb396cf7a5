// Words, each with a number.
ghost use Rattle.std.specs.Prelude.{◌≡◌, [], slice_get, Some, OnOk, OnErr, IfOk};
ghost use Rattle.named_model.specs.Names.{number_of};
ghost use Rattle.name_tables.specs.InForce.{with_word};

use indexmap::IndexSet;
use std::alloc::{AllocError, Global};
use std::marker::Model;

// Words in the order in which they were met, each once. Contracts see the list of them.
#[derive(Drop)]
pub struct Words {
    words: IndexSet<String>,
}

impl Model for Words {
    ghost use Rattle.std.specs.Prelude.{List, ℕ, map, string_bytes};

    ghost Value = { List (List ℕ) };

    ghost view = { λ w. map string_bytes w.words.keys };
}

impl Words {
    // No word.
    pub fn new(alloc: Global) -> Words
        ensures { result ≡ [] }
    {
        Words {
            words: IndexSet::new(alloc),
        }
    }

    // The number of a word, if it was met.
    pub fn number(&self, text: &str) -> Option<usize>
        ensures { result ≡ number_of self.now text.now }
    {
        self.words.get_index_of(text)
    }

    // The number of a word, which is met now if it was not before.
    pub fn meet(&mut self, alloc: Global, text: &str) -> Result<usize, AllocError>
        ensures words { OnOk result (self.new ≡ with_word self.old text.now) }
        ensures number { IfOk result (λ n. slice_get self.new n ≡ Some text.now) }
        ensures err { OnErr result (self.new ≡ self.old) }
    {
        match self.number(text) {
            Some(number) => Ok(number),
            None => {
                let word = String::from_str(alloc, text)?;
                let (number, _) = self.words.insert_full(word)?;
                Ok(number)
            }
        }
    }
}
