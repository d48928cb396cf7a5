// A model whose text is being read.
ghost use Rattle.std.specs.Prelude.{◌≡◌, [], IfOk};
ghost use Rattle.script_format.specs.Reading.{with_text};

use crate::entries::ModelEntry;
use std::alloc::{AllocError, Global};
use std::marker::Model;
use tuple_core::Name;

/// A model of a script, whose text grows.
#[derive(Drop)]
pub struct Draft {
    name: Name,
    text: String,
}

impl Model for Draft {
    ghost use Rattle.std.specs.Prelude.{string_bytes};
    ghost use Rattle.script_format.specs.declared.entries.ModelEntry.{ModelEntry};

    ghost Value = { ModelEntry };

    ghost view = { λ d. record { name = d.name; text = string_bytes d.text } };
}

impl Draft {
    /// A model without text.
    pub fn new(alloc: Global, name: Name) -> Draft
        ensures { result ≡ record { name = name; text = [] } }
    {
        Draft {
            name,
            text: String::new(alloc),
        }
    }

    /// Adds a line.
    pub fn add_line(&mut self, line: &str) -> Result<(), AllocError>
        ensures { IfOk result (λ _. self.new ≡ with_text line.now self.old) }
    {
        self.text.push_str(line)?;
        self.text.push_str("\n")
    }

    /// The name.
    pub fn name(&self) -> &Name
        ensures { result.now ≡ self.now.name }
    {
        &self.name
    }

    /// The model with the text that was read.
    pub fn entry(&self, alloc: Global) -> Result<ModelEntry, AllocError>
        ensures { IfOk result (λ m. m ≡ self.now) }
    {
        let name = self.name.copy(alloc)?;
        let text = Name::of(alloc, self.text.as_str())?;
        Ok(ModelEntry { name, text })
    }
}
