// Atoms as they are written.
ghost use Rattle.std.specs.Prelude.{◌≡◌, IfOk};

use std::alloc::{AllocError, Global};
use std::marker::Model;
use tuple_core::Name;

/// An atom as it is written: the name of its top-level signature, and its place there.
#[derive(Drop)]
pub struct AtomName {
    pub top: Name,
    pub place: u32,
}

impl AtomName {
    /// An equal name.
    pub fn copy(&self, alloc: Global) -> Result<AtomName, AllocError>
        ensures { IfOk result (λ a. a ≡ self.now) }
    {
        let top = self.top.copy(alloc)?;
        Ok(AtomName {
            top,
            place: self.place,
        })
    }
}

/// The atoms of a tuple as they are written. Contracts see the list of them.
#[derive(Drop)]
pub struct AtomNames {
    names: Vec<AtomName>,
}

impl Model for AtomNames {
    ghost use Rattle.std.specs.Prelude.{List};
    ghost use Rattle.session_words.specs.declared.atom_names.AtomName.{AtomName};

    ghost Value = { List AtomName };

    ghost view = { λ s. s.names.items };
}

impl AtomNames {
    /// These names.
    pub fn of(names: Vec<AtomName>) -> AtomNames
        ensures { result ≡ names.items }
    {
        AtomNames { names }
    }

    /// The names, in order.
    pub fn names(&self) -> &[AtomName]
        ensures { result.now ≡ self.now }
    {
        self.names.as_slice()
    }

    /// Gives the names back.
    pub fn into_names(self) -> Vec<AtomName>
        ensures { result.items ≡ self }
    {
        self.names
    }

    /// Equal names.
    pub fn copy(&self, alloc: Global) -> Result<AtomNames, AllocError>
        ensures { IfOk result (λ s. s ≡ self.now) }
    {
        let names = copies_of(alloc, self.names.as_slice())?;
        Ok(AtomNames { names })
    }
}

fn copies_of(alloc: Global, names: &[AtomName]) -> Result<Vec<AtomName>, AllocError>
    ensures { IfOk result (λ copies. copies.items ≡ names.now) }
{
    let mut copies = Vec::new(alloc);
    for name in names {
        copies.push(name.copy(alloc)?)?;
    }
    Ok(copies)
}
