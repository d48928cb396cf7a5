// Local names.
ghost use Rattle.std.specs.Prelude.{◌≡◌, ◌-◌, ◌^◌, ℕ, [], ◌∷◌, drop, length, reverse, slice_get, option_map, OnOk, OnErr};
ghost use Rattle.model_types.specs.Typing as typing;
ghost use Rattle.model_types.specs.Typing.{local_types};

use model_types::bounding_types::{BoundingType, Work};
use std::alloc::{AllocError, Global};
use std::marker::Model;

/// The local names that a part sees: variables, parameters, and names of a `let`, each with its arity and its type. Contracts
/// see the list of these, the innermost first.
#[derive(Drop)]
pub struct Locals {
    arities: Vec<usize>,
    types: Vec<BoundingType>,
}

impl Model for Locals {
    ghost use Rattle.std.specs.Prelude.{◌≡◌, List, length, reverse};
    ghost use Rattle.model_types.specs.Typing as typing;
    ghost use Rattle.overload_resolution.specs.Scopes.Zipped.{locals_of};

    ghost Value = { List typing.Local };

    ghost view = { λ l. reverse (locals_of l.arities.items l.types.items) };

    ghost invariant = { λ l. length l.arities.items ≡ length l.types.items };
}

impl Locals {
    /// No local name.
    pub fn new(alloc: Global) -> Locals
        ensures { result ≡ [] }
    {
        Locals {
            arities: Vec::new(alloc),
            types: Vec::new(alloc),
        }
    }

    /// How many there are.
    pub fn depth(&self) -> usize
        ensures { result ≡ length self.now }
    {
        self.arities.len()
    }

    /// The arity of a local name, counted outward from 0.
    pub fn arity(&self, number: usize) -> Option<usize>
        ensures { result ≡ option_map (λ (l : typing.Local). l.arity) (slice_get self.now number) }
    {
        let count = self.arities.len();
        if number >= count {
            return None;
        }
        let place = count - 1 - number;
        Some(self.arities[place])
    }

    /// The types, the outermost first.
    pub fn types(&self) -> &[BoundingType]
        ensures { reverse result.now ≡ local_types self.now }
    {
        self.types.as_slice()
    }

    /// A local name more, inside the others. After an error they are as before.
    pub fn enter(&mut self, arity: usize, of: BoundingType) -> Result<(), AllocError>
        ensures ok { OnOk result (self.new ≡ record { arity = arity; type = of } ∷ self.old) }
        ensures err { OnErr result (self.new ≡ self.old) }
    {
        self.arities.reserve(1)?;
        self.types.push(of)?;
        let _entered = self.arities.push(arity);
        Ok(())
    }

    /// Leaves the innermost local name, if there is one.
    pub fn leave(&mut self)
        ensures { self.new ≡ drop 1 self.old }
    {
        let _arity = self.arities.pop();
        let _type = self.types.pop();
    }
}

/// What parts stand in: the local names, and how many lists of types may still be looked at.
#[derive(Drop)]
pub struct Scope {
    pub locals: Locals,
    pub work: Work,
}

impl Scope {
    /// Without local names.
    pub fn new(alloc: Global) -> Scope
        ensures locals { result.locals ≡ [] }
        ensures work { result.work.left ≡ 2 ^ 21 }
    {
        Scope {
            locals: Locals::new(alloc),
            work: Work::new(),
        }
    }
}
