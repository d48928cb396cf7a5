// Local names, the innermost of which is found at once.
ghost use Rattle.std.specs.Prelude.{◌≡◌, ◌<◌, ℕ, List, [], ◌∷◌, length, drop, OnOk, OnErr};
ghost use Rattle.name_tables.specs.Levels.{place_of};

use crate::cover::cover;
use std::alloc::{AllocError, Global};
use std::marker::Model;

// A local name by its number, and the level of the one of the same number that it hides.
#[derive(Clone, Copy)]
pub struct Level {
    pub number: usize,
    pub hidden: Option<usize>,
}

// The numbers of the local names, the outermost first in memory. Contracts see the list of them, the innermost first.
#[derive(Drop)]
pub struct Locals {
    levels: Vec<Level>,
    innermost: Vec<Option<usize>>,
}

impl Model for Locals {
    ghost use Rattle.std.specs.Prelude.{List, ℕ};
    ghost use Rattle.name_tables.specs.Levels.{numbers_of, AreLevels};

    ghost Value = { List ℕ };

    ghost view = { λ l. numbers_of l.levels.items };

    ghost invariant = { λ l. AreLevels l.levels.items l.innermost.items };
}

impl Locals {
    // No local name.
    pub fn new(alloc: Global) -> Locals
        ensures { result ≡ [] }
    {
        Locals {
            levels: Vec::new(alloc),
            innermost: Vec::new(alloc),
        }
    }

    // How many there are.
    pub fn len(&self) -> usize
        ensures { result ≡ length self.now }
    {
        self.levels.len()
    }

    // How far out the innermost one of this number is.
    pub fn place(&self, number: usize) -> Option<usize>
        ensures { result ≡ place_of number self.now }
    {
        if number >= self.innermost.len() {
            return None;
        }
        match self.innermost[number] {
            Some(level) => Some(self.levels.len() - 1 - level),
            None => None,
        }
    }

    // A local name more, inside the others.
    pub fn enter(&mut self, number: usize) -> Result<(), AllocError>
        ensures ok { OnOk result (self.new ≡ number ∷ self.old) }
        ensures err { OnErr result (self.new ≡ self.old) }
    {
        cover(&mut self.innermost, number, None)?;
        let level = self.levels.len();
        let hidden = self.innermost[number];
        self.levels.push(Level { number, hidden })?;
        self.innermost[number] = Some(level);
        Ok(())
    }

    // Leaves the innermost local name.
    pub fn leave(&mut self)
        ensures { self.new ≡ drop 1 self.old }
    {
        if let Some(level) = self.levels.pop() {
            self.innermost[level.number] = level.hidden;
        }
    }
}
