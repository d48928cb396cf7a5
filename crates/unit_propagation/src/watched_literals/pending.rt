// Which clauses are marked.
ghost use Rattle.std.specs.Prelude.{◌≡◌, ◌+◌, ◌-◌, ◌^◌, ◌++◌, ◌∷◌, [], ◌<◌, ◌≤◌, IfOk, OnOk, OnErr, length, true, false, if◌then◌else◌, slice_index_or, slice_set, take, vec_len, vec_capacity};
ghost use Rattle.std.specs.List.{swap_remove};
ghost use Rattle.unit_propagation.specs.Propagation.PendingState.{IsMarkList};

use std::alloc::{AllocError, Global};
use std::marker::Model;

/// Which clauses are marked, and a list of those that are. Contracts see both.
#[derive(Debug, Drop)]
pub struct Pending {
    flags: Vec<bool>,
    list: Vec<u32>,
}

impl Model for Pending {
    ghost use Rattle.unit_propagation.specs.Propagation.PendingState.{PendingState};

    ghost Value = { PendingState };

    ghost use Rattle.unit_propagation.specs.Propagation.Pended.{IsPended};

    ghost view = { λ p. record { flags = p.flags.items; list = p.list.items } };

    ghost invariant = { IsPended };
}

// Marks a clause, where there is room for it on the list.
fn put_mark(flags: &mut Vec<bool>, list: &mut Vec<u32>, n: u32)
    requires in_range { n < length flags.old.items }
    requires room { vec_len list.old < vec_capacity list.old }
    ensures flags { flags.new.items ≡ slice_set flags.old.items n true }
    ensures list { list.new.items ≡ list.old.items ++ n ∷ [] }
    ensures capacity { vec_capacity list.old ≤ vec_capacity list.new }
{
    flags[n as usize] = true;
    let _ = list.push(n);
}

// One clause more, with room for its mark on the list. After an error the items are as before.
fn put_flag(flags: &mut Vec<bool>, list: &mut Vec<u32>, is_marked: bool) -> Result<(), AllocError>
    requires small { length flags.old.items + 1 < 2 ^ 32 }
    ensures flags { OnOk result (flags.new.items ≡ flags.old.items ++ is_marked ∷ []) }
    ensures list { OnOk result (list.new.items ≡ (if is_marked then list.old.items ++ length flags.old.items ∷ [] else list.old.items)) }
    ensures room { OnOk result (length flags.old.items + 1 ≤ vec_capacity list.new) }
    ensures same_flags { OnErr result (flags.new.items ≡ flags.old.items) }
    ensures same_list { OnErr result (list.new.items ≡ list.old.items) }
    ensures capacity { vec_capacity list.old ≤ vec_capacity list.new }
{
    let n = flags.len() as u32;
    list.reserve(flags.len() + 1)?;
    flags.push(is_marked)?;
    if is_marked {
        let _ = list.push(n);
    }
    Ok(())
}

// Takes the last flag away.
fn cut_flag(flags: &mut Vec<bool>)
    requires { 0 < length flags.old.items }
    ensures { flags.new.items ≡ take (length flags.old.items - 1) flags.old.items }
{
    let last = flags.len() - 1;
    flags.truncate(last);
}

impl Pending {
    /// No clauses.
    pub fn new(alloc: Global) -> Pending
        ensures { result ≡ record { flags = []; list = [] } }
    {
        Pending {
            flags: Vec::new(alloc),
            list: Vec::new(alloc),
        }
    }

    /// As many clauses, of which the same are marked.
    pub fn copy(&self, alloc: Global) -> Result<Pending, AllocError>
        ensures { IfOk result (λ p. p ≡ self.now) }
    {
        let flags = Vec::from_slice(alloc, self.flags.as_slice())?;
        let mut list = Vec::with_capacity(alloc, self.flags.len())?;
        list.extend_from_slice(self.list.as_slice())?;
        Ok(Pending { flags, list })
    }

    /// One clause more, marked or not. After an error all is as before.
    pub fn push(&mut self, is_marked: bool) -> Result<(), AllocError>
        requires { length self.old.flags + 1 < 2 ^ 32 }
        ensures ok { OnOk result (self.new ≡ record { flags = self.old.flags ++ is_marked ∷ []; list = if is_marked then self.old.list ++ length self.old.flags ∷ [] else self.old.list }) }
        ensures err { OnErr result (self.new ≡ self.old) }
    {
        put_flag(&mut self.flags, &mut self.list, is_marked)?;
        Ok(())
    }

    /// Takes the last clause away, which is not marked.
    pub fn pop(&mut self)
        requires some { 0 < length self.old.flags }
        requires unmarked { slice_index_or self.old.flags (length self.old.flags - 1) false ≡ false }
        ensures { self.new ≡ record { flags = take (length self.old.flags - 1) self.old.flags; list = self.old.list } }
    {
        cut_flag(&mut self.flags);
    }

    /// Marks a clause. It takes no memory.
    pub fn mark(&mut self, n: u32)
        requires { n < length self.old.flags }
        ensures flags { self.new.flags ≡ slice_set self.old.flags n true }
        ensures list { self.new.list ≡ (if slice_index_or self.old.flags n false then self.old.list else self.old.list ++ n ∷ []) }
    {
        let is_marked = self.flags[n as usize];
        if !is_marked {
            put_mark(&mut self.flags, &mut self.list, n);
        }
    }

    /// Takes away the mark of the clause at this place of the list, and answers which it was.
    pub fn unmark(&mut self, i: usize) -> u32
        requires { i < length self.old.list }
        ensures clause { result ≡ slice_index_or self.old.list i result }
        ensures marks { self.new ≡ record { flags = slice_set self.old.flags result false; list = swap_remove self.old.list i result } }
    {
        let n = self.list.swap_remove(i);
        self.flags[n as usize] = false;
        n
    }

    /// The clauses that are marked, each once.
    pub fn list(&self) -> &[u32]
        ensures list { result.now ≡ self.now.list }
        ensures marks { IsMarkList self.now.flags self.now.list }
    {
        self.list.as_slice()
    }
}
