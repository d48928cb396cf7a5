// The fields of a model, as far as shared names ask.
ghost use Rattle.std.specs.Prelude.{◌≡◌, ◌++◌, ◌<◌, ◌==◌, ℕ, List, [], ◌∷◌, map, length, slice_get, option_map, IfOk, OnOk, OnErr, string_bytes, bytes_eq};
ghost use Rattle.model_types.specs.Typing.{Declared, chosen};
ghost use Rattle.overload_resolution.specs.Fields.Alike.{AreAlike};
ghost use Rattle.overload_resolution.specs.Fields.Entries.{Entry, entry_of, entry_view, entry_name, name_at, AreBefore};
ghost use Rattle.overload_resolution.specs.Fields.Seen.{HaveNames, IsNumberOf};
ghost use Rattle.std.specs.List.{IsDistinct};
ghost use Rattle.std.specs.String.{string_eq};

use crate::shared_fields::found::Found;
use crate::shared_fields::seen::{Key, put, under};
use crate::shared_fields::tops::Tops;
use alloy_lex::Place;
use indexmap::{IndexMap, IndexSet};
use model_types::TypeFault;
use std::alloc::{AllocError, Global};
use std::marker::Model;

// A field: its name and the top-level signature that it belongs to, and its arity.
#[derive(Drop)]
pub struct Row {
    pub key: Key,
    pub arity: usize,
}

/// Fields in order of declaration, each with its name, the top-level signature that it belongs to, and its arity. Contracts
/// see the list of these.
#[derive(Drop)]
pub struct Fields {
    names: IndexSet<String>,
    rows: Vec<Row>,
    seen: IndexMap<Key, Found>,
}

impl Model for Fields {
    ghost use Rattle.std.specs.Prelude.{List, map};
    ghost use Rattle.overload_resolution.specs.Fields.Entries.{Entry, entry_view};
    ghost use Rattle.overload_resolution.specs.Fields.Seen.{AreKept};

    ghost Value = { List Entry };

    ghost view = { λ f. map (entry_view f.names.keys) f.rows.items };

    ghost invariant = { λ f. AreKept f.names.keys f.rows.items f.seen.entries };
}

impl Fields {
    /// No field.
    pub fn new(alloc: Global) -> Fields
        ensures { result ≡ [] }
    {
        Fields {
            names: IndexSet::new(alloc),
            rows: Vec::new(alloc),
            seen: IndexMap::new(alloc),
        }
    }

    /// A field more. After an error the fields are as before.
    pub fn push(
        &mut self,
        alloc: Global,
        name: &str,
        top: usize,
        arity: usize,
    ) -> Result<(), AllocError>
        ensures ok { OnOk result (self.new ≡ self.old ++ record { name = name.now; top = top; arity = arity } ∷ []) }
        ensures err { OnErr result (self.new ≡ self.old) }
    {
        self.rows.reserve(1)?;
        let name = numbered(alloc, &mut self.names, name)?;
        let key = Key { name, top };
        put(&mut self.seen, key, self.rows.len())?;
        let _pushed = self.rows.push(Row { key, arity });
        Ok(())
    }

    /// The arity of the field of a number, if there is one.
    pub fn arity(&self, number: usize) -> Option<usize>
        ensures { result ≡ option_map (λ (e : Entry). e.arity) (slice_get self.now number) }
    {
        match self.rows.get(number) {
            Some(row) => Some(row.arity),
            None => None,
        }
    }

    /// The one field with the name of the field of that number that belongs to one of these top-level signatures, whatever
    /// list has them. Where there is none, or more than one, the name at the place is ambiguous.
    pub fn chosen(&self, tops: &Tops, place: Place, number: usize) -> Result<usize, TypeFault>
        ensures { (d : Declared) (ts : List ℕ) → map entry_of d.fields ≡ self.now → AreAlike tops.now ts → result ≡ chosen d ts place number }
    {
        let name = name_of(&self.names, self.rows.as_slice(), number);
        under(&self.seen, name, tops.as_slice()).only(place)
    }
}

// The number of a name, which is put behind the others if it is none of them.
fn numbered(alloc: Global, names: &mut IndexSet<String>, name: &str) -> Result<usize, AllocError>
    ensures grown { OnOk result (AreBefore names.old.keys names.new.keys) }
    ensures once { OnOk result (IsDistinct string_eq names.new.keys) }
    ensures number { IfOk result (λ n. (n < length names.new.keys) × (name_at names.new.keys n ≡ name.now)) }
    ensures err { OnErr result (names.new.keys ≡ names.old.keys) }
{
    let name = String::from_str(alloc, name)?;
    let (number, _) = names.insert_full(name)?;
    Ok(number)
}

// The number of the name of the field of a number; where there is no field, that of the empty name.
fn name_of(names: &IndexSet<String>, rows: &[Row], number: usize) -> usize
    requires { HaveNames names.now.keys rows.now }
    ensures { IsNumberOf names.now.keys (entry_name (slice_get (map (entry_view names.now.keys) rows.now) number)) result }
{
    match rows.get(number) {
        Some(row) => row.key.name,
        None => number_in(names, ""),
    }
}

// The number of a name among names; where it is none of them, one that is no name's.
fn number_in(names: &IndexSet<String>, name: &str) -> usize
    requires { IsDistinct string_eq names.now.keys }
    ensures { IsNumberOf names.now.keys name.now result }
{
    match names.get_index_of(name) {
        Some(number) => number,
        None => names.len(),
    }
}
