// What is found of each name under each top-level signature.
ghost use Rattle.std.specs.Prelude.{◌≡◌, List, if◌then◌else◌, OnOk, OnErr};
ghost use Rattle.overload_resolution.specs.Fields.Found.{both, found_by};
ghost use Rattle.overload_resolution.specs.declared.shared_fields.found.Found.TheVariants.{One};
ghost use Rattle.overload_resolution.specs.declared.shared_fields.fields.Row.{Row};
ghost use Rattle.overload_resolution.specs.declared.shared_fields.seen.Key.{Key};
ghost use Rattle.overload_resolution.specs.Fields.Seen.{same_key, is_under, found_in, AreSeen};

use crate::shared_fields::found::Found;
use indexmap::IndexMap;
use std::alloc::AllocError;

// The number of a name, and a top-level signature.
#[derive(Clone, Copy, PartialEq, Eq, Hash)]
pub struct Key {
    pub name: usize,
    pub top: usize,
}

// The fields of a name under one of these signatures.
pub fn under(seen: &IndexMap<Key, Found>, name: usize, tops: &[usize]) -> Found
    ensures { (rows : List Row) → AreSeen rows seen.now.entries → result ≡ found_by (is_under name tops.now) 0 rows }
{
    let mut found = Found::Nothing;
    for top in tops {
        found = found.and(at(seen, Key { name, top: *top }));
    }
    found
}

// One more field of a name under a signature.
pub fn put(seen: &mut IndexMap<Key, Found>, key: Key, number: usize) -> Result<(), AllocError>
    ensures ok { OnOk result ((k : Key) → found_in seen.new.entries k ≡ (if same_key key k then both (found_in seen.old.entries key) (One number) else found_in seen.old.entries k)) }
    ensures err { OnErr result (seen.new.entries ≡ seen.old.entries) }
{
    let found = at(seen, key).and(Found::One(number));
    seen.insert(key, found)?;
    Ok(())
}

fn at(seen: &IndexMap<Key, Found>, key: Key) -> Found
    ensures { result ≡ found_in seen.now.entries key }
{
    match seen.get(&key) {
        Some(found) => *found,
        None => Found::Nothing,
    }
}
