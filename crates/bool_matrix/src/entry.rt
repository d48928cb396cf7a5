// A tuple with its node, and sorted lists of these.
ghost use Rattle.std.specs.Prelude.{◌≡◌, ◌≤◌, ◌<◌, ◌+◌, length, IfOk, IfErr, OnOk, OnErr, All, IsTrue, ◌↔◌};
ghost use Rattle.bool_circuit.specs.Network.{size};
ghost use Rattle.bool_circuit.specs.Value.{Extends};
ghost use Rattle.tuple_core.specs.Gains.{SomeGives};
ghost use Rattle.bool_matrix.specs.Entries.{IsAscending, IsPlace, IsGap};
ghost use Rattle.bool_matrix.specs.Cells.{AtEntry};
ghost use Rattle.bool_matrix.specs.Edits.{EntriesGain, EntriesPut};

use bool_circuit::{Circuit, MOST_NODES, Node};
use std::alloc::AllocError;
use tuple_core::Tuple;

/// A tuple, and the node that is true where the tuple is in the relation.
#[derive(Drop)]
pub struct Entry {
    /// The tuple.
    pub tuple: Tuple,
    /// Its node.
    pub node: Node,
}

// Where the tuple stands, or else where it would go.
pub(crate) fn place_of(entries: &[Entry], tuple: &Tuple) -> Result<usize, usize>
    requires { IsAscending entries.now }
    ensures found { IfOk result (IsPlace entries.now tuple.now) }
    ensures absent { IfErr result (IsGap entries.now tuple.now) }
{
    entries.binary_search_by(|entry| entry.tuple.cmp(tuple))
}

// Whether each node is below the number.
pub(crate) fn are_below(entries: &[Entry], len: u32) -> bool
    ensures { IsTrue result ↔ All (λ e. e.node < len) entries.now }
{
    for entry in entries {
        let known = entry.node.place() < len;
        if !known {
            return false;
        }
    }
    true
}

// Puts the tuple in its place of the sorted list, or makes its node there one that is true where either is.
pub(crate) fn add_entry(
    entries: &mut Vec<Entry>,
    circuit: &mut Circuit,
    tuple: Tuple,
    node: Node,
) -> Result<(), AllocError>
    requires ascending { IsAscending entries.old.items }
    requires node { node < length circuit.old.shapes }
    requires of { All (λ e. e.node < length circuit.old.shapes) entries.old.items }
    requires room { length circuit.old.shapes < MOST_NODES }
    ensures ascending { IsAscending entries.new.items }
    ensures extends { Extends circuit.old circuit.new }
    ensures gains { OnOk result (EntriesGain circuit.old circuit.new entries.old.items entries.new.items tuple node) }
    ensures size { size circuit.new ≤ size circuit.old + 1 }
    ensures err { OnErr result (entries.new.items ≡ entries.old.items) }
{
    match place_of(entries, &tuple) {
        Ok(i) => {
            let both = circuit.or(entries[i].node, node)?;
            entries[i].node = both;
        }
        Err(i) => entries.insert(i, Entry { tuple, node })?,
    }
    Ok(())
}

// Puts a tuple that isn't there in its place of the sorted list.
pub(crate) fn put_entry(
    entries: &mut Vec<Entry>,
    tuple: Tuple,
    node: Node,
) -> Result<(), AllocError>
    requires ascending { IsAscending entries.old.items }
    requires absent { SomeGives entries.old.items AtEntry tuple → ⊥ }
    ensures ascending { IsAscending entries.new.items }
    ensures puts { OnOk result (EntriesPut entries.old.items entries.new.items tuple node) }
    ensures err { OnErr result (entries.new.items ≡ entries.old.items) }
{
    match place_of(entries, &tuple) {
        Ok(_) => {}
        Err(i) => entries.insert(i, Entry { tuple, node })?,
    }
    Ok(())
}
