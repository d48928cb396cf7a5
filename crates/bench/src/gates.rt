// Making gates, and their clauses.
use bool_circuit::{Circuit, Node};
use circuit_cnf::{MOST_SIZE, clauses_of};
use std::alloc::{AllocError, Global};

/// Makes so many pairs of new gates, and gives the number of nodes.
pub fn made(alloc: Global, pairs: u32) -> Result<u32, AllocError> {
    let mut circuit = Circuit::new(alloc, 2);
    add_pairs(&mut circuit, pairs)?;
    Ok(circuit.len())
}

/// Makes the clause form of a circuit of so many pairs of gates, and gives the number of clauses.
pub fn clauses(alloc: Global, pairs: u32) -> Result<u32, AllocError> {
    let mut circuit = Circuit::new(alloc, 2);
    let Some(output) = add_pairs(&mut circuit, pairs)? else {
        return Ok(0);
    };
    let nodes = circuit.len();
    if output.place() >= nodes || circuit.inputs() as u64 + nodes as u64 > MOST_SIZE as u64 {
        return Ok(0);
    }
    Ok(clauses_of(alloc, &circuit, output)?.len())
}

// Adds so many pairs of new gates, each over the last one, and gives the last; `None` where the circuit is full.
fn add_pairs(circuit: &mut Circuit, pairs: u32) -> Result<Option<Node>, AllocError> {
    let Some(first) = input(circuit, 0)? else {
        return Ok(None);
    };
    let Some(second) = input(circuit, 1)? else {
        return Ok(None);
    };
    let mut node = first;
    for _ in 0..pairs {
        let Some(next) = pair(circuit, node, first, second)? else {
            return Ok(None);
        };
        node = next;
    }
    Ok(Some(node))
}

fn input(circuit: &mut Circuit, number: u32) -> Result<Option<Node>, AllocError> {
    if circuit.is_full() || circuit.inputs() <= number {
        return Ok(None);
    }
    Ok(Some(circuit.input(number)?))
}

// Two gates over a node; `None` where the circuit is full.
fn pair(
    circuit: &mut Circuit,
    node: Node,
    first: Node,
    second: Node,
) -> Result<Option<Node>, AllocError> {
    let Some(either) = or(circuit, node, second)? else {
        return Ok(None);
    };
    Ok(and(circuit, either, first)?)
}

fn or(circuit: &mut Circuit, a: Node, b: Node) -> Result<Option<Node>, AllocError> {
    let length = circuit.len();
    if circuit.is_full() || a.place() >= length || b.place() >= length {
        return Ok(None);
    }
    Ok(Some(circuit.or(a, b)?))
}

fn and(circuit: &mut Circuit, a: Node, b: Node) -> Result<Option<Node>, AllocError> {
    let length = circuit.len();
    if circuit.is_full() || a.place() >= length || b.place() >= length {
        return Ok(None);
    }
    Ok(Some(circuit.and(a, b)?))
}
