// Gates of a circuit that has room for them, and their values.
use bool_circuit::{Circuit, Node};
use std::alloc::Global;
use std::process::Abort;

pub fn and(rt: &impl Abort, circuit: &mut Circuit, a: Node, b: Node) -> Node {
    assert!(rt; !circuit.is_full());
    assert!(rt; a.place() < circuit.len() && b.place() < circuit.len());
    circuit.and(a, b).expect(rt, "memory")
}

pub fn or(rt: &impl Abort, circuit: &mut Circuit, a: Node, b: Node) -> Node {
    assert!(rt; !circuit.is_full());
    assert!(rt; a.place() < circuit.len() && b.place() < circuit.len());
    circuit.or(a, b).expect(rt, "memory")
}

pub fn not(rt: &impl Abort, circuit: &mut Circuit, a: Node) -> Node {
    assert!(rt; !circuit.is_full() && a.place() < circuit.len());
    circuit.not(a).expect(rt, "memory")
}

pub fn input(rt: &impl Abort, circuit: &mut Circuit, i: u32) -> Node {
    assert!(rt; !circuit.is_full() && i < circuit.inputs());
    circuit.input(i).expect(rt, "memory")
}

pub fn constant(rt: &impl Abort, circuit: &mut Circuit, b: bool) -> Node {
    assert!(rt; !circuit.is_full());
    circuit.constant(b).expect(rt, "memory")
}

/// The value of a node at these inputs.
pub fn value(
    rt: &impl Abort,
    alloc: Global,
    circuit: &Circuit,
    node: Node,
    inputs: &[bool],
) -> bool {
    assert!(rt; node.place() < circuit.len());
    assert!(rt; inputs.len() == circuit.inputs() as usize);
    circuit.eval(alloc, node, inputs).expect(rt, "memory")
}
