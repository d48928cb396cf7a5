// What no clause says: that calls succeed with ample memory, and a circuit of many gates.
use crate::gates::{and, constant, input, not, or, value};
use bool_circuit::{Circuit, Node, Shape};
use std::process::Abort;

// An input, its negation, and the two constants.
fn trivial_nodes(rt: &impl Abort, circuit: &mut Circuit) -> [Node; 4] {
    let x = input(rt, circuit, 0);
    let no_x = not(rt, circuit, x);
    let always = constant(rt, circuit, true);
    let never = not(rt, circuit, always);
    [x, no_x, always, never]
}

// That what is true of both of two nodes, and of either, are nodes that are there: the third and the fourth of each row.
fn are_folded(rt: &impl Abort, circuit: &mut Circuit, rows: &[[Node; 4]]) {
    for [a, b, both, either] in rows {
        let found = [and(rt, circuit, *a, *b), or(rt, circuit, *a, *b)];
        assert_eq!(rt; found, [*both, *either]);
    }
}

// That gates of these nodes are nodes that are there.
fn trivial_gates_are_there(rt: &impl Abort, circuit: &mut Circuit, nodes: [Node; 4]) {
    let [x, no_x, always, never] = nodes;
    let rows = [
        [x, always, x, always],
        [always, x, x, always],
        [x, never, never, x],
        [never, x, never, x],
        [always, never, never, always],
        [x, x, x, x],
        [no_x, no_x, no_x, no_x],
        [x, no_x, never, always],
        [no_x, x, never, always],
    ];
    are_folded(rt, circuit, &rows);
    assert_eq!(rt; not(rt, circuit, never), always);
}

#[test]
fn trivial_gates_are_folded(rt: HostRuntime) {
    let mut circuit = Circuit::new(rt.alloc(), 2);
    let nodes = trivial_nodes(&rt, &mut circuit);
    assert_eq!(rt; circuit.len(), 4);
    trivial_gates_are_there(&rt, &mut circuit, nodes);
    assert_eq!(rt; circuit.len(), 4);
}

// Two inputs, what is true of both and of either, and the negation of the first.
fn gates_of(rt: &impl Abort, circuit: &mut Circuit) -> [Node; 5] {
    let x = input(rt, circuit, 0);
    let y = input(rt, circuit, 1);
    let both = and(rt, circuit, x, y);
    let either = or(rt, circuit, x, y);
    let no_x = not(rt, circuit, x);
    [x, y, both, either, no_x]
}

#[test]
fn equal_gates_are_one_node(rt: HostRuntime) {
    let mut circuit = Circuit::new(rt.alloc(), 2);
    assert!(rt; circuit.is_empty());
    let gates = gates_of(&rt, &mut circuit);
    assert_eq!(rt; circuit.len(), 5);
    assert_eq!(rt; gates_of(&rt, &mut circuit), gates);
    assert_eq!(rt; circuit.len(), 5);
}

#[test]
fn a_negation_twice_is_another_node(rt: HostRuntime) {
    let mut circuit = Circuit::new(rt.alloc(), 2);
    let [_, _, _, _, no_x] = gates_of(&rt, &mut circuit);
    let x_again = not(&rt, &mut circuit, no_x);
    assert_eq!(rt; (circuit.len(), x_again.place()), (6, 5));
    assert!(rt; circuit.len() > 5);
    assert_eq!(rt; circuit.at(5), Shape::Not(no_x));
}

#[test]
fn a_truncated_circuit_has_its_first_nodes(rt: HostRuntime) {
    let mut circuit = Circuit::new(rt.alloc(), 2);
    let [x, _, _, _, _] = gates_of(&rt, &mut circuit);
    circuit.truncate(3);
    assert_eq!(rt; circuit.len(), 3);
    assert_eq!(rt; not(&rt, &mut circuit, x).place(), 3);
}

// The first input, 50,000 times: or the second, and the first.
fn long_chain(rt: &impl Abort, circuit: &mut Circuit) -> Node {
    let x = input(rt, circuit, 0);
    let y = input(rt, circuit, 1);
    let mut node = x;
    for _ in 0..50_000 {
        node = or(rt, circuit, node, y);
        node = and(rt, circuit, node, x);
    }
    node
}

#[test]
fn a_long_chain_is_evaluated(rt: HostRuntime) {
    let mut circuit = Circuit::new(rt.alloc(), 2);
    let node = long_chain(&rt, &mut circuit);
    assert_eq!(rt; circuit.len(), 100_002);
    assert!(rt; value(&rt, rt.alloc(), &circuit, node, &[true, false]));
    assert!(rt; !value(&rt, rt.alloc(), &circuit, node, &[false, true]));
    assert!(rt; value(&rt, rt.alloc(), &circuit, node, &[true, true]));
}
