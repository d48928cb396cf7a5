// What no clause says: that a call succeeds with ample memory, and what comes of circuits that share and fold.
use crate::gates::{and, constant, input, not, or, value};
use crate::valuations::is_satisfied;
use bool_circuit::{Circuit, Node};
use circuit_cnf::{MOST_SIZE, clauses_of};
use cnf_core::Cnf;
use std::alloc::Global;
use std::process::Abort;

fn clause_form(rt: &impl Abort, alloc: Global, circuit: &Circuit, output: Node) -> Cnf {
    assert!(rt; output.place() < circuit.len());
    assert!(rt; circuit.inputs() as u64 + circuit.len() as u64 <= MOST_SIZE as u64);
    clauses_of(alloc, circuit, output).expect(rt, "memory")
}

// How many valuations with these inputs satisfy the formula.
fn extensions(rt: &impl Abort, formula: &Cnf, inputs: u32, given: u32) -> u32 {
    assert!(rt; inputs < 16);
    assert!(rt; formula.vars() < 16);
    let mut found = 0u32;
    for valuation in 0..1u32 << formula.vars() {
        if valuation % (1u32 << inputs) == given && is_satisfied(rt, formula, valuation) {
            found += 1;
        }
    }
    found
}

// That there are so many at each value of the inputs.
fn have_extensions(rt: &impl Abort, formula: &Cnf, inputs: u32, rows: &[u32]) {
    let mut given = 0u32;
    for expected in rows {
        assert_eq!(rt; extensions(rt, formula, inputs, given), *expected);
        given = given.saturating_add(1);
    }
}

fn three_inputs(rt: &impl Abort, circuit: &mut Circuit) -> [Node; 3] {
    [
        input(rt, circuit, 0),
        input(rt, circuit, 1),
        input(rt, circuit, 2),
    ]
}

// Gates on which the output doesn't rest.
fn add_unused(rt: &impl Abort, circuit: &mut Circuit, inputs: [Node; 3]) {
    let [x, y, z] = inputs;
    let unused = and(rt, circuit, y, z);
    or(rt, circuit, unused, x);
}

// Where the first input holds or the second doesn't, the third does.
fn output_of(rt: &impl Abort, circuit: &mut Circuit, inputs: [Node; 3]) -> Node {
    let [x, y, z] = inputs;
    let no_y = not(rt, circuit, y);
    let either = or(rt, circuit, x, no_y);
    let neither = not(rt, circuit, either);
    let both = and(rt, circuit, either, z);
    or(rt, circuit, both, neither)
}

// That the inputs whose bits these are have one extension where the output is true, and else none.
fn agrees_at(
    rt: &impl Abort,
    alloc: Global,
    circuit: &Circuit,
    output: Node,
    formula: &Cnf,
    given: u32,
) {
    let values = [given % 2 == 1, given / 2 % 2 == 1, given / 4 == 1];
    let expected = value(rt, alloc, circuit, output, &values);
    assert_eq!(rt; extensions(rt, formula, 3, given), u32::from(expected));
}

#[test]
fn each_true_input_has_one_extension(rt: HostRuntime) {
    let mut circuit = Circuit::new(rt.alloc(), 3);
    let inputs = three_inputs(&rt, &mut circuit);
    add_unused(&rt, &mut circuit, inputs);
    let output = output_of(&rt, &mut circuit, inputs);
    let formula = clause_form(&rt, rt.alloc(), &circuit, output);
    // three inputs, and the three gates that the output rests on
    assert_eq!(rt; (formula.vars(), formula.len()), (6, 10));
    for given in 0..8u32 {
        agrees_at(&rt, rt.alloc(), &circuit, output, &formula, given);
    }
}

// That the output's form has so many variables and clauses, and so many extensions at each value of the inputs.
fn has_form(
    rt: &impl Abort,
    alloc: Global,
    circuit: &Circuit,
    output: Node,
    size: (u32, u32),
    rows: &[u32],
) {
    let formula = clause_form(rt, alloc, circuit, output);
    assert_eq!(rt; (formula.vars(), formula.len()), size);
    have_extensions(rt, &formula, circuit.inputs(), rows);
}

#[test]
fn an_input_alone_has_a_form(rt: HostRuntime) {
    let mut circuit = Circuit::new(rt.alloc(), 2);
    let y = input(&rt, &mut circuit, 1);
    let no_y = not(&rt, &mut circuit, y);
    has_form(&rt, rt.alloc(), &circuit, y, (2, 1), &[0, 0, 1, 1]);
    has_form(&rt, rt.alloc(), &circuit, no_y, (2, 1), &[1, 1, 0, 0]);
}

#[test]
fn constants_have_forms(rt: HostRuntime) {
    let mut circuit = Circuit::new(rt.alloc(), 2);
    let y = input(&rt, &mut circuit, 1);
    not(&rt, &mut circuit, y);
    let always = constant(&rt, &mut circuit, true);
    let never = constant(&rt, &mut circuit, false);
    has_form(&rt, rt.alloc(), &circuit, always, (3, 2), &[1, 1, 1, 1]);
    has_form(&rt, rt.alloc(), &circuit, never, (3, 2), &[0, 0, 0, 0]);
}

// The first input's negation, its negation, and the negation of that.
fn negations(rt: &impl Abort, circuit: &mut Circuit, x: Node) -> Node {
    let no_x = not(rt, circuit, x);
    let again = not(rt, circuit, no_x);
    not(rt, circuit, again)
}

#[test]
fn a_gate_whose_operands_are_opposite_in_disguise(rt: HostRuntime) {
    let mut circuit = Circuit::new(rt.alloc(), 1);
    let x = input(&rt, &mut circuit, 0);
    let no_more = negations(&rt, &mut circuit, x);
    let never = and(&rt, &mut circuit, x, no_more);
    // the clause that is true of itself is left out
    has_form(&rt, rt.alloc(), &circuit, never, (2, 3), &[0, 0]);
}
