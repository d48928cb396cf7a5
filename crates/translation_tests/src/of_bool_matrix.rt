// What no clause says: that calls succeed with ample memory; and that the tuples of the results are those that the
// operators on sets give, at every value of the inputs.
ghost use Rattle.std.specs.Prelude.{◌+◌, ◌*◌, ◌<◌, ◌≤◌, length, IsTrue};
ghost use Rattle.bool_circuit.specs.Network.{size};
ghost use Rattle.bool_matrix.specs.Cells.{IsOf, ThereIn};
ghost use Rattle.bool_matrix.specs.Work.{combine_work, MayTurn};
ghost use Rattle.tuple_core.specs.declared.operator.Operator.{Operator as AnyOperator};
ghost use Rattle.tuple_core.specs.declared.operator.UnaryOperator.{UnaryOperator as AnyUnaryOperator};
ghost use Rattle.tuple_core.specs.Operators.{Fit};

use crate::gates::{input, value};
use bool_circuit::{Circuit, MOST_NODES, Node};
use bool_matrix::Matrix;
use std::alloc::Global;
use std::process::Abort;
use tuple_core::{Atom, Operator, Tuple, TupleSet, UnaryOperator};

// The tuple of the first `arity` of these places.
fn tuple(arity: u8, places: [u16; 3]) -> Tuple {
    let [x, y, z] = places;
    match arity {
        1 => Tuple::single(at(x)),
        2 => Tuple::of(&[at(x), at(y)]),
        _ => Tuple::of(&[at(x), at(y), at(z)]),
    }
}

// The atom at this place of the first signature.
fn at(place: u16) -> Atom {
    Atom { top: 0, place }
}

// Whether this is a matrix of at most 1,000 tuples, of nodes of a circuit of less than a million.
fn is_small(circuit: &Circuit, matrix: &Matrix) -> bool
    ensures of { IsTrue result → IsOf circuit.now matrix.now }
    ensures few { IsTrue result → length matrix.now.entries < 1000 }
    ensures nodes { IsTrue result → size circuit.now < 1000010 }
{
    matrix.is_of(circuit) && circuit.len() < 1_000_000 && matrix.entries().len() < 1000
}

// Whether these are two of them.
fn are_small(circuit: &Circuit, left: &Matrix, right: &Matrix) -> bool
    ensures left { IsTrue result → IsOf circuit.now left.now }
    ensures right { IsTrue result → IsOf circuit.now right.now }
    ensures sum { IsTrue result → size circuit.now + 16 * (length left.now.entries + 2 * length right.now.entries) < MOST_NODES }
    ensures work { IsTrue result → (o : AnyOperator) → size circuit.now + 16 * combine_work o left.now right.now < MOST_NODES }
{
    is_small(circuit, left) && is_small(circuit, right)
}

// Whether this is one of them, and the number is small too.
fn may_count(circuit: &Circuit, matrix: &Matrix, n: u32) -> bool
    ensures of { IsTrue result → IsOf circuit.now matrix.now }
    ensures room { IsTrue result → size circuit.now + 16 * (length matrix.now.entries * (n + 1)) < MOST_NODES }
{
    is_small(circuit, matrix) && n < 1000
}

// Whether this is one of them, and has at most 8 pairs.
fn may_close(circuit: &Circuit, pairs: &Matrix) -> bool
    ensures of { IsTrue result → IsOf circuit.now pairs.now }
    ensures may { IsTrue result → (o : AnyUnaryOperator) → MayTurn o (size circuit.now) MOST_NODES (ThereIn pairs.now) }
{
    if pairs.entries().len() > 8 {
        return false;
    }
    is_small(circuit, pairs)
}

// Adds the tuple of the first of these places, with the node of this input.
fn put(rt: &impl Abort, circuit: &mut Circuit, out: &mut Matrix, places: [u16; 3], number: u32) {
    let node = input(rt, circuit, number);
    let tuple = tuple(out.arity(), places);
    assert!(rt; tuple.atoms().len() == out.arity() as usize && !out.has(&tuple));
    out.put(tuple, node).expect(rt, "memory");
}

// A matrix of these tuples, whose nodes are inputs from `first` on.
fn matrix(
    rt: &impl Abort,
    alloc: Global,
    circuit: &mut Circuit,
    arity: u8,
    rows: &[[u16; 3]],
    first: u32,
) -> Matrix {
    assert!(rt; 1 <= arity && arity <= 3 && first < 1000);
    let mut out = Matrix::new(alloc, arity);
    let mut number = first;
    for row in rows {
        put(rt, circuit, &mut out, *row, number);
        number = number.saturating_add(1);
    }
    out
}

// Adds a tuple.
fn insert(rt: &impl Abort, out: &mut TupleSet, tuple: &Tuple) {
    assert!(rt; tuple.atoms().len() == out.arity() as usize);
    out.insert(tuple.copy()).expect(rt, "memory");
}

// The tuples whose nodes are true at these inputs.
fn true_tuples(
    rt: &impl Abort,
    alloc: Global,
    circuit: &Circuit,
    matrix: &Matrix,
    inputs: &[bool],
) -> TupleSet {
    let mut out = TupleSet::new(alloc, matrix.arity());
    for entry in matrix.entries() {
        if value(rt, alloc, circuit, entry.node, inputs) {
            insert(rt, &mut out, &entry.tuple);
        }
    }
    out
}

// Whether matrices and sets of these arities are operands of the operator.
fn fit(operator: Operator, m: u8, n: u8) -> bool
    requires left { m ≤ 3 }
    requires right { n ≤ 3 }
    ensures { IsTrue result → Fit operator m n }
{
    match operator {
        Operator::Union => m == n,
        Operator::Minus => m == n,
        Operator::Meet => m == n,
        Operator::Product => m + n <= 3,
        Operator::Join => 3 <= m + n && m + n <= 5,
        Operator::Override => m == 2 && n == 2,
        Operator::Dom => m == 1,
        Operator::Ran => n == 1,
    }
}

// What the operator makes of two matrices.
fn of_matrices(
    rt: &impl Abort,
    alloc: Global,
    circuit: &mut Circuit,
    operator: Operator,
    a: &Matrix,
    b: &Matrix,
) -> Matrix {
    assert!(rt; fit(operator, a.arity(), b.arity()));
    assert!(rt; are_small(circuit, a, b));
    a.combine(alloc, circuit, operator, b).expect(rt, "memory")
}

// What the operator makes of two sets.
fn of_sets(
    rt: &impl Abort,
    alloc: Global,
    operator: Operator,
    a: &TupleSet,
    b: &TupleSet,
) -> TupleSet {
    assert!(rt; fit(operator, a.arity(), b.arity()));
    a.combine(alloc, operator, b).expect(rt, "memory")
}

// The inputs that the bits of a number say.
fn inputs_of(rt: &impl Abort, alloc: Global, bits: u32, count: u32) -> Vec<bool> {
    let mut inputs = Vec::new(alloc);
    let mut rest = bits;
    for _ in 0..count {
        inputs.push(rest % 2 == 1).expect(rt, "memory");
        rest /= 2;
    }
    inputs
}

// A number of rows that is at most 8.
fn small(rt: &impl Abort, count: usize) -> u32 {
    assert!(rt; count <= 8);
    count as u32
}

// How many values so many inputs have.
fn values_of(rt: &impl Abort, inputs: u32) -> u32 {
    assert!(rt; inputs <= 8);
    1u32 << inputs
}

// The matrices of these tuples, of so many places each; every tuple has an input of its own.
fn operands(
    rt: &impl Abort,
    alloc: Global,
    circuit: &mut Circuit,
    (m, lefts): (u8, &[[u16; 3]]),
    (n, rights): (u8, &[[u16; 3]]),
) -> (Matrix, Matrix) {
    let left = matrix(rt, alloc, circuit, m, lefts, 0);
    let right = matrix(rt, alloc, circuit, n, rights, small(rt, lefts.len()));
    (left, right)
}

// That the operator makes of the two matrices what it makes of sets, at every value of the inputs.
fn agrees(
    rt: &impl Abort,
    alloc: Global,
    operator: Operator,
    left: (u8, &[[u16; 3]]),
    right: (u8, &[[u16; 3]]),
) {
    let inputs = small(rt, left.1.len()).saturating_add(small(rt, right.1.len()));
    let mut circuit = Circuit::new(alloc, inputs);
    let (a, b) = operands(rt, alloc, &mut circuit, left, right);
    let made = of_matrices(rt, alloc, &mut circuit, operator, &a, &b);
    for bits in 0..values_of(rt, inputs) {
        agrees_at(rt, alloc, &circuit, operator, [&a, &b, &made], bits);
    }
}

// That the result's true tuples are what the operator makes of the operands', at the inputs of these bits.
fn agrees_at(
    rt: &impl Abort,
    alloc: Global,
    circuit: &Circuit,
    operator: Operator,
    [a, b, made]: [&Matrix; 3],
    bits: u32,
) {
    let inputs = inputs_of(rt, alloc, bits, circuit.inputs());
    let left = true_tuples(rt, alloc, circuit, a, &inputs);
    let right = true_tuples(rt, alloc, circuit, b, &inputs);
    let expected = of_sets(rt, alloc, operator, &left, &right);
    let found = true_tuples(rt, alloc, circuit, made, &inputs);
    assert!(rt; found == expected);
}

fn turned(
    rt: &impl Abort,
    alloc: Global,
    circuit: &mut Circuit,
    operator: UnaryOperator,
    a: &Matrix,
) -> Matrix {
    assert!(rt; a.arity() == 2 && may_close(circuit, a));
    a.turn(alloc, circuit, operator).expect(rt, "memory")
}

// That the closure and the transposition of pairs are those of sets, at every value of the inputs.
fn closure_agrees(rt: &impl Abort, alloc: Global, rows: &[[u16; 3]]) {
    let inputs = small(rt, rows.len());
    let mut circuit = Circuit::new(alloc, inputs);
    let a = matrix(rt, alloc, &mut circuit, 2, rows, 0);
    let closed = turned(rt, alloc, &mut circuit, UnaryOperator::Closure, &a);
    let around = turned(rt, alloc, &mut circuit, UnaryOperator::Transpose, &a);
    for bits in 0..values_of(rt, inputs) {
        closure_agrees_at(rt, alloc, &circuit, [&a, &closed, &around], bits);
    }
}

// The closure and the transposition of a set of pairs.
fn closure_and_transposition(
    rt: &impl Abort,
    alloc: Global,
    set: &TupleSet,
) -> (TupleSet, TupleSet) {
    assert!(rt; set.arity() == 2);
    let closed = set.turn(alloc, UnaryOperator::Closure).expect(rt, "memory");
    let around = set
        .turn(alloc, UnaryOperator::Transpose)
        .expect(rt, "memory");
    (closed, around)
}

// That they are those of sets at the inputs of these bits.
fn closure_agrees_at(
    rt: &impl Abort,
    alloc: Global,
    circuit: &Circuit,
    [a, closed, around]: [&Matrix; 3],
    bits: u32,
) {
    let inputs = inputs_of(rt, alloc, bits, circuit.inputs());
    let set = true_tuples(rt, alloc, circuit, a, &inputs);
    let (closure, transposition) = closure_and_transposition(rt, alloc, &set);
    assert!(rt; true_tuples(rt, alloc, circuit, closed, &inputs) == closure);
    assert!(rt; true_tuples(rt, alloc, circuit, around, &inputs) == transposition);
}

// The node that says whether the first matrix is a part of the second.
fn subset(rt: &impl Abort, circuit: &mut Circuit, a: &Matrix, b: &Matrix) -> Node {
    assert!(rt; a.arity() == b.arity() && are_small(circuit, a, b));
    a.subset(circuit, b).expect(rt, "memory")
}

// The node that says whether they are equal.
fn equality(rt: &impl Abort, circuit: &mut Circuit, a: &Matrix, b: &Matrix) -> Node {
    assert!(rt; a.arity() == b.arity() && are_small(circuit, a, b));
    a.equal(circuit, b).expect(rt, "memory")
}

// That the nodes for subset and equality have the truth of these facts of sets, at every value of the inputs.
fn comparison_agrees(rt: &impl Abort, alloc: Global, lefts: &[[u16; 3]], rights: &[[u16; 3]]) {
    let inputs = small(rt, lefts.len()).saturating_add(small(rt, rights.len()));
    let mut circuit = Circuit::new(alloc, inputs);
    let (a, b) = operands(rt, alloc, &mut circuit, (2, lefts), (2, rights));
    let within = subset(rt, &mut circuit, &a, &b);
    let equal = equality(rt, &mut circuit, &a, &b);
    for bits in 0..values_of(rt, inputs) {
        comparison_agrees_at(rt, alloc, &circuit, [&a, &b], [within, equal], bits);
    }
}

// That they have it at the inputs of these bits.
fn comparison_agrees_at(
    rt: &impl Abort,
    alloc: Global,
    circuit: &Circuit,
    [a, b]: [&Matrix; 2],
    [within, equal]: [Node; 2],
    bits: u32,
) {
    let inputs = inputs_of(rt, alloc, bits, circuit.inputs());
    let left = true_tuples(rt, alloc, circuit, a, &inputs);
    let right = true_tuples(rt, alloc, circuit, b, &inputs);
    assert!(rt; value(rt, alloc, circuit, within, &inputs) == left.is_subset(&right));
    assert!(rt; value(rt, alloc, circuit, equal, &inputs) == (left == right));
}

// That the counter has the truth of the count, for numbers up to one above the length.
fn count_agrees(rt: &impl Abort, alloc: Global, rows: &[[u16; 3]]) {
    for n in 0..small(rt, rows.len()).saturating_add(2) {
        count_agrees_for(rt, alloc, rows, n);
    }
}

// The node that says whether there are at least so many tuples.
fn at_least(rt: &impl Abort, alloc: Global, circuit: &mut Circuit, a: &Matrix, n: u32) -> Node {
    assert!(rt; may_count(circuit, a, n));
    a.at_least(alloc, circuit, n).expect(rt, "memory")
}

// That it has for this number, at every value of the inputs.
fn count_agrees_for(rt: &impl Abort, alloc: Global, rows: &[[u16; 3]], n: u32) {
    let inputs = small(rt, rows.len());
    let mut circuit = Circuit::new(alloc, inputs);
    let a = matrix(rt, alloc, &mut circuit, 3, rows, 0);
    let node = at_least(rt, alloc, &mut circuit, &a, n);
    for bits in 0..values_of(rt, inputs) {
        let is_true = count_at(rt, alloc, &circuit, &a, bits) >= n as usize;
        let inputs = inputs_of(rt, alloc, bits, inputs);
        assert!(rt; value(rt, alloc, &circuit, node, &inputs) == is_true);
    }
}

// How many tuples are true at the inputs of these bits.
fn count_at(rt: &impl Abort, alloc: Global, circuit: &Circuit, a: &Matrix, bits: u32) -> usize {
    let inputs = inputs_of(rt, alloc, bits, circuit.inputs());
    true_tuples(rt, alloc, circuit, a, &inputs).len()
}

// Places for tuples of any arity.
const A: [[u16; 3]; 3] = [[2, 0, 1], [0, 1, 2], [1, 2, 0]];

const B: [[u16; 3]; 3] = [[1, 0, 0], [0, 1, 2], [3, 3, 3]];

const C: [[u16; 3]; 4] = [[1, 2, 2], [1, 0, 3], [0, 1, 1], [2, 1, 0]];

const CYCLE: [[u16; 3]; 6] = [
    [0, 1, 0],
    [1, 2, 0],
    [2, 3, 0],
    [3, 4, 0],
    [4, 0, 0],
    [2, 2, 0],
];

const PATH: [[u16; 3]; 4] = [[3, 2, 0], [2, 1, 0], [1, 0, 0], [0, 4, 0]];

const ONE: [[u16; 3]; 1] = [[1, 1, 1]];

const NONE: [[u16; 3]; 0] = [];

// That it is so for an operator on tuples of one length, of each length.
fn agrees_at_each_arity(rt: &impl Abort, alloc: Global, operator: Operator) {
    for arity in 1..4u8 {
        agrees(rt, alloc, operator, (arity, &A), (arity, &B));
        agrees(rt, alloc, operator, (arity, &NONE), (arity, &A));
        agrees(rt, alloc, operator, (arity, &A), (arity, &NONE));
    }
}

#[test]
fn union_minus_and_meet_are_those_of_sets(rt: HostRuntime) {
    agrees_at_each_arity(&rt, rt.alloc(), Operator::Union);
    agrees_at_each_arity(&rt, rt.alloc(), Operator::Minus);
    agrees_at_each_arity(&rt, rt.alloc(), Operator::Meet);
}

fn products_agree(rt: &impl Abort, alloc: Global, arities: &[(u8, u8)]) {
    for (m, n) in arities {
        agrees(rt, alloc, Operator::Product, (*m, &A), (*n, &B));
        agrees(rt, alloc, Operator::Product, (*m, &NONE), (*n, &B));
    }
}

#[test]
fn products_are_those_of_sets(rt: HostRuntime) {
    products_agree(&rt, rt.alloc(), &[(1, 1), (1, 2), (2, 1)]);
}

fn joins_agree(rt: &impl Abort, alloc: Global, arities: &[(u8, u8)]) {
    for (m, n) in arities {
        agrees(rt, alloc, Operator::Join, (*m, &A), (*n, &B));
        agrees(rt, alloc, Operator::Join, (*m, &B), (*n, &A));
        agrees(rt, alloc, Operator::Join, (*m, &A), (*n, &NONE));
    }
}

#[test]
fn joins_are_those_of_sets(rt: HostRuntime) {
    joins_agree(
        &rt,
        rt.alloc(),
        &[(1, 2), (2, 1), (1, 3), (3, 1), (2, 2), (2, 3), (3, 2)],
    );
    agrees(&rt, rt.alloc(), Operator::Join, (2, &C), (2, &C));
}

#[test]
fn overrides_are_those_of_sets(rt: HostRuntime) {
    agrees(&rt, rt.alloc(), Operator::Override, (2, &A), (2, &B));
    agrees(&rt, rt.alloc(), Operator::Override, (2, &C), (2, &A));
    agrees(&rt, rt.alloc(), Operator::Override, (2, &C), (2, &NONE));
    agrees(&rt, rt.alloc(), Operator::Override, (2, &NONE), (2, &C));
}

#[test]
fn restrictions_are_those_of_sets(rt: HostRuntime) {
    for arity in 1..4u8 {
        agrees(&rt, rt.alloc(), Operator::Dom, (1, &B), (arity, &A));
        agrees(&rt, rt.alloc(), Operator::Ran, (arity, &B), (1, &A));
        agrees(&rt, rt.alloc(), Operator::Ran, (arity, &A), (1, &ONE));
    }
}

#[test]
fn closure_and_transposition_are_those_of_sets(rt: HostRuntime) {
    closure_agrees(&rt, rt.alloc(), &CYCLE);
    closure_agrees(&rt, rt.alloc(), &PATH);
    closure_agrees(&rt, rt.alloc(), &ONE);
    closure_agrees(&rt, rt.alloc(), &NONE);
}

#[test]
fn subset_and_equality_are_those_of_sets(rt: HostRuntime) {
    comparison_agrees(&rt, rt.alloc(), &A, &B);
    comparison_agrees(&rt, rt.alloc(), &B, &A);
    comparison_agrees(&rt, rt.alloc(), &NONE, &B);
    comparison_agrees(&rt, rt.alloc(), &A, &NONE);
    comparison_agrees(&rt, rt.alloc(), &ONE, &ONE);
}

#[test]
fn counts_are_those_of_sets(rt: HostRuntime) {
    count_agrees(&rt, rt.alloc(), &C);
    count_agrees(&rt, rt.alloc(), &ONE);
    count_agrees(&rt, rt.alloc(), &NONE);
}

// The node for a tuple of the first three pairs, or of none.
fn cell(rt: &impl Abort, circuit: &mut Circuit, a: &Matrix, places: [u16; 3]) -> Node {
    assert!(rt; a.is_of(circuit) && !circuit.is_full());
    a.cell(circuit, &tuple(2, places)).expect(rt, "memory")
}

#[test]
fn a_tuple_that_is_not_there_is_false(rt: HostRuntime) {
    let mut circuit = Circuit::new(rt.alloc(), 3);
    let a = matrix(&rt, rt.alloc(), &mut circuit, 2, &A, 0);
    let there = cell(&rt, &mut circuit, &a, A[0]);
    let absent = cell(&rt, &mut circuit, &a, [2, 2, 0]);
    assert!(rt; value(&rt, rt.alloc(), &circuit, there, &[true, false, false]));
    assert!(rt; !value(&rt, rt.alloc(), &circuit, absent, &[true, true, true]));
}

fn has_node(a: &Matrix, places: [u16; 3]) -> bool {
    a.node(&tuple(2, places)).is_some()
}

#[test]
fn tuples_that_are_there_have_nodes(rt: HostRuntime) {
    let mut circuit = Circuit::new(rt.alloc(), 3);
    let a = matrix(&rt, rt.alloc(), &mut circuit, 2, &A, 0);
    assert!(rt; has_node(&a, A[1]));
    assert!(rt; !has_node(&a, [2, 2, 0]));
    let copy = a.copy(rt.alloc()).expect(&rt, "memory");
    assert_eq!(rt; copy.entries().len(), 3);
}

// A matrix of 900 atoms from this place on, all with the first input's node.
fn atoms_from(rt: &impl Abort, alloc: Global, circuit: &mut Circuit, first: u16) -> Matrix {
    let mut out = Matrix::new(alloc, 1);
    for place in 0..900u16 {
        put(
            rt,
            circuit,
            &mut out,
            [place.saturating_add(first), 0, 0],
            0,
        );
    }
    out
}

#[test]
fn a_union_in_the_other_order_is_quick(rt: HostRuntime) {
    let mut circuit = Circuit::new(rt.alloc(), 1);
    let low = atoms_from(&rt, rt.alloc(), &mut circuit, 0);
    let high = atoms_from(&rt, rt.alloc(), &mut circuit, 1000);
    let all = of_matrices(&rt, rt.alloc(), &mut circuit, Operator::Union, &high, &low);
    assert_eq!(rt; all.entries().len(), 1800);
    assert_eq!(rt; circuit.len(), 1);
}
