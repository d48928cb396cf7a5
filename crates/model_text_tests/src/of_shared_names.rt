// Fields that share a name and have different arities, so that another choice would be told.
use crate::reading::tells;
use std::test::Fail;

#[test]
fn behind_a_join(rt: HostRuntime) -> Result<(), Fail> {
    tells(
        &rt,
        rt.alloc(),
        &[
            (
                "sig A { f: set B } sig B { f: A -> A } fact { A.f in B B.f in A -> A }",
                "model",
            ),
            (
                "sig A { f: set B } sig B { f: A -> A } fact { A.f in A -> A }",
                "1:51 arity",
            ),
            (
                "sig A { f: set B } sig B { f: A -> A } fact { B.f in B }",
                "1:51 arity",
            ),
            (
                "sig A { f: set B } sig B { f: A -> A } fact { A.f.f in A -> A B.f[A] in A (A -> B).f in A -> A -> A }",
                "model",
            ),
            (
                "sig A { f: set B } sig B { f: A -> A } fact { univ.f in B }",
                "1:52 ambiguous",
            ),
        ],
    )
}

#[test]
fn before_brackets(rt: HostRuntime) -> Result<(), Fail> {
    tells(
        &rt,
        rt.alloc(),
        &[
            (
                "sig A { f: set B } sig B { f: A -> A } fact { f[A] in B f[B] in A -> A f[B, A] in A }",
                "model",
            ),
            (
                "sig A { f: set B } sig B { f: A -> A } fact { f[A] in A -> A }",
                "1:52 arity",
            ),
            (
                "sig A { f: set B } sig B { f: A -> A } fact { f[A].f in A -> A f[f[A]] in A -> A }",
                "model",
            ),
            (
                "sig A { f: set B } sig B { f: A -> A } fact { some f[] }",
                "1:52 ambiguous",
            ),
        ],
    )
}

#[test]
fn behind_a_domain(rt: HostRuntime) -> Result<(), Fail> {
    tells(
        &rt,
        rt.alloc(),
        &[
            (
                "sig A { f: set B } sig B { f: A -> A } fact { A <: f in A -> B B <: f in B -> A -> A }",
                "model",
            ),
            (
                "sig A { f: set B } sig B { f: A -> A } fact { A <: f in B -> A -> A }",
                "1:54 arity",
            ),
            (
                "sig A { f: set B } sig B { f: A -> A } fact { B.~(A <: f) in A }",
                "model",
            ),
            (
                "sig A { f: set B } sig B { f: A -> A } fact { some (A + B) <: f }",
                "1:63 ambiguous",
            ),
        ],
    )
}

#[test]
fn in_brackets(rt: HostRuntime) -> Result<(), Fail> {
    tells(
        &rt,
        rt.alloc(),
        &[
            (
                "sig A { f: set B } sig B { f: A -> A } fact { A.(f) in B B.((f)) in A -> A }",
                "model",
            ),
            (
                "sig A { f: set B } sig B { f: A -> A } fact { (f)[B] in A -> A ((f))[A] in B }",
                "model",
            ),
            (
                "sig A { f: set B } sig B { f: A -> A } fact { B <: ((f)) in B -> A -> A }",
                "model",
            ),
            (
                "sig A { f: set B } sig B { f: A -> A } fact { (f)[B] in B }",
                "1:54 arity",
            ),
        ],
    )
}

#[test]
fn by_the_type_of_a_variable(rt: HostRuntime) -> Result<(), Fail> {
    tells(
        &rt,
        rt.alloc(),
        &[
            (
                "sig A { f: set B } sig B { f: A -> A } fact { all x: A | x.f in B all x: B | x.f in A -> A }",
                "model",
            ),
            (
                "sig A { f: set B } sig B { f: A -> A } fact { all x: A, y: x.f | y.f in A -> A }",
                "model",
            ),
            (
                "sig A { f: set B } sig B { f: A -> A } fact { let x = B, y = x.f | y in A -> A }",
                "model",
            ),
            (
                "sig A { f: set B } sig B { f: A -> A } fact { let x = A | all x: B | x.f in A -> A }",
                "model",
            ),
            (
                "sig A { f: set B } sig B { f: A -> A } fact { all x: A + B | some x.f }",
                "1:69 ambiguous",
            ),
        ],
    )
}

#[test]
fn by_the_type_of_a_parameter(rt: HostRuntime) -> Result<(), Fail> {
    tells(
        &rt,
        rt.alloc(),
        &[
            (
                "sig A { f: set B } sig B { f: A -> A } pred p [x: B] { x.f in A -> A } fact { p[B] }",
                "model",
            ),
            (
                "sig A { f: set B } sig B { f: A -> A } pred p [x: A] { x.f in A -> A }",
                "1:60 arity",
            ),
            (
                "sig A { f: set B } sig B { f: A -> A } fun g [x: A]: B { x.f } fact { g[A].f in A -> A }",
                "model",
            ),
            (
                "sig A { f: set B } sig B { f: A -> A } pred p [x: A, y: x.f] { y.f in A -> A } run p",
                "model",
            ),
        ],
    )
}

#[test]
fn by_the_type_of_a_call(rt: HostRuntime) -> Result<(), Fail> {
    tells(
        &rt,
        rt.alloc(),
        &[
            (
                "sig A { f: set B } sig B { f: A -> A } fun g [x: univ]: univ { x } fact { g[A].f in B g[B].f in A -> A }",
                "model",
            ),
            (
                "sig A { f: set B } sig B { f: A -> A } fact { g.f in A -> A } fun g: univ { B }",
                "model",
            ),
            (
                "sig A { f: set B } sig B { f: A -> A } fact { h[A].f in B } fun h [x: univ]: univ { g[x] } fun g [y: univ]: univ { y }",
                "model",
            ),
            (
                "sig A { f: set B } sig B { f: A -> A } fun g [x: univ]: univ { x } fact { some g[A + B].f }",
                "1:89 ambiguous",
            ),
        ],
    )
}

#[test]
fn by_the_top_level_signature(rt: HostRuntime) -> Result<(), Fail> {
    tells(
        &rt,
        rt.alloc(),
        &[
            (
                "sig A { f: set B } sig B { f: A -> A } sig C extends A {} sig D in B {} fact { C.f in B D.f in A -> A }",
                "model",
            ),
            (
                "sig A { f: set B } sig B { f: A -> A } sig C {} fact { some C.f }",
                "1:63 ambiguous",
            ),
            ("sig A, B { f: set A } fact { A.f in A B.f in A }", "model"),
            ("sig A, B { f: set A } fact { some f }", "1:35 ambiguous"),
        ],
    )
}

#[test]
fn by_the_type_of_an_operator(rt: HostRuntime) -> Result<(), Fail> {
    tells(
        &rt,
        rt.alloc(),
        &[
            (
                "sig A { f: set B } sig B { f: A -> A } fact { ((A + B) & B).f in A -> A (A & univ).f in B }",
                "model",
            ),
            (
                "sig A { f: set B } sig B { f: A -> A } fact { some ((A + B) - B).f }",
                "1:66 ambiguous",
            ),
            (
                "sig A { f: set B, g: set A } sig B { f: A -> A } fact { A.^g.f in B }",
                "model",
            ),
            (
                "sig A { f: set B, g: set B } sig B { f: A -> A } fact { A.(g ++ g).f in A -> A }",
                "model",
            ),
            (
                "sig A { f: set B, g: set B } sig B { f: A -> A } fact { A.*g.f in B }",
                "1:62 ambiguous",
            ),
        ],
    )
}
