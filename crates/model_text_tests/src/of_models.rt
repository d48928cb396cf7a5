// Models without a fault, and beside some of them what would be told if a name stood for something else.
use crate::reading::tells;
use std::test::Fail;

#[test]
fn variables_hide_what_is_declared(rt: HostRuntime) -> Result<(), Fail> {
    tells(
        &rt,
        rt.alloc(),
        &[
            ("sig A { f: set A } fact { all f: A | f in A }", "model"),
            (
                "sig A { f: set A } fact { all x: A | f in A }",
                "1:40 arity",
            ),
            (
                "sig A {} pred p [x: A] { some x } fact { all p: A | some p }",
                "model",
            ),
            (
                "sig A { f: set A } pred p [f: A] { f in A } run p for 2",
                "model",
            ),
            (
                "sig A { f: set A } fun g [f: A]: A { f } fact { g[A] in A }",
                "model",
            ),
            ("sig A { f: set A } fact { let f = A | f in A }", "model"),
        ],
    )
}

#[test]
fn variables_hide_outer_variables(rt: HostRuntime) -> Result<(), Fail> {
    tells(
        &rt,
        rt.alloc(),
        &[
            (
                "sig A { f: set A } fact { let x = f | all x: A | x in A }",
                "model",
            ),
            (
                "sig A { f: set A } fact { let x = f | all y: A | x in A }",
                "1:52 arity",
            ),
            (
                "sig A { f: set A } fact { all x: A | let x = f | x in f }",
                "model",
            ),
            (
                "sig A { f: set A } fact { let x = f, x = A | x in A }",
                "model",
            ),
            (
                "sig A { f: set A } fact { let x = f { all x: A | x in A x in f } }",
                "model",
            ),
        ],
    )
}

#[test]
fn domains_see_earlier_variables(rt: HostRuntime) -> Result<(), Fail> {
    tells(
        &rt,
        rt.alloc(),
        &[
            (
                "sig A { f: set A } fact { all x: A, y: x.f | y in A }",
                "model",
            ),
            (
                "sig A { f: set A } fact { all f: A, y: f | y in A }",
                "model",
            ),
            (
                "sig A { f: set A } fact { all y: f, f: A | y in A }",
                "1:34 not_unary",
            ),
            (
                "sig A { f: set A } fact { let x = A, y = x.f | y in A }",
                "model",
            ),
            (
                "sig A { f: set A } pred p [x: A, y: x.f] { y in A } run p",
                "model",
            ),
            (
                "sig A { f: set A } fun g [x: A, y: x.f]: x.f { y } run {}",
                "model",
            ),
        ],
    )
}

#[test]
fn functions_with_and_without_parameters(rt: HostRuntime) -> Result<(), Fail> {
    tells(
        &rt,
        rt.alloc(),
        &[
            (
                "sig A { f: set A } fun g: A -> A { f } fact { g = f g[] = f }",
                "model",
            ),
            (
                "sig A { f: set A } fun g: A -> A { f } fact { g[A] in A g[][A] in A }",
                "model",
            ),
            (
                "sig A { f: set A } fun g: A -> A { f } fact { g[A] in f }",
                "1:52 arity",
            ),
            (
                "sig A { f: set A } fun g [x: A]: A -> A { x.f -> x } fact { g[A] in f }",
                "model",
            ),
            (
                "sig A { f: set A } fun g [x: A]: A -> A { x.f -> x } fact { g[A][A] in A }",
                "model",
            ),
            (
                "sig A { f: set A } fun g [x: A]: A -> A { x.f -> x } fact { g[A][A] in f }",
                "1:69 arity",
            ),
            (
                "sig A {} fun g (x, y: A): set A { x + y } fact { g[A, A] in A }",
                "model",
            ),
        ],
    )
}

#[test]
fn signatures_and_fields(rt: HostRuntime) -> Result<(), Fail> {
    tells(
        &rt,
        rt.alloc(),
        &[
            (
                "abstract sig A {} one sig B extends A {} lone sig C in B {} some sig D {}",
                "model",
            ),
            (
                "sig A { f: A, g: set A, h: lone A, i: some A, j: one A }",
                "model",
            ),
            (
                "sig A { f: A -> A, g: A one -> lone A, h: (A + A) -> A }",
                "model",
            ),
            ("sig A, B { f, g: A }", "model"),
        ],
    )
}

#[test]
fn words_and_brackets_of_paragraphs(rt: HostRuntime) -> Result<(), Fail> {
    tells(
        &rt,
        rt.alloc(),
        &[
            ("sig B {} lone abstract sig A in B {}", "model"),
            ("abstract some sig A {}", "model"),
            ("pred p {} pred q [] {} pred r () {}", "model"),
            (
                "fun f: univ { univ } fun g (): univ { univ } fun h []: univ { univ }",
                "model",
            ),
            ("pred p [] {} run p for 0 expect 0", "model"),
            ("run {} for 3 A, exactly 4 B sig A {} sig B {}", "model"),
        ],
    )
}

#[test]
fn expressions(rt: HostRuntime) -> Result<(), Fail> {
    tells(
        &rt,
        rt.alloc(),
        &[
            (
                "sig A { f: A, g: A } fact { f ++ g in ^f + *g - ~f & A <: f :> A }",
                "model",
            ),
            (
                "sig A {} fact { none in A no none & univ iden in univ -> univ }",
                "model",
            ),
            (
                "sig A { f: A -> A } fact { A.f.A in A f[A, A] in A A.f[A] in A }",
                "model",
            ),
            (
                "sig A {} fact { #A = 1 #A != 2 #A < 3 #A <= 4 #A >= 5 #A =< 6 #A > 7 }",
                "model",
            ),
        ],
    )
}

#[test]
fn formulas(rt: HostRuntime) -> Result<(), Fail> {
    tells(
        &rt,
        rt.alloc(),
        &[
            (
                "sig A {} fact { some A && no A || one A => lone A else some A <=> no A }",
                "model",
            ),
            (
                "sig A { f: A } fact { all disj x, y: A | x.f != y.f }",
                "model",
            ),
            (
                "sig A { f: A } fact { some x: A | one x.f no x: A | x in x.f }",
                "model",
            ),
            (
                "sig A { f: A } fact { lone x: A | x.f = x one x: A { x in A !(x !in A) } }",
                "model",
            ),
            ("sig A {} fact { {} { some A } }", "model"),
        ],
    )
}

#[test]
fn commands(rt: HostRuntime) -> Result<(), Fail> {
    tells(
        &rt,
        rt.alloc(),
        &[
            (
                "module m sig A {} run l { some A } for 3 but exactly 2 A expect 1",
                "model",
            ),
            (
                "sig A {} pred p [disj x, y: A] { x in A } run p for 2 A check { some A }",
                "model",
            ),
            (
                "sig A {} assert a { some A } check a for 40 but 2 B run {} for 2 A, 2 A",
                "model",
            ),
        ],
    )
}
