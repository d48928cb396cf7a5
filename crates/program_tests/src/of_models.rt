// Models of every form, and what is wrong with others: the expected lines were worked out by hand from what models mean.
use crate::running::{answers, serves};
use std::test::Fail;

#[test]
fn models_have_signatures(rt: HostRuntime) -> Result<(), Fail> {
    serves(
        &rt,
        rt.alloc(),
        &[
            (
                "abstract sig C {} one sig R, G extends C {} run {} for 1",
                "next\nnext\n",
                "scenario 1\nC = {C$0, C$1}\nR = {C$0}\nG = {C$1}\nend 1\n",
            ),
            ("one sig A {} run {}", "next\n", "scenario 1\nA = {A$0}\n"),
            (
                "sig A {} sig P in A {} sig Q in A {} run { some Q } for exactly 2 A",
                "next\nnext\n",
                "scenario 1\nA = {A$0, A$1}\nP = {}\nQ = {A$0}\nend 1\n",
            ),
            (
                "sig A, B, C, D, E {} run { some B }",
                "next\n",
                "scenario 1\nA = {}\nB = {B$0}\nC = {}\nD = {}\nE = {}\n",
            ),
        ],
    )
}

#[test]
fn models_have_fields_and_facts(rt: HostRuntime) -> Result<(), Fail> {
    serves(
        &rt,
        rt.alloc(),
        &[
            (
                "sig A { f: set A } run {}",
                "next\n",
                "scenario 1\nA = {}\nf = {}\n",
            ),
            (
                "sig A { f: A } run { some A } for 1",
                "next\nnext\n",
                "scenario 1\nA = {A$0}\nf = {A$0->A$0}\nend 1\n",
            ),
            (
                "sig A { f: lone A } fact { no a: A | a in a.f } fact { some f } run {} for 2",
                "next\nnext\n",
                "scenario 1\nA = {A$0, A$1}\nf = {A$0->A$1}\nend 1\n",
            ),
            (
                "sig A { f: set B } sig B { f: set A } fun g [x: A]: set B { x.f } run { some a: A | some g[a] } for 1",
                "next\naugment f A$0->B$0\naugment B.f B$0->A$0\nnext\n",
                "scenario 1\nA = {A$0}\nB = {B$0}\nA.f = {A$0->B$0}\nB.f = {}\nrefused unknown_tuple\naugmented\nscenario 1\nA = {A$0}\nB = {B$0}\nA.f = {A$0->B$0}\nB.f = {B$0->A$0}\n",
            ),
        ],
    )
}

#[test]
fn models_have_commands(rt: HostRuntime) -> Result<(), Fail> {
    serves(
        &rt,
        rt.alloc(),
        &[
            (
                "sig A {} assert n { no A } check n for 2",
                "next\nnext\n",
                "scenario 1\nA = {A$0}\nend 1\n",
            ),
            (
                "sig A {} pred p [x, x': A] { x != x' } run p for 2",
                "next\nnext\n",
                "scenario 1\nA = {A$0, A$1}\nend 1\n",
            ),
            ("sig A {} check {}", "next\n", "end 0\n"),
            (
                "module m sig A {} fun f: A { A } run show { some f } for 2 A expect 1",
                "next\n",
                "scenario 1\nA = {A$0}\n",
            ),
            (
                "sig A {} run { some A || no A } run {} for 33",
                "next\n",
                "scenario 1\nA = {}\n",
            ),
        ],
    )
}

#[test]
fn sessions_are_on_any_command(rt: HostRuntime) -> Result<(), Fail> {
    answers(
        &rt,
        rt.alloc(),
        0,
        &[
            (
                "== model m\nsig A {} run { some A } run { no A } for 2\n== session b m 2\nnext\n== session a m 1\nnext\n",
                "== b\nscenario 1\nA = {}\n== a\nscenario 1\nA = {A$0}\n",
            ),
            (
                "== model m\nsig A {} run {} for 33 check { no A } for 1\n== model n\nsig B {} run {} run { one B }\n== session b n 2\nnext\n== session a m 2\nnext\nnext\n",
                "== b\nscenario 1\nB = {B$0}\n== a\nscenario 1\nA = {A$0}\nend 1\n",
            ),
        ],
    )
}

#[test]
fn tells_the_first_fault_of_names(rt: HostRuntime) -> Result<(), Fail> {
    answers(
        &rt,
        rt.alloc(),
        4,
        &[
            (
                "== model m\nsig A {} run { some B }\n",
                "fault model m 1:21 unknown\n",
            ),
            (
                "== model m\nsig A {} sig A {} run {}\n",
                "fault model m 1:14 twice\n",
            ),
            (
                "== model m\nsig A extends B {} sig B extends A {}\n",
                "fault model m 1:5 cycle\n",
            ),
            (
                "== model m\nsig A {} pred p { p }\n",
                "fault model m 1:15 recursive\n",
            ),
            (
                "== model m\nsig A {} pred p [x: A] { some x } run { p }\n",
                "fault model m 1:41 arguments\n",
            ),
            (
                "== model m\nsig A {} run { all x: set A | some x }\n",
                "fault model m 1:23 higher_order\n",
            ),
        ],
    )
}

#[test]
fn tells_the_first_fault_of_types(rt: HostRuntime) -> Result<(), Fail> {
    answers(
        &rt,
        rt.alloc(),
        4,
        &[
            (
                "== model m\nsig A { f: A } run { A in f }\n",
                "fault model m 1:24 arity\n",
            ),
            (
                "== model m\nsig A { f: A } run { all x: f | some x }\n",
                "fault model m 1:29 not_unary\n",
            ),
            (
                "== model m\nsig A {} run { some ^A }\n",
                "fault model m 1:21 not_binary\n",
            ),
            (
                "== model m\nsig A { f: A -> A -> A }\n",
                "fault model m 1:9 arity_too_large\n",
            ),
            (
                "== model m\nsig A {} run { A }\n",
                "fault model m 1:16 sort\n",
            ),
            (
                "== model m\nsig A { f: set B } sig B { f: set A } run { some f }\n",
                "fault model m 1:50 ambiguous\n",
            ),
        ],
    )
}

#[test]
fn tells_the_first_command_without_a_problem(rt: HostRuntime) -> Result<(), Fail> {
    answers(
        &rt,
        rt.alloc(),
        4,
        &[
            (
                "== model m\nsig A {}\n== session a m 1\n",
                "fault model m command 1 no_command\n",
            ),
            (
                "== model m\nsig A {} sig B {} run {} for 2 B\n== session a m 1\n",
                "fault model m command 1 no_scope\n",
            ),
            (
                "== model m\nsig A {} run {} run {} for 2 B\n== session b m 3\n== session a m 2\n",
                "fault model m command 2 unknown_scope\n",
            ),
            (
                "== model m\nsig A {} run {} for 2 A, 3 A\n== session a m 1\n",
                "fault model m command 1 twice\n",
            ),
            (
                "== model m\nsig A {} run {} for 33\n== session a m 1\n",
                "fault model m command 1 scope_too_large\n",
            ),
            (
                "== model m\nsig A, B, C {} run {} for 32\n== session a m 1\n",
                "fault model m command 1 too_many_atoms\n",
            ),
        ],
    )
}

#[test]
fn tells_which_problems_are_too_large(rt: HostRuntime) -> Result<(), Fail> {
    answers(
        &rt,
        rt.alloc(),
        4,
        &[
            (
                "== model m\nsig A { f: A -> A } run {} for 16\n== session a m 1\n",
                "fault model m command 1 too_many_cells\n",
            ),
            (
                "== model m\nsig A {} run { all a, b, c, d: A | some A } for exactly 32 A\n== session a m 1\n",
                "fault model m command 1 too_many_terms\n",
            ),
        ],
    )
}
