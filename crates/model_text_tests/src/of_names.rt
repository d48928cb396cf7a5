// Each fault of a name.
use crate::reading::tells;
use std::test::Fail;

#[test]
fn parents_and_bounds_are_signatures(rt: HostRuntime) -> Result<(), Fail> {
    tells(
        &rt,
        rt.alloc(),
        &[
            ("sig A extends B {}", "1:15 unknown"),
            ("sig A in B {}", "1:10 unknown"),
            ("sig A { f: A -> B }", "1:17 unknown"),
            ("sig A { f: f }", "1:12 unknown"),
            ("pred p [] {}\nsig A { f: A + (A -> p) }", "2:22 unknown"),
        ],
    )
}

#[test]
fn names_in_bodies_are_known(rt: HostRuntime) -> Result<(), Fail> {
    tells(
        &rt,
        rt.alloc(),
        &[
            ("sig A {} fact { some B } run {}", "1:22 unknown"),
            ("sig A {}\nassert a { some x }", "2:17 unknown"),
            ("sig A {} run l { some l }", "1:23 unknown"),
            ("sig A {} fact { some x: A | some y }", "1:34 unknown"),
            (
                "sig A {} fact { let x = y, y = A | some x }",
                "1:25 unknown",
            ),
            (
                "sig A {} fact { (some x: A | some x) && some x }",
                "1:46 unknown",
            ),
            ("sig A {} fun f [x: A]: y { x }", "1:24 unknown"),
            ("sig A {} pred p [x: y, y: A] {}", "1:21 unknown"),
        ],
    )
}

#[test]
fn commands_name_predicates_and_assertions(rt: HostRuntime) -> Result<(), Fail> {
    tells(
        &rt,
        rt.alloc(),
        &[
            ("sig A {} run q", "1:14 unknown"),
            ("sig A {} pred p {} check p", "1:26 unknown"),
            ("assert a {} run a", "1:17 unknown"),
            ("sig A {} fun f: A { A } run f", "1:29 unknown"),
            ("sig A {} pred p {} assert p {} run p check p", "model"),
        ],
    )
}

#[test]
fn names_that_stand_twice(rt: HostRuntime) -> Result<(), Fail> {
    tells(
        &rt,
        rt.alloc(),
        &[
            (
                "sig A { f: set A } sig B extends A { f: set A } run {}",
                "1:38 twice",
            ),
            ("sig A {}\nsig A {}", "2:5 twice"),
            ("sig A { f: A, f: A }", "1:15 twice"),
            ("sig A {} pred p [] {} fun p: A { A }", "1:27 twice"),
            ("sig A { f: A } pred f [] {}", "1:21 twice"),
            ("sig A {} pred p [x: A, x: A] {}", "1:24 twice"),
            ("assert a {} assert a {}", "1:20 twice"),
            ("sig C {} sig A, B extends C { f: A }", "1:31 twice"),
        ],
    )
}

#[test]
fn names_that_may_stand_twice(rt: HostRuntime) -> Result<(), Fail> {
    tells(
        &rt,
        rt.alloc(),
        &[
            ("sig A { f: A } sig B { f: A }", "model"),
            ("sig A, B { f: A }", "model"),
            ("sig A {} pred p [x: A] {} pred q [x: A] {}", "model"),
            ("sig a {} assert a {} fact a {} fact a {}", "model"),
        ],
    )
}

#[test]
fn fields_share_names_under_two_top_level_signatures(rt: HostRuntime) -> Result<(), Fail> {
    tells(
        &rt,
        rt.alloc(),
        &[
            ("sig A { f: A } sig B extends A { f: A }", "1:34 twice"),
            (
                "sig A {} sig B in A { f: A } sig C extends A { f: A }",
                "1:48 twice",
            ),
            (
                "sig A extends X { f: A } sig B extends X { f: B }",
                "1:44 twice",
            ),
            (
                "sig A extends B { f: A } sig B extends A { g: A } sig C { f: C }",
                "1:59 twice",
            ),
        ],
    )
}

#[test]
fn signatures_above_themselves(rt: HostRuntime) -> Result<(), Fail> {
    tells(
        &rt,
        rt.alloc(),
        &[
            ("sig A extends B {} sig B extends A {} run {}", "1:5 cycle"),
            ("sig A extends A {}", "1:5 cycle"),
            (
                "sig C in A {}\nsig A extends B {} sig B in A {}",
                "2:5 cycle",
            ),
            ("sig A in B {} sig B in C {} sig C {}", "model"),
        ],
    )
}

#[test]
fn other_numbers_of_arguments(rt: HostRuntime) -> Result<(), Fail> {
    tells(
        &rt,
        rt.alloc(),
        &[
            (
                "sig A {} pred p [x: A] { some x } fact { p }",
                "1:42 arguments",
            ),
            (
                "sig A {} pred p [x, y: A] { x = y } fact { p[A] }",
                "1:44 arguments",
            ),
            (
                "sig A {} pred p [x: A] { some x } fact { (p)[A] }",
                "1:43 arguments",
            ),
            ("sig A {} pred p { some A } fact { p[A] }", "1:35 arguments"),
            (
                "sig A {} fun f [x: A]: A { x } fact { some f }",
                "1:44 arguments",
            ),
            (
                "sig A {} fun f [x: A]: A { x } fact { some f[] }",
                "1:44 arguments",
            ),
            (
                "sig A {} fun f [x: A]: A { x } fact { some A.f[A] }",
                "1:46 arguments",
            ),
        ],
    )
}

#[test]
fn variables_that_need_not_be_one_atom(rt: HostRuntime) -> Result<(), Fail> {
    tells(
        &rt,
        rt.alloc(),
        &[
            (
                "sig A {} fact { some x: set A | some x }",
                "1:25 higher_order",
            ),
            (
                "sig A {} fact { all x: one A, y: lone A | some x }",
                "1:34 higher_order",
            ),
            ("sig A {} pred p [x: set A] {} run p", "1:35 higher_order"),
            ("sig A {} pred p [x: A -> A] {} run p", "1:36 higher_order"),
            ("sig A {} pred p [x: one A] {} run p", "model"),
            (
                "sig A {} pred p [x: set A] { some x } fact { p[A] }",
                "model",
            ),
        ],
    )
}

#[test]
fn an_arrow_anywhere_makes_tuples(rt: HostRuntime) -> Result<(), Fail> {
    tells(
        &rt,
        rt.alloc(),
        &[
            (
                "sig A, B {} pred p [x: (A + (A -> B))] {} run p",
                "1:47 higher_order",
            ),
            (
                "sig A, B {} pred p [x: A.(A -> B)] {} run p",
                "1:43 higher_order",
            ),
            (
                "sig A, B { f: A } pred p [x: f[A -> B]] {} run p",
                "1:48 higher_order",
            ),
            (
                "sig A, B {} pred p [x: ~(A -> B)] {} run p",
                "1:42 higher_order",
            ),
            (
                "sig A { f: A } sig B {} pred p [x: A + B - f.A] {} run p",
                "model",
            ),
        ],
    )
}

#[test]
fn calls_of_themselves(rt: HostRuntime) -> Result<(), Fail> {
    tells(
        &rt,
        rt.alloc(),
        &[
            ("pred p { p }", "1:6 recursive"),
            ("pred r { p } pred p { q } pred q { p }", "1:19 recursive"),
            (
                "sig A {} fun f [x: A]: A { g[x] } fun g [x: f[A]]: A { x }",
                "1:14 recursive",
            ),
            ("sig A {} fun f: f { A }", "1:14 recursive"),
            (
                "sig A {} pred p { q } pred q { r } pred r { some A }",
                "model",
            ),
        ],
    )
}
