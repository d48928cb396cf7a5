// Two faults in one text, and the one that is told.
use crate::reading::tells;
use std::test::Fail;

#[test]
fn texts_tokens_names_and_types_in_this_order(rt: HostRuntime) -> Result<(), Fail> {
    tells(
        &rt,
        rt.alloc(),
        &[
            ("sig } ?", "1:7 bad_character"),
            ("? /*", "1:1 bad_character"),
            ("/* ?", "1:1 open_comment"),
            ("fact { some x } sig }", "1:21 unexpected"),
            ("sig A {} fact { A } fact { some x }", "1:33 unknown"),
            ("sig A {} fact { A } sig A {}", "1:25 twice"),
            ("sig A {} fact { A } pred p { p }", "1:26 recursive"),
            ("sig A {} fact { A } run q", "1:25 unknown"),
        ],
    )
}

#[test]
fn names_that_stand_twice_are_told_first(rt: HostRuntime) -> Result<(), Fail> {
    tells(
        &rt,
        rt.alloc(),
        &[
            ("sig A extends B {} sig C {} sig C {}", "1:33 twice"),
            ("sig B extends B {} sig A {} sig A {}", "1:33 twice"),
            ("fact { some x } sig A {} sig A {}", "1:30 twice"),
            ("pred p { p } sig A {} sig A {}", "1:27 twice"),
            ("run q sig A {} sig A {}", "1:20 twice"),
        ],
    )
}

#[test]
fn parents_and_bounds_are_told_before_the_rest(rt: HostRuntime) -> Result<(), Fail> {
    tells(
        &rt,
        rt.alloc(),
        &[
            ("sig B extends B {} sig A { f: C }", "1:31 unknown"),
            ("fact { some x } sig A extends B {}", "1:31 unknown"),
            ("pred p { p } sig A in B {}", "1:23 unknown"),
            ("run q sig A extends B {}", "1:21 unknown"),
        ],
    )
}

#[test]
fn cycles_are_told_before_bodies(rt: HostRuntime) -> Result<(), Fail> {
    tells(
        &rt,
        rt.alloc(),
        &[
            ("fact { some x } sig B extends B {}", "1:21 cycle"),
            ("pred p { p } sig B extends B {}", "1:18 cycle"),
            ("run q sig A in A {}", "1:11 cycle"),
        ],
    )
}

#[test]
fn bodies_are_told_before_recursion_and_commands(rt: HostRuntime) -> Result<(), Fail> {
    tells(
        &rt,
        rt.alloc(),
        &[
            ("pred p { p } fact { some x }", "1:26 unknown"),
            ("pred p { p } fact { p[1] }", "1:21 arguments"),
            (
                "pred p { p } fact { some x: set p | some x }",
                "1:29 higher_order",
            ),
            ("run q fact { some x }", "1:19 unknown"),
            ("run q pred p { p }", "1:12 recursive"),
        ],
    )
}

#[test]
fn paragraphs_are_checked_in_the_order_of_the_text(rt: HostRuntime) -> Result<(), Fail> {
    tells(
        &rt,
        rt.alloc(),
        &[
            ("sig A {} fact { A } sig B { f: one B -> B }", "1:17 sort"),
            ("sig A { f: one A -> A } fact { A }", "1:16 not_unary"),
            ("sig A {} run p pred p [x: A.A] { some x }", "1:28 arity"),
            (
                "sig A {} fact { p[A] } pred p [x: A.A] { some x }",
                "1:36 arity",
            ),
            ("sig A {} fact { some g } fun g: A.A { A }", "1:34 arity"),
            ("sig A { f: one A -> A -> A }", "1:16 not_unary"),
        ],
    )
}

#[test]
fn operands_are_checked_before_the_operator(rt: HostRuntime) -> Result<(), Fail> {
    tells(
        &rt,
        rt.alloc(),
        &[
            ("sig A { f: A } fact { f = A.A }", "1:28 arity"),
            ("sig A { f: A } fact { A.A = f }", "1:24 arity"),
            ("sig A { f: A } fact { some A.A && A in f }", "1:29 arity"),
            ("sig A {} fact { some A + (some A) + A.A }", "1:26 sort"),
            ("sig A {} fact { some (no A) + A.A }", "1:22 sort"),
            ("sig A { f: A } fact { some A + f + (no A) }", "1:30 arity"),
            ("sig A {} fact { #A in A.A }", "1:17 sort"),
            ("sig A {} fact { all x: A -> A | x }", "1:24 not_unary"),
        ],
    )
}

#[test]
fn arguments_are_checked_before_the_call(rt: HostRuntime) -> Result<(), Fail> {
    tells(
        &rt,
        rt.alloc(),
        &[
            (
                "sig A {} pred p [x, y: A] { some x } fact { p[A -> A, A.A] }",
                "1:56 arity",
            ),
            (
                "sig A {} pred p [x, y: A] { some x } fact { p[A -> A, A -> A] }",
                "1:47 arity",
            ),
            (
                "sig A { f: A -> A } fact { some f[f, (no A)] }",
                "1:38 sort",
            ),
            (
                "sig A { f: set A } sig B { f: set A } run { some f[A.A] }",
                "1:53 arity",
            ),
        ],
    )
}
