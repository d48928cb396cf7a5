// Each fault of a sort, an arity or a shared name.
use crate::reading::tells;
use std::test::Fail;

#[test]
fn arities_of_operands_differ(rt: HostRuntime) -> Result<(), Fail> {
    tells(
        &rt,
        rt.alloc(),
        &[
            ("sig A { f: set A } fact { A = f } run {}", "1:29 arity"),
            ("sig A { f: A } fact { some A + f }", "1:30 arity"),
            ("sig A { f: A } fact { some f - A }", "1:30 arity"),
            ("sig A { f: A }\nfact { some f & A }", "2:15 arity"),
            ("sig A { f: A } fact { A in f }", "1:25 arity"),
            ("sig A { f: A } fact { A !in f }", "1:25 arity"),
            ("sig A { f: A } fact { A not = f }", "1:25 arity"),
            ("sig A { f: A } fact { A != f }", "1:25 arity"),
        ],
    )
}

#[test]
fn arities_of_joins_and_calls(rt: HostRuntime) -> Result<(), Fail> {
    tells(
        &rt,
        rt.alloc(),
        &[
            ("sig A {} fact { some A.A }", "1:23 arity"),
            ("sig A {} fact { some A[A] }", "1:23 arity"),
            ("sig A { f: A -> A } fact { some f[A, A, A] }", "1:34 arity"),
            (
                "sig A {} pred p [x: A] { some x } fact { p[A -> A] }",
                "1:44 arity",
            ),
            (
                "sig A {} fun f [x: A -> A]: A { A } fact { some f[A] }",
                "1:51 arity",
            ),
            ("sig A {} fun f: A { A -> A }", "1:21 arity"),
        ],
    )
}

#[test]
fn sets_are_wanted(rt: HostRuntime) -> Result<(), Fail> {
    tells(
        &rt,
        rt.alloc(),
        &[
            ("sig A {} fact { all x: A -> A | some x }", "1:24 not_unary"),
            ("sig A { f: A } fact { some f <: f }", "1:28 not_unary"),
            ("sig A { f: A } fact { some f :> f }", "1:33 not_unary"),
            ("sig A { f: one A -> A }", "1:16 not_unary"),
            (
                "sig A {} pred p [x: iden] { some x } run p",
                "1:21 not_unary",
            ),
        ],
    )
}

#[test]
fn relations_of_arity_two_are_wanted(rt: HostRuntime) -> Result<(), Fail> {
    tells(
        &rt,
        rt.alloc(),
        &[
            ("sig A {} fact { some ~A }", "1:22 not_binary"),
            ("sig A {} fact { some ^A }", "1:22 not_binary"),
            ("sig A {} fact { some *A }", "1:22 not_binary"),
            ("sig A { f: A } fact { some A ++ A }", "1:30 not_binary"),
            (
                "sig A { f: A -> A } fact { some f ++ f }",
                "1:35 not_binary",
            ),
        ],
    )
}

#[test]
fn arities_are_at_most_three(rt: HostRuntime) -> Result<(), Fail> {
    tells(
        &rt,
        rt.alloc(),
        &[
            ("sig A { f: A -> A -> A }", "1:9 arity_too_large"),
            (
                "sig A { f: A -> A } fact { some f -> A }",
                "1:35 arity_too_large",
            ),
            (
                "sig A { f: A } fact { some A -> f -> A }",
                "1:35 arity_too_large",
            ),
            (
                "sig A { f: A -> A } fact { some f.f }",
                "1:34 arity_too_large",
            ),
        ],
    )
}

#[test]
fn formulas_are_wanted(rt: HostRuntime) -> Result<(), Fail> {
    tells(
        &rt,
        rt.alloc(),
        &[
            ("sig A {} fact { A }", "1:17 sort"),
            ("sig A {} fact { some A && A }", "1:27 sort"),
            ("sig A {} fact { A => some A }", "1:17 sort"),
            ("sig A {} fact { some A => some A else (A) }", "1:39 sort"),
            ("sig A {} fact { all x: A | x }", "1:28 sort"),
            ("sig A {} assert a { A }", "1:21 sort"),
            ("sig A {} run { A }", "1:16 sort"),
        ],
    )
}

#[test]
fn relations_are_wanted(rt: HostRuntime) -> Result<(), Fail> {
    tells(
        &rt,
        rt.alloc(),
        &[
            ("sig A {} fact { some (no A) }", "1:22 sort"),
            ("sig A {} fact { let x = (some A) | some x }", "1:25 sort"),
            ("sig A {} pred p { some A } fact { some p }", "1:40 sort"),
            ("sig A {} fun f: A { (some A) }", "1:21 sort"),
            (
                "sig A {} pred p [x: A] { some x } fact { p[(some A)] }",
                "1:44 sort",
            ),
            ("sig A {} fact { A = 3 }", "1:21 sort"),
        ],
    )
}

#[test]
fn sizes_are_compared_with_numbers(rt: HostRuntime) -> Result<(), Fail> {
    tells(
        &rt,
        rt.alloc(),
        &[
            ("sig A {} fact { 3 = #A }", "1:17 sort"),
            ("sig A {} fact { #A in A }", "1:17 sort"),
            ("sig A {} fact { A < 3 }", "1:17 sort"),
            ("sig A {} fact { #A = A }", "1:22 sort"),
        ],
    )
}

#[test]
fn shared_names_fit_no_field_or_several(rt: HostRuntime) -> Result<(), Fail> {
    tells(
        &rt,
        rt.alloc(),
        &[
            (
                "sig A { f: set A } sig B { f: set A } run { some f } for 1",
                "1:50 ambiguous",
            ),
            (
                "sig A { f: set A } sig B { f: set A } fact { some f :> A }",
                "1:51 ambiguous",
            ),
            (
                "sig A { f: set A } sig B { f: set A } fact { some (A + B).f }",
                "1:59 ambiguous",
            ),
            (
                "sig A { f: set A } sig B { f: set A } fact { some none.(f) }",
                "1:57 ambiguous",
            ),
            (
                "sig A { f: set A } sig B { f: set A } sig C {} fact { some f[C] }",
                "1:60 ambiguous",
            ),
            (
                "sig A { f: set A } sig B { f: set A } fact { some (A -> B) <: f }",
                "1:63 ambiguous",
            ),
            (
                "sig A { f: set A } sig B { f: set A }\nfun g [x: univ]: univ { x.f }",
                "2:27 ambiguous",
            ),
        ],
    )
}
