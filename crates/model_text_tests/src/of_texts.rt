// Faults of texts, of their tokens and of their orderings.
use crate::reading::tells;
use std::test::Fail;

#[test]
fn faults_of_texts(rt: HostRuntime) -> Result<(), Fail> {
    tells(
        &rt,
        rt.alloc(),
        &[
            ("sig A {} fact { A ? A }", "1:19 bad_character"),
            ("sig A {} // é\nfact { A ? A }", "2:10 bad_character"),
            ("sig A {} /*", "1:10 open_comment"),
            ("sig A {} run {} for 1001", "1:21 number_too_large"),
        ],
    )
}

#[test]
fn faults_of_tokens(rt: HostRuntime) -> Result<(), Fail> {
    tells(
        &rt,
        rt.alloc(),
        &[
            ("sig A }", "1:7 unexpected"),
            ("sig A {}\n\nfact }", "3:6 unexpected"),
            ("sig A {", "1:8 end_of_text"),
            ("sig A {} run { always some A }", "1:16 unsupported always"),
            ("open util/ordered[T] as o", "1:6 unsupported open"),
            (
                "sig A {} fact { some { x: A | some x } }",
                "1:22 unsupported comprehension",
            ),
            ("sig A {} {}", "1:10 unsupported appended"),
            (
                "sig A { f: A lone -> A -> A }",
                "1:14 unsupported arrow_multiplicity",
            ),
            (
                "sig A {} run { one a, b: A | some a }",
                "1:23 unsupported several",
            ),
        ],
    )
}

#[test]
fn orderings_have_faults_of_their_own(rt: HostRuntime) -> Result<(), Fail> {
    tells(
        &rt,
        rt.alloc(),
        &[
            ("open util/ordering[Q] as o run {}", "1:20 unknown"),
            (
                "open util/ordering[T] as o one sig T {} run {}",
                "1:20 not_plain",
            ),
            (
                "open util/ordering[T] as o abstract sig T {} run {}",
                "1:20 not_plain",
            ),
            (
                "open util/ordering[T] as o lone sig T {} run {}",
                "1:20 not_plain",
            ),
            (
                "open util/ordering[T] as o sig A {} sig T extends A {} run {}",
                "1:20 not_plain",
            ),
            (
                "open util/ordering[T] as o sig A {} sig T in A {} run {}",
                "1:20 not_plain",
            ),
            ("open util/ordering[T] as o some sig T {} run {}", "model"),
            (
                "open util/ordering[T] as o sig T {} sig A extends T {} run {}",
                "model",
            ),
            (
                "open util/ordering[T] as o pred T {} run {}",
                "1:20 unknown",
            ),
            (
                "open util/ordering[T] as o open util/ordering[T] as o sig T {} run {}",
                "1:53 twice",
            ),
            (
                "open util/ordering[T] as o open util/ordering[T] as p sig T {} run {}",
                "model",
            ),
            ("open util/ordering[T] sig T {}", "1:23 unexpected"),
            ("open util/boolean as b sig A {}", "1:6 unsupported open"),
            ("open util/ordering[A] as o sig {}", "1:32 unexpected"),
        ],
    )
}

// Faults of orderings come behind those of tokens and of the tree, and before those of names and types; the first ordering that
// has one comes first.
#[test]
fn faults_of_orderings_come_between(rt: HostRuntime) -> Result<(), Fail> {
    tells(
        &rt,
        rt.alloc(),
        &[
            (
                "open util/ordering[Q] as o sig A {} fact { A ? A }",
                "1:46 bad_character",
            ),
            ("open util/ordering[Q] as o sig A }", "1:34 unexpected"),
            (
                "open util/ordering[Q] as o sig A {} sig A {} fact { A }",
                "1:20 unknown",
            ),
            (
                "open util/ordering[Q] as o open util/ordering[R] as o sig A {}",
                "1:20 unknown",
            ),
            (
                "open util/ordering[A] as o\nopen util/ordering[Q] as o sig A {}",
                "2:20 unknown",
            ),
            (
                "open util/ordering[A] as o\nopen util/ordering[B] as o sig A {} one sig B {}",
                "2:20 not_plain",
            ),
        ],
    )
}

#[test]
fn names_of_orderings_stand_for_what_they_declare(rt: HostRuntime) -> Result<(), Fail> {
    tells(
        &rt,
        rt.alloc(),
        &[
            ("open util/ordering[A] as o sig A {} run {}", "model"),
            (
                "open util/ordering[A] as o sig A {} fact { some o/first }",
                "model",
            ),
            (
                "open util/ordering[T] as o sig T {} run { some o/foo }",
                "1:48 unknown",
            ),
            (
                "open util/ordering[T] as o sig T {} run { some p/first }",
                "1:48 unknown",
            ),
            (
                "open util/ordering[T] as o sig T {} run { some a: T | a.o/nexts = T }",
                "1:57 arguments",
            ),
            (
                "open util/ordering[T] as o sig T {} run { some a: T | a.o/next = T and o/nexts[a] = T }",
                "model",
            ),
            (
                "open util/ordering[A] as o sig A {} sig A {} fact { A }",
                "1:41 twice",
            ),
            (
                "open util/ordering[T] as o sig T {} run { o/first }",
                "1:43 sort",
            ),
            (
                "open util/ordering[T] as o sig T {} run { some first }",
                "1:48 unknown",
            ),
            (
                "open util/ordering[T] as o sig T {} run { some o/Ord.o/First }",
                "model",
            ),
            ("sig o/A {} run {}", "1:5 unexpected"),
        ],
    )
}

#[test]
fn small_texts(rt: HostRuntime) -> Result<(), Fail> {
    tells(
        &rt,
        rt.alloc(),
        &[
            ("", "model"),
            ("// A", "model"),
            ("module m", "model"),
            ("sig A {}", "model"),
            ("run {}", "model"),
        ],
    )
}
