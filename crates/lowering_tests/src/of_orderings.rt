// How many scenarios orderings leave, and what their names mean: for up to three atoms, of which all scenarios can be tried.
use crate::counting::{agree, counts};
use std::alloc::Global;
use std::process::Abort;
use std::test::Fail;

// 1, 1, 2 and 6 orders of 0 to 3 atoms
#[test]
fn orders_of_a_set(rt: HostRuntime) -> Result<(), Fail> {
    counts(
        &rt,
        rt.alloc(),
        &[
            ("open util/ordering[T] as o sig T {} run {} for 0", 1),
            ("open util/ordering[T] as o sig T {} run {} for 1", 1),
            ("open util/ordering[T] as o sig T {} run {} for 2", 2),
            ("open util/ordering[T] as o sig T {} run {}", 6),
            (
                "open util/ordering[T] as o sig T {} run {} for exactly 2 T",
                2,
            ),
        ],
    )
}

// two orders of two atoms, which are independent; and an order beside a set
#[test]
fn orders_beside_others(rt: HostRuntime) -> Result<(), Fail> {
    counts(
        &rt,
        rt.alloc(),
        &[
            (
                "open util/ordering[T] as o open util/ordering[T] as p sig T {} run {} for 2",
                4,
            ),
            (
                "open util/ordering[T] as o open util/ordering[T] as p sig T {} run { o/first = p/first } for 2",
                2,
            ),
            (
                "open util/ordering[T] as o sig T {} sig A in T {} run { o/last in A } for 2",
                4,
            ),
            (
                "open util/ordering[T] as o sig T {} sig U {} run {} for 1 but 2 T",
                4,
            ),
        ],
    )
}

// a signature that has the name of a variable of the ordering
#[test]
fn signatures_like_variables(rt: HostRuntime) -> Result<(), Fail> {
    counts(
        &rt,
        rt.alloc(),
        &[
            ("open util/ordering[x] as o sig x {} run {} for 2", 2),
            (
                "open util/ordering[e] as o sig e {} run { some o/nexts[o/first] } for 2",
                2,
            ),
            (
                "open util/ordering[a] as o sig a {} run { o/lt[o/first, o/last] } for 2",
                2,
            ),
            (
                "open util/ordering[b] as o sig b {} run { o/gte[o/last, o/first] } for 2",
                2,
            ),
        ],
    )
}

// What isn't so of orders.
#[test]
fn some_names_differ(rt: HostRuntime) -> Result<(), Fail> {
    counts(
        &rt,
        rt.alloc(),
        &[
            (
                "open util/ordering[T] as o sig T {} check { o/first != o/last } for 1",
                1,
            ),
            (
                "open util/ordering[T] as o sig T {} check { o/first = o/last } for 2",
                2,
            ),
            (
                "open util/ordering[T] as o sig T {} check { some o/next } for 1",
                1,
            ),
            (
                "open util/ordering[T] as o sig T {} run { some o/next.(o/next) }",
                6,
            ),
            (
                "open util/ordering[T] as o sig T {} run { some o/next.(o/next) } for 2",
                0,
            ),
        ],
    )
}

// An ordering of the signature `T`, written out.
const WRITTEN: &str = "one sig Ord { First: lone T, Next: T -> T } \
    fact { no Ord.Next.(Ord.First) all x: T | lone x.(Ord.Next) all x: T | lone (Ord.Next).x T in (Ord.First).*(Ord.Next) } \
    fun first: T { Ord.First } fun next: T -> T { Ord.Next } fun prev: T -> T { ~(Ord.Next) } fun last: T { T - (Ord.Next).T } \
    fun nexts [e: T]: T { e.^(Ord.Next) } fun prevs [e: T]: T { e.^(~(Ord.Next)) } \
    pred lt [a, b: T] { a in prevs[b] } pred gt [a, b: T] { a in nexts[b] } \
    pred lte [a, b: T] { a = b or lt[a, b] } pred gte [a, b: T] { a = b or gt[a, b] }";

// Each name of an ordering, and the one of the text that is written out.
const USES: [(&str, &str); 12] = [
    ("A = o/first", "A = first"),
    ("A = o/last", "A = last"),
    ("A -> B in o/next", "A -> B in next"),
    ("A -> B in o/prev", "A -> B in prev"),
    ("B in o/nexts[A]", "B in nexts[A]"),
    ("B in o/prevs[A]", "B in prevs[A]"),
    ("o/lt[A, B]", "lt[A, B]"),
    ("o/gt[A, B]", "gt[A, B]"),
    ("o/lte[A, B]", "lte[A, B]"),
    ("o/gte[A, B]", "gte[A, B]"),
    ("A in o/Ord.o/First", "A in Ord.First"),
    ("A -> B in o/Ord.o/Next", "A -> B in Ord.Next"),
];

// Whether these two formulas have the same instances in a model with an ordering and in one where it is written out.
fn agrees(
    rt: &impl Abort,
    alloc: Global,
    declared: &str,
    (ordered, written): (&str, &str),
    scope: u32,
) -> Result<(), Fail> {
    let first = format!(in alloc;
        "open util/ordering[T] as o sig T {{}} {declared} run {{ {ordered} }} for {scope}"
    )?;
    let second = format!(in alloc;
        "sig T {{}} {declared} {WRITTEN} run {{ {written} }} for exactly {scope} T"
    )?;
    agree(rt, alloc, &first, &second)
}

#[test]
fn an_ordering_is_what_is_written_out(rt: HostRuntime) -> Result<(), Fail> {
    for scope in 0..4 {
        agrees(&rt, rt.alloc(), "", ("", ""), scope)?;
    }
    for formulas in USES {
        agrees(&rt, rt.alloc(), "one sig A, B in T {}", formulas, 2)?;
    }
    Ok(())
}
