// Sessions on models with orderings: the expected lines were worked out by hand from what an ordering declares.
use crate::running::{answered, run, served, serves};
use std::test::Fail;

#[test]
fn lists_orders(rt: HostRuntime) -> Result<(), Fail> {
    serves(
        &rt,
        rt.alloc(),
        &[
            (
                "open util/ordering[T] as o sig T {} run {} for 2",
                "all 10\n",
                "listed 1\nT = {T$0, T$1}\no/Ord = {o/Ord$0}\no/First = {o/Ord$0->T$0}\no/Next = {o/Ord$0->T$0->T$1}\nend 1\n",
            ),
            (
                "open util/ordering[T] as o sig T {} run {} for 0",
                "all 10\n",
                "listed 1\nT = {}\no/Ord = {o/Ord$0}\no/First = {}\no/Next = {}\nend 1\n",
            ),
            (
                "open util/ordering[T] as o sig T {} sig A in T {} run { o/last in A } for 2",
                "all 10\n",
                "listed 1\nT = {T$0, T$1}\nA = {T$0}\no/Ord = {o/Ord$0}\no/First = {o/Ord$0->T$1}\no/Next = {o/Ord$0->T$1->T$0}\nend 1\n",
            ),
        ],
    )
}

#[test]
fn augments_with_what_is_printed(rt: HostRuntime) -> Result<(), Fail> {
    serves(
        &rt,
        rt.alloc(),
        &[(
            "open util/ordering[T] as o sig T {} run {} for 2",
            "next\naugment o/Next o/Ord$0->T$1->T$0\n",
            "scenario 1\nT = {T$0, T$1}\no/Ord = {o/Ord$0}\no/First = {o/Ord$0->T$0}\no/Next = {o/Ord$0->T$0->T$1}\nrefused no_instance\n",
        )],
    )
}

// The atom of a set is the first one, the one in the middle, or the last one.
#[test]
fn orders_count_in_what_is_minimal(rt: HostRuntime) -> Result<(), Fail> {
    serves(
        &rt,
        rt.alloc(),
        &[(
            "open util/ordering[T] as o sig T {} sig A in T {} run { one A } for 3",
            "all 10\n",
            "listed 1\nT = {T$0, T$1, T$2}\nA = {T$0}\no/Ord = {o/Ord$0}\no/First = {o/Ord$0->T$0}\no/Next = {o/Ord$0->T$0->T$1, o/Ord$0->T$1->T$2}\n\
             listed 2\nT = {T$0, T$1, T$2}\nA = {T$0}\no/Ord = {o/Ord$0}\no/First = {o/Ord$0->T$1}\no/Next = {o/Ord$0->T$0->T$2, o/Ord$0->T$1->T$0}\n\
             listed 3\nT = {T$0, T$1, T$2}\nA = {T$0}\no/Ord = {o/Ord$0}\no/First = {o/Ord$0->T$1}\no/Next = {o/Ord$0->T$1->T$2, o/Ord$0->T$2->T$0}\n\
             end 3\n",
        )],
    )
}

// Where each atom has a name of its own, no order is a renaming of another: so all of them are listed.
#[test]
fn lists_each_order_of_named_atoms(rt: HostRuntime) -> Result<(), Fail> {
    for (names, formula, scope, orders) in [
        ("", "no T", 0, 1),
        ("one sig A in T {}", "A = T", 1, 1),
        ("one sig A, B in T {}", "A + B = T", 2, 2),
        ("one sig A, B, C in T {}", "A + B + C = T", 3, 6),
        ("one sig A, B, C, D in T {}", "A + B + C + D = T", 4, 24),
    ] {
        let script = format!(in rt.alloc();
            "== model m\nopen util/ordering[T] as o sig T {{}} {names} run {{ {formula} }} for {scope}\n== session a m 1\nall 30\n"
        )?;
        let (status, text) = run(&rt, rt.alloc(), &script)?;
        let end = format!(in rt.alloc(); "\nend {orders}\n")?;
        assert!(rt; text.as_str().ends_with(end.as_str()), "{text}");
        assert_eq!(rt; status, 0, "{text}");
    }
    Ok(())
}

// What holds of each order, and so of what the names of an ordering mean.
const LAWS: [&str; 12] = [
    "all a, b: T | a = b or o/lt[a, b] or o/lt[b, a]",
    "no a: T | o/lt[a, a]",
    "all a, b, c: T | o/lt[a, b] and o/lt[b, c] => o/lt[a, c]",
    "all a: T | o/lte[o/first, a] and o/gte[o/last, a]",
    "all a, b: T | o/lt[a, b] <=> o/gt[b, a]",
    "all a, b: T | o/lte[a, b] <=> not o/gt[a, b]",
    "all a, b: T | o/gte[a, b] <=> not o/lt[a, b]",
    "o/prev = ~(o/next)",
    "all a, b: T | a -> b in o/next <=> (o/lt[a, b] and no o/nexts[a] & o/prevs[b])",
    "all a: T | o/nexts[a] = a.^(o/next) and a.^(o/prev) = o/prevs[a]",
    "no o/prevs[o/first] and no o/nexts[o/last]",
    "some T => (one o/first and one o/last)",
];

// No order is a counterexample to these, from none to four atoms.
#[test]
fn names_mean_the_order(rt: HostRuntime) -> Result<(), Fail> {
    for law in LAWS {
        for scope in 0..5 {
            let model = format!(in rt.alloc();
                "open util/ordering[T] as o sig T {{}} check {{ {law} }} for {scope}"
            )?;
            served(&rt, rt.alloc(), &model, "next\n", "end 0\n")?;
        }
    }
    Ok(())
}

#[test]
fn scopes_without_a_number_have_none(rt: HostRuntime) -> Result<(), Fail> {
    for (model, expected) in [
        (
            "open util/ordering[T] as o sig T {} sig U {} run {} for 2 U",
            "fault model m command 1 no_scope\n",
        ),
        (
            "open util/ordering[T] as o sig T {} sig U {} run {} for 32",
            "fault model m command 1 too_many_atoms\n",
        ),
    ] {
        let script = format!(in rt.alloc(); "== model m\n{model}\n== session a m 1\nnext\n")?;
        answered(&rt, rt.alloc(), &script, 4, expected)?;
    }
    Ok(())
}
