// Long chains of calls, long names and deep nests.
use crate::reading::told;
use std::alloc::{AllocError, Global};
use std::fmt::Write;
use std::process::Abort;
use std::test::Fail;

// What stands before a number and behind it, up to the call of the next one.
#[derive(Clone, Copy)]
struct Chained<'a> {
    head: &'a str,
    open: &'a str,
    call: &'a str,
}

const PREDICATES: Chained = Chained {
    head: "pred p",
    open: " { ",
    call: "p",
};

const FUNCTIONS: Chained = Chained {
    head: "fun f",
    open: ": univ { ",
    call: "f",
};

fn push_link(text: &mut String, chained: Chained, number: usize) -> Result<(), Fail> {
    let Chained { head, open, call } = chained;
    let next = number.saturating_add(1);
    write!(text, "{head}{number}{open}{call}{next} }}\n")?;
    Ok(())
}

fn push_last(text: &mut String, chained: Chained, number: usize, last: &str) -> Result<(), Fail> {
    write!(text, "{}{number}{}{last} }}", chained.head, chained.open)?;
    Ok(())
}

// Number 0 that calls number 1, number 1 that calls number 2, and so on to number 1000, and this in the last one.
fn chain(alloc: Global, chained: Chained, last: &str) -> Result<String, Fail> {
    let mut text = String::new(alloc);
    for number in 0..1_000 {
        push_link(&mut text, chained, number)?;
    }
    push_last(&mut text, chained, 1_000, last)?;
    Ok(text)
}

fn tells_chain(
    rt: &impl Abort,
    alloc: Global,
    chained: Chained,
    rows: &[(&str, &str)],
) -> Result<(), Fail> {
    for (last, want) in rows {
        let text = chain(alloc, chained, last)?;
        assert_eq!(*rt; told(alloc, &text)?.as_str(), *want, "{last}");
    }
    Ok(())
}

#[test]
fn a_thousand_predicates_call_each_other(rt: HostRuntime) -> Result<(), Fail> {
    tells_chain(
        &rt,
        rt.alloc(),
        PREDICATES,
        &[
            ("no univ", "model"),
            ("p0", "1:6 recursive"),
            ("p999", "1000:6 recursive"),
            ("univ", "1001:14 sort"),
        ],
    )
}

#[test]
fn a_thousand_functions_call_each_other(rt: HostRuntime) -> Result<(), Fail> {
    tells_chain(
        &rt,
        rt.alloc(),
        FUNCTIONS,
        &[
            ("univ", "model"),
            ("f0", "1:5 recursive"),
            ("f1000", "1001:5 recursive"),
            ("iden", "1001:19 arity"),
        ],
    )
}

fn push_predicate(text: &mut String, name: &str, body: &str) -> Result<(), AllocError> {
    for part in ["pred ", name, " { ", body, " } "] {
        text.push_str(part)?;
    }
    Ok(())
}

// The name, and a letter more.
fn longer(alloc: Global, name: &str) -> Result<String, AllocError> {
    let mut longer = String::from_str(alloc, name)?;
    longer.push_str("p")?;
    Ok(longer)
}

// pred p { pp } pred pp { ppp } .., with 1000 predicates, and the name in the last one
fn longer_chain(alloc: Global, last: &str) -> Result<String, AllocError> {
    let mut text = String::new(alloc);
    let mut name = String::from_str(alloc, "p")?;
    for _ in 1..1_000 {
        let next = longer(alloc, &name)?;
        push_predicate(&mut text, &name, &next)?;
        name = next;
    }
    push_predicate(&mut text, &name, last)?;
    Ok(text)
}

fn told_of_longer(alloc: Global, last: &str) -> Result<String, AllocError> {
    let text = longer_chain(alloc, last)?;
    told(alloc, &text)
}

#[test]
fn a_thousand_predicates_have_longer_and_longer_names(rt: HostRuntime) -> Result<(), Fail> {
    for (last, want) in [("no univ", "model"), ("p", "1:6 recursive")] {
        let found = told_of_longer(rt.alloc(), last)?;
        assert_eq!(rt; found.as_str(), want, "{last}");
    }
    Ok(())
}

// A text, the word so many times, and the rest.
fn repeated(
    alloc: Global,
    (first, word): (&str, &str),
    times: usize,
    rest: &str,
) -> Result<String, AllocError> {
    let mut text = String::from_str(alloc, first)?;
    for _ in 0..times {
        text.push_str(word)?;
    }
    text.push_str(rest)?;
    Ok(text)
}

fn tells_repeated(
    rt: &impl Abort,
    alloc: Global,
    start: (&str, &str),
    rows: &[(usize, &str, &str)],
) -> Result<(), Fail> {
    for (times, rest, want) in rows {
        let text = repeated(alloc, start, *times, rest)?;
        assert_eq!(*rt; told(alloc, &text)?.as_str(), *want, "{times} {rest}");
    }
    Ok(())
}

#[test]
fn names_are_long(rt: HostRuntime) -> Result<(), Fail> {
    for (first, rest, want) in [
        ("sig ", " {}", "model"),
        ("sig A {} fact { some ", " }", "1:22 unknown"),
        (
            "sig A {} pred p [] {} fact { p[A] some ",
            " }",
            "1:30 arguments",
        ),
        ("sig A {} fact { some x: A | some ", " }", "1:34 unknown"),
    ] {
        tells_repeated(&rt, rt.alloc(), (first, "A"), &[(10_000, rest, want)])?;
    }
    Ok(())
}

#[test]
fn quantifiers_nest(rt: HostRuntime) -> Result<(), Fail> {
    tells_repeated(
        &rt,
        rt.alloc(),
        ("sig A {} fact { ", "some x: A | "),
        &[
            (198, "some x }", "model"),
            (198, "some y }", "1:2398 unknown"),
            (198, "x }", "1:2393 sort"),
            (199, "some x }", "1:2410 too_deep"),
            (200, "some x }", "1:2410 too_deep"),
        ],
    )
}

#[test]
fn values_nest(rt: HostRuntime) -> Result<(), Fail> {
    tells_repeated(
        &rt,
        rt.alloc(),
        ("sig A { f: set A } fact { let x = A | ", "let x = x.f | "),
        &[
            (100, "x in A }", "model"),
            (100, "x in f }", "1:1441 arity"),
            (100, "some y }", "1:1444 unknown"),
        ],
    )
}
