// 200 constructs nest, and not one more.
use crate::reading::told;
use std::alloc::{AllocError, Global};
use std::process::Abort;
use std::test::Fail;

fn push_copies(text: &mut String, count: u32, piece: &str) -> Result<(), AllocError> {
    for _ in 0..count {
        text.push_str(piece)?;
    }
    Ok(())
}

// So many copies of two pieces round a third.
fn nested(
    alloc: Global,
    count: u32,
    (opening, inner, closing): (&str, &str, &str),
) -> Result<String, AllocError> {
    let mut text = String::new(alloc);
    push_copies(&mut text, count, opening)?;
    text.push_str(inner)?;
    push_copies(&mut text, count, closing)?;
    Ok(text)
}

// What is told of so many copies of two pieces round a third, in the second line of a paragraph with this front and back.
fn told_nested(
    alloc: Global,
    (front, back): (&str, &str),
    count: u32,
    pieces: (&str, &str, &str),
) -> Result<String, Fail> {
    let text = nested(alloc, count, pieces)?;
    told(alloc, &format!(in alloc; "{front}\n{text}{back}")?)
}

// What a fact with so many copies of two pieces round a third is.
fn nests(
    rt: &impl Abort,
    alloc: Global,
    rows: &[(u32, (&str, &str, &str), &str)],
) -> Result<(), Fail> {
    for (count, pieces, expected) in rows {
        let found = told_nested(alloc, ("fact {", "}"), *count, *pieces)?;
        assert_eq!(*rt; found.as_str(), *expected);
    }
    Ok(())
}

#[test]
fn brackets_nest_200_deep(rt: HostRuntime) -> Result<(), Fail> {
    nests(
        &rt,
        rt.alloc(),
        &[
            (199, ("(", "a", ")"), "model"),
            (200, ("(", "a", ")"), "2:201 too_deep"),
            (201, ("(", "a", ")"), "2:201 too_deep"),
            (200, ("(", "]", ")"), "2:201 unexpected"),
            (
                200,
                ("(", "{ x: A | p }", ")"),
                "2:201 unsupported comprehension",
            ),
            (200, ("f[", "", "]"), "model"),
            (201, ("f[", "", "]"), "2:401 too_deep"),
            (200, ("{", "", "}"), "model"),
            (201, ("{", "", "}"), "2:201 too_deep"),
        ],
    )
}

#[test]
fn prefixes_and_formulas_nest_200_deep(rt: HostRuntime) -> Result<(), Fail> {
    nests(
        &rt,
        rt.alloc(),
        &[
            (199, ("!", "a", ""), "model"),
            (200, ("!", "a", ""), "2:201 too_deep"),
            (199, ("some x: A | ", "a", ""), "model"),
            (200, ("some x: A | ", "a", ""), "2:2394 too_deep"),
            (199, ("a => ", "a", ""), "model"),
            (200, ("a => ", "a", ""), "2:1001 too_deep"),
            (199, ("#", "a", ""), "model"),
            (200, ("~", "a", ""), "2:201 too_deep"),
        ],
    )
}

// What is told of so many brackets round a name in a paragraph.
fn told_brackets(alloc: Global, around: (&str, &str), count: u32) -> Result<String, Fail> {
    told_nested(alloc, around, count, ("(", "a", ")"))
}

// Whether so many brackets may stand in a paragraph.
fn may_nest(rt: &impl Abort, alloc: Global, around: (&str, &str), count: u32) -> Result<(), Fail> {
    let found = told_brackets(alloc, around, count)?;
    assert_eq!(*rt; found.as_str(), "model", "{}", around.0);
    Ok(())
}

// Whether the last of so many brackets is refused.
fn may_not_nest(
    rt: &impl Abort,
    alloc: Global,
    around: (&str, &str),
    count: u32,
) -> Result<(), Fail> {
    let found = told_brackets(alloc, around, count)?;
    let column = count.saturating_add(1);
    let expected = format!(in alloc; "2:{column} too_deep")?;
    assert_eq!(*rt; found.as_str(), expected.as_str(), "{}", around.0);
    Ok(())
}

// Whether so many brackets may stand in these paragraphs, and so many may not.
fn counts_brackets(
    rt: &impl Abort,
    alloc: Global,
    rows: &[((&str, &str), u32, u32)],
) -> Result<(), Fail> {
    for (around, most, too_many) in rows {
        may_nest(rt, alloc, *around, *most)?;
        may_not_nest(rt, alloc, *around, *too_many)?;
    }
    Ok(())
}

#[test]
fn counts_the_brackets_of_paragraphs(rt: HostRuntime) -> Result<(), Fail> {
    counts_brackets(
        &rt,
        rt.alloc(),
        &[
            (("run {", "}"), 199, 200),
            (("fact {", "}"), 199, 200),
            (("sig A { f:", "}"), 199, 200),
            (("pred p [x:", "] {}"), 199, 200),
            (("pred p (x:", ") {}"), 199, 200),
            (("fun f:", "{ a }"), 200, 201),
            (("fun f: A {", "}"), 199, 200),
        ],
    )
}
