// What the paragraphs of a text declare, and the names and numbers of facts and commands.
use crate::reading::named;
use named_model::Named;
use named_model::named::Part;
use std::alloc::Global;
use std::process::Abort;
use std::test::Fail;

// What a paragraph declares: a word and its numbers.
fn shown(part: Part) -> (&'static str, usize, usize) {
    match part {
        Part::Fields(from, count) => ("fields", from, count),
        Part::Fact(number) => ("fact", number, 1),
        Part::Callee(number) => ("callee", number, 1),
        Part::Assertion(number) => ("assertion", number, 1),
        Part::Command(number) => ("command", number, 1),
    }
}

// What the paragraph of that number, from 0, declares.
fn part(alloc: Global, number: usize) -> (&'static str, usize, usize) {
    let text =
        "sig A, B { f, g: A } fact {} sig C { h: A } pred p {} fact {} fun q: A { A } assert a {} run {}";
    match named(alloc, text) {
        Some(model) => part_at(&model, number),
        None => ("no model", 0, 0),
    }
}

fn part_at(model: &Named, number: usize) -> (&'static str, usize, usize) {
    match model.parts.get(number) {
        Some(part) => shown(*part),
        None => ("no part", 0, 0),
    }
}

fn tells_parts(
    rt: &impl Abort,
    alloc: Global,
    rows: &[(usize, (&str, usize, usize))],
) -> Result<(), Fail> {
    for (number, want) in rows {
        let found = part(alloc, *number);
        assert_eq!(*rt; found, *want, "{number}");
    }
    Ok(())
}

#[test]
fn each_paragraph_has_its_part(rt: HostRuntime) -> Result<(), Fail> {
    tells_parts(
        &rt,
        rt.alloc(),
        &[
            (0, ("fields", 0, 4)),
            (1, ("fact", 0, 1)),
            (2, ("fields", 4, 1)),
            (3, ("callee", 0, 1)),
            (4, ("fact", 1, 1)),
            (5, ("callee", 1, 1)),
            (6, ("assertion", 0, 1)),
            (7, ("command", 0, 1)),
            (8, ("no part", 0, 0)),
        ],
    )
}

const FACTS: &str = "fact {} fact a {} fact {} run {} assert b {} check b";

// Whether the fact of that number has this name, or none where this is empty.
fn is_named(alloc: Global, number: u32, name: &str) -> bool {
    match named(alloc, FACTS) {
        Some(model) => is_fact_named(&model, number, name),
        None => false,
    }
}

fn is_fact_named(model: &Named, number: u32, name: &str) -> bool {
    match model.fact_name(number) {
        Some(found) => found.text() == name,
        None => name.is_empty(),
    }
}

fn tells_names(rt: &impl Abort, alloc: Global, rows: &[(u32, &str)]) -> Result<(), Fail> {
    for (number, name) in rows {
        let found = is_named(alloc, *number, name);
        assert!(*rt; found, "{number}");
    }
    Ok(())
}

#[test]
fn facts_have_their_names(rt: HostRuntime) -> Result<(), Fail> {
    tells_names(
        &rt,
        rt.alloc(),
        &[(0, ""), (1, ""), (2, "a"), (3, ""), (4, ""), (u32::MAX, "")],
    )
}

// How many facts and commands there are, and whether the command of that number checks.
fn counted(alloc: Global, number: u32) -> (u32, u32, bool) {
    match named(alloc, FACTS) {
        Some(model) => counts_with_check(&model, number),
        None => (999, 999, false),
    }
}

fn counts_with_check(model: &Named, number: u32) -> (u32, u32, bool) {
    (model.facts(), model.commands(), model.is_check(number))
}

fn tells_checks(rt: &impl Abort, alloc: Global, rows: &[(u32, bool)]) -> Result<(), Fail> {
    for (number, checks) in rows {
        let found = counted(alloc, *number);
        assert_eq!(*rt; found, (3, 2, *checks), "{number}");
    }
    Ok(())
}

#[test]
fn facts_and_commands_are_counted_from_1(rt: HostRuntime) -> Result<(), Fail> {
    tells_checks(
        &rt,
        rt.alloc(),
        &[(0, false), (1, false), (2, true), (3, false)],
    )
}
