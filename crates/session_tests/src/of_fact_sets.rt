// Which facts can't all be true under a command.
use crate::known_facts::{Known, facts_known};
use std::alloc::Global;
use std::process::Abort;
use std::test::Fail;

const BUDGET: u64 = 20_000;

// That these facts are needed, and in which cells the scenarios are without each of them.
fn needs(
    rt: &impl Abort,
    alloc: Global,
    text: &str,
    facts: &[usize],
    cells: &[&[u32]],
) -> Result<(), Fail> {
    let facts = Vec::from_slice(alloc, facts)?;
    let mut scenarios = Vec::new(alloc);
    for some in cells {
        scenarios.push(Vec::from_slice(alloc, *some)?)?;
    }
    assert_eq!(rt;
        facts_known(alloc, text, 1, BUDGET)?,
        Known::Needs(facts, scenarios),
        "{text}"
    );
    Ok(())
}

#[test]
fn some_and_none(rt: HostRuntime) -> Result<(), Fail> {
    needs(
        &rt,
        rt.alloc(),
        "sig A {} fact here { some A } fact { no A } fact { lone A } run {} for 2",
        &[1, 2],
        &[&[], &[0]],
    )
}

#[test]
fn nothing_is_needed_where_the_command_contradicts_itself(rt: HostRuntime) -> Result<(), Fail> {
    needs(
        &rt,
        rt.alloc(),
        "sig A {} fact { some A } fact { lone A } run { some A and no A } for 2",
        &[],
        &[],
    )
}

#[test]
fn without_facts_nothing_is_needed(rt: HostRuntime) -> Result<(), Fail> {
    needs(
        &rt,
        rt.alloc(),
        "sig A {} run { some A and no A } for 2",
        &[],
        &[],
    )
}

#[test]
fn one_fact_contradicts_the_command(rt: HostRuntime) -> Result<(), Fail> {
    needs(
        &rt,
        rt.alloc(),
        "sig A {} fact { no A } run { some A } for 2",
        &[1],
        &[&[0]],
    )
}

// of two equal facts the first isn't needed, since the other is there
#[test]
fn of_two_equal_facts_the_later_is_needed(rt: HostRuntime) -> Result<(), Fail> {
    needs(
        &rt,
        rt.alloc(),
        "sig A {} fact { no A } fact { no A } fact { some A } run {} for 2",
        &[2, 3],
        &[&[0], &[]],
    )
}

// the two that exclude each other stand among twelve; when the first of them is tried, that one of the sets has an atom is still
// among the others
#[test]
fn two_of_twelve(rt: HostRuntime) -> Result<(), Fail> {
    needs(
        &rt,
        rt.alloc(),
        "sig A {} sig B {} fact { lone A } fact { } fact { lone B } fact { some A } fact { #B < 3 } fact { A in univ } \
        fact { no A & B } fact { lone univ } fact { B in B } fact { #A < 2 } fact { some B or some A } fact { no A } run {} for 2",
        &[4, 12],
        &[&[2], &[0]],
    )
}

// an order without a largest atom is infinite: what is said of it three facts say together
#[test]
fn three_of_twelve(rt: HostRuntime) -> Result<(), Fail> {
    let text =
        "sig A { f: set A } fact { lone A } fact { } fact { no f } fact { lone f } fact { all a: A | a.f in A } fact { f in A -> A } \
    fact { #A < 3 } fact { no iden & f } fact { some A } fact { A in f.A } fact { f.A in A } fact { no ^f & iden } run {} for 3";
    let Known::Needs(facts, scenarios) = facts_known(rt.alloc(), text, 1, BUDGET)? else {
        return Err("they can all be true")?;
    };
    assert_eq!(&rt; facts.as_slice(), [9, 10, 12].as_slice());
    assert_eq!(&rt; scenarios.len(), 3);
    Ok(())
}

#[test]
fn two_that_leave_no_room(rt: HostRuntime) -> Result<(), Fail> {
    needs(
        &rt,
        rt.alloc(),
        "sig A {} sig B {} fact { some A } fact { A = univ } fact { some B } run {} for 1",
        &[2, 3],
        &[&[1], &[]],
    )
}

#[test]
fn they_can_all_be_true(rt: HostRuntime) -> Result<(), Fail> {
    let text = "sig A {} fact { some A } fact { lone A } run {} for 3";
    let mut cells = Vec::new(rt.alloc());
    cells.push(0)?;
    assert_eq!(&rt;
        facts_known(rt.alloc(), text, 1, BUDGET)?,
        Known::Satisfiable(cells)
    );
    Ok(())
}

#[test]
fn a_spent_budget_names_what_was_searched(rt: HostRuntime) -> Result<(), Fail> {
    let text = "sig A {} fact { some A } fact { no A } run {} for 2";
    let mut facts = Vec::new(rt.alloc());
    facts.push(1)?;
    facts.push(2)?;
    assert_eq!(&rt; facts_known(rt.alloc(), text, 1, 0)?, Known::Spent(facts));
    Ok(())
}

#[test]
fn a_command_without_sizes_is_refused(rt: HostRuntime) -> Result<(), Fail> {
    let text = "sig A {} sig B {} fact { some A } run {} for 2 B";
    assert_eq!(&rt; facts_known(rt.alloc(), text, 1, BUDGET)?, Known::Refused);
    assert_eq!(&rt; facts_known(rt.alloc(), text, 2, BUDGET)?, Known::Refused);
    Ok(())
}
