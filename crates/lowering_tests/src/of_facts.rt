// That a problem has the facts that are asked for.
use crate::counting::{counted, counts};
use std::alloc::Global;
use std::process::Abort;
use std::test::Fail;

// three places of each signature
const FACTS: &str =
    "sig A {} sig B, C {} fact { some A } fact { lone A } fact { no B } run {} for 3";

// Whether there are so many instances with the facts of these numbers.
fn counts_with(rt: &impl Abort, alloc: Global, rows: &[(&[usize], u32)]) -> Result<(), Fail> {
    for (facts, expected) in rows {
        let count = counted(alloc, FACTS, 1, Some(*facts))?;
        assert_eq!(rt; count, *expected);
    }
    Ok(())
}

#[test]
fn all_facts(rt: HostRuntime) -> Result<(), Fail> {
    counts(&rt, rt.alloc(), &[(FACTS, 3 * 1 * 8)])
}

#[test]
fn without_the_third(rt: HostRuntime) -> Result<(), Fail> {
    counts_with(
        &rt,
        rt.alloc(),
        &[
            (&[], 8 * 8 * 8),
            (&[1], 7 * 8 * 8),
            (&[2], 4 * 8 * 8),
            (&[1, 2], 3 * 8 * 8),
        ],
    )
}

#[test]
fn with_the_third(rt: HostRuntime) -> Result<(), Fail> {
    counts_with(
        &rt,
        rt.alloc(),
        &[
            (&[3], 8 * 1 * 8),
            (&[1, 3], 7 * 1 * 8),
            (&[2, 3], 4 * 1 * 8),
            (&[1, 2, 3], 3 * 1 * 8),
        ],
    )
}

// in any order, more than once, and one that isn't there
#[test]
fn odd_numbers(rt: HostRuntime) -> Result<(), Fail> {
    counts_with(
        &rt,
        rt.alloc(),
        &[(&[3, 1, 1], 7 * 1 * 8), (&[4], 8 * 8 * 8)],
    )
}
