// Proof texts that were worked out by hand.
use refutation_check::{ProofFault, Scratch, Verdict, check, read_proof, write_proof};
use std::alloc::Global;
use std::process::Abort;
use std::test::Fail;

// What reading a text gives: its fault, or how many variables, clauses and steps it has.
fn read(alloc: Global, text: &[u8]) -> Result<(u32, u32, usize), ProofFault> {
    let (formula, log) = read_proof(alloc, text)?;
    Ok((formula.vars(), formula.len(), log.steps().len()))
}

// That these texts are read, and have so many.
fn are_read(rt: &impl Abort, alloc: Global, rows: &[(&str, (u32, u32, usize))]) {
    for (text, found) in rows {
        assert_eq!(rt; read(alloc, text.as_bytes()), Ok(*found), "{text}");
    }
}

#[test]
fn texts_are_read(rt: HostRuntime) {
    are_read(
        &rt,
        rt.alloc(),
        &[
            ("", (0, 0, 0)),
            ("\n\n", (0, 0, 0)),
            ("   \n \r\n", (0, 0, 0)),
            ("c 0", (0, 1, 0)),
            ("c 1 -2 0\ns 2 0 1 0\n", (2, 1, 1)),
            ("  c   1 1 -3  1 0  \r\n\r\nc -1 0", (3, 2, 0)),
            ("s 0 0\ns 0 7 7 0\n", (0, 0, 2)),
            ("c 1 0\ns -2147483647 0 0\n", (2_147_483_647, 1, 1)),
            ("c 2147483647 0\n", (2_147_483_647, 1, 0)),
            ("s 0 2147483647 0\n", (0, 0, 1)),
            ("c -2 0\nc 1 0\ns 1 0 1 0\n\n \ns 0 0", (2, 2, 2)),
        ],
    );
}

// That a text has this fault.
fn is_refused(rt: &impl Abort, alloc: Global, text: &str, fault: ProofFault) {
    assert_eq!(rt; read(alloc, text.as_bytes()), Err(fault), "{text}");
}

// That the lines of these numbers are the first that are no clause and no step.
fn have_bad_lines(rt: &impl Abort, alloc: Global, rows: &[(&str, u32)]) {
    for (text, line) in rows {
        is_refused(rt, alloc, text, ProofFault::BadLine { line: *line });
    }
}

#[test]
fn lines_with_no_end_or_too_much_are_refused(rt: HostRuntime) {
    have_bad_lines(
        &rt,
        rt.alloc(),
        &[
            ("c 1 0\ns 1 0 1", 2),
            ("c 1", 1),
            ("c", 1),
            ("c 1 0 0", 1),
            ("c 0 1 0", 1),
            ("s 1 0", 1),
            ("s 1 0 1 0 0", 1),
            ("s 0 -1 0", 1),
            ("s 0 0\nc 0", 2),
            ("\nc 2147483648 0 0", 2),
        ],
    );
}

#[test]
fn other_spellings_are_refused(rt: HostRuntime) {
    have_bad_lines(
        &rt,
        rt.alloc(),
        &[
            ("c 01 0", 1),
            ("c 00", 1),
            ("c +1 0", 1),
            ("c --1 0", 1),
            ("c - 0", 1),
            ("c -0 0", 1),
            ("c -01 0", 1),
            ("c 1a 0", 1),
            ("c1 0", 1),
            ("C 1 0", 1),
            ("c\t1 0", 1),
            ("c 1 0\r\r\n", 1),
            ("c 1 0\r", 1),
            ("c 1 é 0\n", 1),
            ("# c\n", 1),
        ],
    );
}

#[test]
fn tautologies_are_refused(rt: HostRuntime) {
    let in_first = ProofFault::Tautology { line: 1 };
    is_refused(&rt, rt.alloc(), "c 1 -1 0", in_first);
    is_refused(&rt, rt.alloc(), "c 3 -1 2 1 0\nx", in_first);
    let in_third = ProofFault::Tautology { line: 3 };
    is_refused(&rt, rt.alloc(), "\n\ns 2 -2 0 0", in_third);
}

#[test]
fn numbers_that_are_too_large_are_refused(rt: HostRuntime) {
    let fault = ProofFault::NumberTooLarge { line: 1 };
    is_refused(&rt, rt.alloc(), "c 2147483648 0", fault);
    is_refused(&rt, rt.alloc(), "c 2147483648 -2147483648 0\nc", fault);
}

// A line, and then one with a number of a hundred digits.
fn with_long_number(alloc: Global) -> Result<Vec<u8>, Fail> {
    let mut text = Vec::from_slice(alloc, b"c 0\nc ")?;
    text.resize(106, b'9')?;
    text.extend_from_slice(b" 0\n")?;
    Ok(text)
}

// A line, and then one with half a million numbers.
fn with_long_line(alloc: Global) -> Result<Vec<u8>, Fail> {
    let mut text = Vec::from_slice(alloc, b"c 0\nc ")?;
    for _ in 0..250_000 {
        text.extend_from_slice(b"7 12 ")?;
    }
    text.extend_from_slice(b"0\n")?;
    Ok(text)
}

#[test]
fn long_numbers_and_lines_are_read(rt: HostRuntime) -> Result<(), Fail> {
    let text = with_long_number(rt.alloc())?;
    let fault = ProofFault::NumberTooLarge { line: 2 };
    assert_eq!(rt; read(rt.alloc(), &text), Err(fault));
    let text = with_long_line(rt.alloc())?;
    assert_eq!(rt; read(rt.alloc(), &text), Ok((12, 2, 0)));
    Ok(())
}

// The text that is written of what a text says.
fn rewritten(alloc: Global, text: &[u8]) -> Result<Vec<u8>, Fail> {
    let (formula, log) = read_proof(alloc, text)?;
    Ok(write_proof(alloc, &formula, &log)?)
}

// What the check says of a text.
fn verdict_of(alloc: Global, text: &[u8]) -> Result<Verdict, Fail> {
    let (formula, log) = read_proof(alloc, text)?;
    let mut scratch = Scratch::for_vars(alloc, formula.vars())?;
    Ok(check(&formula, &log, &mut scratch))
}

#[test]
fn what_is_written_is_read_again(rt: HostRuntime) -> Result<(), Fail> {
    let text = b"c 2 1 2 0\n\nc 1 -2 0\r\nc -1 2 0\nc -1   -2 0\n s 1 0 1 2 0\ns 0 5 3 4 0";
    let lines = b"c 1 2 0\nc 1 -2 0\nc -1 2 0\nc -1 -2 0\ns 1 0 1 2 0\ns 0 5 3 4 0\n";
    let written = rewritten(rt.alloc(), text)?;
    assert_eq!(rt; written.as_slice(), lines.as_slice());
    assert_eq!(rt; verdict_of(rt.alloc(), &written)?, Verdict::Accepted);
    Ok(())
}
