// Proof texts that are checked, and those that sessions print: the expected lines were worked out by hand.
use crate::running::{ends, explored, run};
use std::alloc::Global;
use std::process::Abort;
use std::sync::Wait;
use std::test::Fail;
use std::thread::Threads;

// Whether the word `check` has this status and this line for a proof text.
fn checks<R: Threads + Wait + Abort + Sync>(
    rt: &R,
    alloc: Global,
    text: &str,
    status: u8,
    line: &str,
) -> Result<(), Fail> {
    ends(rt, alloc, &["check"], text.as_bytes(), status, line)
}

// The same of a square of clauses and a step, between these lines.
fn checks_square<R: Threads + Wait + Abort + Sync>(
    rt: &R,
    alloc: Global,
    (first, last): (&str, &str),
    status: u8,
    line: &str,
) -> Result<(), Fail> {
    let square = "c 1 2 0\nc 1 -2 0\nc -1 2 0\nc -1 -2 0\ns 1 0 1 2 0\n";
    let text = format!(in alloc; "{first}{square}{last}")?;
    checks(rt, alloc, &text, status, line)
}

#[test]
fn checks_proofs(rt: HostRuntime) -> Result<(), Fail> {
    let alloc = rt.alloc();
    checks_square(&rt, alloc, ("", "s 0 5 3 4 0\n"), 0, "accepted\n")?;
    checks_square(
        &rt,
        alloc,
        ("", "s 0 3 4 0\n"),
        1,
        "refused step 2 hint 1\n",
    )?;
    checks_square(&rt, alloc, ("", ""), 1, "no empty clause\n")?;
    checks(&rt, alloc, "", 1, "no empty clause\n")?;
    checks(&rt, alloc, "s 1 0 0\n", 1, "refused step 1 hint 0\n")?;
    checks(&rt, alloc, "s 1 0 2 0\n", 1, "refused step 1 hint 1\n")
}

#[test]
fn checks_proofs_over_few_large_variables(rt: HostRuntime) -> Result<(), Fail> {
    let alloc = rt.alloc();
    let one = "c 2147483647 0\n";
    checks(&rt, alloc, one, 1, "no empty clause\n")?;
    let both = "c 2147483647 0\nc -2147483647 0\ns 0 1 2 0\n";
    checks(&rt, alloc, both, 0, "accepted\n")?;
    let chain = "c -7 2147483647 0\nc -2147483647 9 0\ns -7 9 0 1 2 0\ns 0 3 0\n";
    checks(&rt, alloc, chain, 1, "refused step 2 hint 1\n")?;
    let square = "c 7 2147483647 0\nc 7 -2147483647 0\nc -7 2147483647 0\nc -7 -2147483647 0\n";
    let text = format!(in alloc; "{square}s 7 0 1 2 0\ns 0 5 3 4 0\n")?;
    checks(&rt, alloc, &text, 0, "accepted\n")?;
    let text = format!(in alloc; "{square}s 7 0 1 3 0\ns 0 5 3 4 0\n")?;
    checks(&rt, alloc, &text, 1, "refused step 1 hint 2\n")
}

#[test]
fn checks_a_million_clauses_of_one_literal(rt: HostRuntime) -> Result<(), Fail> {
    let alloc = rt.alloc();
    let mut text = String::new(alloc);
    for _ in 0..1_000_000 {
        text.push_str("c 1 0\n")?;
    }
    text.push_str("c -1 0\ns 0 1000000 1000001 0\n")?;
    checks(&rt, alloc, &text, 0, "accepted\n")
}

#[test]
fn tells_faults_of_proof_texts(rt: HostRuntime) -> Result<(), Fail> {
    let alloc = rt.alloc();
    let tautology = "fault proof line 1 tautology\n";
    checks_square(&rt, alloc, ("c 1 -1 0\n", "s 0 5 3 4 0\n"), 3, tautology)?;
    checks_square(
        &rt,
        alloc,
        ("", "s 0 5 3 4"),
        3,
        "fault proof line 6 bad_line\n",
    )
}

#[test]
fn tells_what_failed_of_proof_texts(rt: HostRuntime) -> Result<(), Fail> {
    let alloc = rt.alloc();
    let (found, written) = explored(&rt, alloc, &["check"], b"c 0\ns 0 1 0\n", &[2], &[])?;
    assert_eq!(rt; (found, written.as_str()), (5, ""));
    let (found, written) = explored(&rt, alloc, &["check"], b"c 0 \ns 0 1 0\n", &[], &[1])?;
    assert_eq!(rt; (found, written.as_str()), (6, ""));
    Ok(())
}

// The lines before a proof, how many lines it is said to have, and the proof.
fn parts_of(text: &str) -> Option<(&str, &str, &str)> {
    let (front, behind) = text.split_once("proof ")?;
    let (count, proof) = behind.split_once("\n")?;
    Some((front, count, proof))
}

// Whether a text has as many lines as are said.
fn has_lines(alloc: Global, text: &str, count: &str) -> Result<bool, Fail> {
    let number = format!(in alloc; "{}", text.lines().count())?;
    Ok(number.as_str() == count)
}

// Whether a text is these lines, and a proof that the program accepts behind them.
fn ends_in_proof<R: Threads + Wait + Abort + Sync>(
    rt: &R,
    alloc: Global,
    text: &str,
    lines: &str,
) -> Result<(), Fail> {
    let Some((front, count, proof)) = parts_of(text) else {
        return Ok(assert!(rt; false));
    };
    assert_eq!(rt; front, lines);
    assert!(rt; has_lines(alloc, proof, count)?);
    checks(rt, alloc, proof, 0, "accepted\n")
}

// Whether a session on this model has these lines of output and then a proof.
fn prints_proof<R: Threads + Wait + Abort + Sync>(
    rt: &R,
    alloc: Global,
    model: &str,
    commands: &str,
    lines: &str,
) -> Result<(), Fail> {
    let script = format!(in alloc; "== model m\n{model}\n== session a m 1\n{commands}proof\n")?;
    let expected = format!(in alloc; "== a\n{lines}")?;
    let (status, text) = run(rt, alloc, &script)?;
    assert_eq!(rt; status, 0);
    ends_in_proof(rt, alloc, &text, &expected)
}

#[test]
fn prints_proofs_that_check_accepts(rt: HostRuntime) -> Result<(), Fail> {
    let alloc = rt.alloc();
    let model = "sig A {} run { some A && no A } for 1";
    prints_proof(&rt, alloc, model, "next\n", "end 0\n")?;
    let model = "sig A {} run {} for 2";
    let lines = "scenario 1\nA = {}\nend 1\n";
    prints_proof(&rt, alloc, model, "next\nnext\n", lines)
}
