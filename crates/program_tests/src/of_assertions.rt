// The command `assert`: the expected lines were worked out by hand from what models mean.
use crate::running::ends;
use std::alloc::Global;
use std::process::Abort;
use std::sync::Wait;
use std::test::Fail;
use std::thread::Threads;

// Whether these words on scripts of one model each have these lines.
fn decides<R: Threads + Wait + Abort + Sync>(
    rt: &R,
    alloc: Global,
    words: &[&str],
    rows: &[(&str, &str)],
) -> Result<(), Fail> {
    for (model, lines) in rows {
        let script = format!(in alloc; "== model m\n{model}\n")?;
        ends(rt, alloc, words, script.as_bytes(), 0, lines)?;
    }
    Ok(())
}

#[test]
fn an_assertion_holds_or_fails_in_a_minimal_scenario(rt: HostRuntime) -> Result<(), Fail> {
    decides(
        &rt,
        rt.alloc(),
        &["assert"],
        &[
            (
                "sig A {} assert n { no A } check n for 2",
                "model m command 1 fails\nA = {A$0}\n",
            ),
            (
                "sig A {} fact { no A } assert n { no A } check n for 2",
                "model m command 1 holds\n",
            ),
            (
                "sig A { f: set A } assert loose { no f & iden } check loose for 3",
                "model m command 1 fails\nA = {A$0}\nf = {A$0->A$0}\n",
            ),
            (
                "sig A { f: lone A } check { all x: A | lone x.f } for 4",
                "model m command 1 holds\n",
            ),
            ("sig A {} check {} for 2", "model m command 1 holds\n"),
            (
                "sig A {} check { no univ } for 0",
                "model m command 1 holds\n",
            ),
            (
                "one sig A {} fact { no A } check { some A } for 1",
                "model m command 1 holds\n",
            ),
        ],
    )
}

// Commands keep their numbers, and only those with `check` are taken.
#[test]
fn each_check_is_decided_in_order(rt: HostRuntime) -> Result<(), Fail> {
    decides(
        &rt,
        rt.alloc(),
        &["assert"],
        &[
            (
                "sig A {} assert n { no A } assert s { some A } check n for 2 run {} check s for 2 check { lone A } for 1",
                "model m command 1 fails\nA = {A$0}\nmodel m command 3 fails\nA = {}\nmodel m command 4 holds\n",
            ),
            ("sig A {} run {} for 2", ""),
            ("sig A {} run { some A } for 1 run {}", ""),
            (
                "sig A {} assert n { no A } check n for 0 check n for 1",
                "model m command 1 holds\nmodel m command 2 fails\nA = {A$0}\n",
            ),
        ],
    )
}

// The last step of a proof is a novel one, so a budget of none decides nothing here.
#[test]
fn a_budget_may_be_spent(rt: HostRuntime) -> Result<(), Fail> {
    let model = "sig A {} fact { no A } assert n { no A } check n for 2";
    let rows: [(&[&str], &str); 3] = [
        (&["assert", "--budget", "0"], "model m command 1 spent 0\n"),
        (&["assert", "--budget=1"], "model m command 1 holds\n"),
        (
            &["assert", "--budget", "100000"],
            "model m command 1 holds\n",
        ),
    ];
    for (words, lines) in rows {
        decides(&rt, rt.alloc(), words, &[(model, lines)])?;
    }
    Ok(())
}

// Whether `assert` on these scripts has these statuses and outputs.
fn answers<R: Threads + Wait + Abort + Sync>(
    rt: &R,
    alloc: Global,
    rows: &[(&str, u8, &str)],
) -> Result<(), Fail> {
    for (script, status, expected) in rows {
        ends(rt, alloc, &["assert"], script.as_bytes(), *status, expected)?;
    }
    Ok(())
}

#[test]
fn models_are_decided_in_order_whatever_the_sessions(rt: HostRuntime) -> Result<(), Fail> {
    answers(
        &rt,
        rt.alloc(),
        &[
            ("", 0, ""),
            (
                "== model m\nsig A {} check { lone A } for 1\n== model n\nsig B {} check { no B } for 1 check { lone B }\n",
                0,
                "model m command 1 holds\nmodel n command 1 fails\nB = {B$0}\nmodel n command 2 fails\nB = {B$0, B$1}\n",
            ),
            (
                "== model m\nsig A {} check { no A } for 1\n== session a m 7\nnext\nall 3\n",
                0,
                "model m command 1 fails\nA = {A$0}\n",
            ),
            (
                "== model m\nsig A {} sig B {} run { no A } for 2 B\n== session a m 1\nnext\n",
                0,
                "",
            ),
        ],
    )
}

// Nothing is decided before each model is read and each `check` command is lowered.
#[test]
fn the_first_model_that_cannot_be_used_is_told_alone(rt: HostRuntime) -> Result<(), Fail> {
    answers(
        &rt,
        rt.alloc(),
        &[
            (
                "== model m\nsig A {} sig B {} check { no A } for 2 B\n",
                4,
                "fault model m command 1 no_scope\n",
            ),
            (
                "== model m\nsig A {} check { no A } for 1\n== model n\nsig A { f: A\n",
                4,
                "fault model n 1:13 end_of_text\n",
            ),
            (
                "== model m\nsig A {} sig B {} check { no A } for 2 check { no B } for 2 B check { no B } for 2 A\n== model n\nsig A {\n",
                4,
                "fault model m command 2 no_scope\n",
            ),
            ("next\n", 3, "fault script line 1 stray_text\n"),
            (
                "== session a m 1\n",
                3,
                "fault script line 1 unknown_model\n",
            ),
        ],
    )
}

#[test]
fn assert_takes_a_budget_alone(rt: HostRuntime) -> Result<(), Fail> {
    let rows: [&[&str]; 8] = [
        &["assert", "--workers", "2"],
        &["assert", "--workers=2", "--budget", "5"],
        &["assert", "3"],
        &["assert", "--budget"],
        &["assert", "--budget", "100001"],
        &["assert", "--budget", "0", "--budget", "0"],
        &["assert", "--budget=-1"],
        &["assert", "check"],
    ];
    for words in rows {
        ends(&rt, rt.alloc(), words, b"== model m\n", 2, "fault words\n")?;
    }
    Ok(())
}
