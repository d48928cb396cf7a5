// The command `facts`: the expected lines were worked out by hand; each model has one set of facts that is told.
use crate::running::ends;
use std::alloc::Global;
use std::process::Abort;
use std::sync::Wait;
use std::test::Fail;
use std::thread::Threads;

// Whether `facts` on scripts of one model each has these statuses and outputs.
fn finds<R: Threads + Wait + Abort + Sync>(
    rt: &R,
    alloc: Global,
    words: &[&str],
    rows: &[(&str, u8, &str)],
) -> Result<(), Fail> {
    for (model, status, lines) in rows {
        let script = format!(in alloc; "== model m\n{model}\n")?;
        ends(rt, alloc, words, script.as_bytes(), *status, lines)?;
    }
    Ok(())
}

#[test]
fn facts_that_cannot_all_be_true_are_told(rt: HostRuntime) -> Result<(), Fail> {
    finds(
        &rt,
        rt.alloc(),
        &["facts"],
        &[
            (
                "sig A {} run {} for 2",
                0,
                "model m command 1 satisfiable\n",
            ),
            (
                "sig A {} fact here { some A } fact { no A } run {} for 2",
                0,
                "model m command 1 needs 2\nfact 1 here\nfact 2\n",
            ),
            (
                "sig A {} fact { lone A } fact two { #A > 1 } fact { some A } run {} for 2",
                0,
                "model m command 1 needs 2\nfact 1\nfact 2 two\n",
            ),
            (
                "sig A {} fact { lone A } run { some A && no A } for 2",
                0,
                "model m command 1 needs 0\n",
            ),
            (
                "sig A {} fact none_there { no A } run { some A } for 2",
                0,
                "model m command 1 needs 1\nfact 1 none_there\n",
            ),
        ],
    )
}

// Commands keep their numbers, and only those with `run` are taken.
#[test]
fn each_run_is_asked_in_order(rt: HostRuntime) -> Result<(), Fail> {
    finds(
        &rt,
        rt.alloc(),
        &["facts"],
        &[
            ("sig A {} check { no A } for 1", 0, ""),
            (
                "sig A {} fact { some A } run {} for 0 check { no A } for 1 run {} for 1",
                0,
                "model m command 1 needs 1\nfact 1\nmodel m command 3 satisfiable\n",
            ),
            ("sig A {} sig B {} check { no A } for 2 B", 0, ""),
            (
                "sig A {} sig B {} run {} for 2 B",
                4,
                "fault model m command 1 no_scope\n",
            ),
        ],
    )
}

// The last step of a proof is a novel one, so a budget of none finds no proof here.
#[test]
fn a_budget_for_facts_may_be_spent(rt: HostRuntime) -> Result<(), Fail> {
    let model = "sig A {} fact { some A } fact { no A } run {} for 2";
    let rows: [(&[&str], &str); 2] = [
        (&["facts", "--budget", "0"], "model m command 1 spent 0\n"),
        (
            &["facts", "--budget=100000"],
            "model m command 1 needs 2\nfact 1\nfact 2\n",
        ),
    ];
    for (words, lines) in rows {
        finds(&rt, rt.alloc(), words, &[(model, 0, lines)])?;
    }
    Ok(())
}
