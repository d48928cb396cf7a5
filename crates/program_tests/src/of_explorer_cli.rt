// The program over sources and sinks in memory: the expected lines were worked out by hand from what models mean.
use crate::running::{answered, answers, ends, grown, run, served, serves};
use std::alloc::{AllocError, Global};
use std::process::Abort;
use std::sync::Wait;
use std::test::Fail;
use std::thread::Threads;

// Whether sessions on these models show these lines when they are asked twice.
fn shows<R: Threads + Wait + Abort + Sync>(
    rt: &R,
    alloc: Global,
    rows: &[(&str, &str)],
) -> Result<(), Fail> {
    for (model, lines) in rows {
        served(rt, alloc, model, "next\nnext\n", lines)?;
    }
    Ok(())
}

#[test]
fn shows_minimal_scenarios_and_then_an_end(rt: HostRuntime) -> Result<(), Fail> {
    shows(
        &rt,
        rt.alloc(),
        &[
            (
                "sig A {} run { some A } for 2",
                "scenario 1\nA = {A$0}\nend 1\n",
            ),
            ("sig A {} run {} for 2", "scenario 1\nA = {}\nend 1\n"),
            ("sig A {} run { some A && no A } for 1", "end 0\nend 0\n"),
            ("sig A {} run {some A} for 0", "end 0\nend 0\n"),
            ("sig A {} run {} for 0", "scenario 1\nA = {}\nend 1\n"),
            (
                "sig A {} run { some A } for 12",
                "scenario 1\nA = {A$0}\nend 1\n",
            ),
            (
                "sig A {} sig B {} run { some A && one B } for 2",
                "scenario 1\nA = {A$0}\nB = {B$0}\nend 1\n",
            ),
            (
                "run { one B lone C\nno A } for 4 sig A, B, C {}",
                "scenario 1\nA = {}\nB = {B$0}\nC = {}\nend 1\n",
            ),
            (
                "sig A, B {} run { some A and no B }",
                "scenario 1\nA = {A$0}\nB = {}\nend 1\n",
            ),
            (
                "sig A, B, C, D {} run { some D }",
                "scenario 1\nA = {}\nB = {}\nC = {}\nD = {D$0}\nend 1\n",
            ),
            (
                "sig A {} // one {\r\nsig B_2' -- two }\r\n{}/* three\r\n == ** */run { some\tA\r\n no B_2' } for 03",
                "scenario 1\nA = {A$0}\nB_2' = {}\nend 1\n",
            ),
        ],
    )
}

// Whether these models have these faults.
fn refuses<R: Threads + Wait + Abort + Sync>(
    rt: &R,
    alloc: Global,
    rows: &[(&str, &str)],
) -> Result<(), Fail> {
    for (model, fault) in rows {
        let script = format!(in alloc; "== model m_1\n{model}\n== session a m_1 1\nnext\n")?;
        let expected = format!(in alloc; "fault model m_1 {fault}\n")?;
        answered(rt, alloc, &script, 4, &expected)?;
    }
    Ok(())
}

#[test]
fn tells_the_first_fault_of_a_model(rt: HostRuntime) -> Result<(), Fail> {
    refuses(
        &rt,
        rt.alloc(),
        &[
            (
                "sig A {} run { one a, b: A | some a }",
                "1:23 unsupported several",
            ),
            (
                "sig A { f: A lone -> A -> A }",
                "1:14 unsupported arrow_multiplicity",
            ),
            ("sig A {} run { always some A }", "1:16 unsupported always"),
            ("sig A {} /*", "1:10 open_comment"),
            ("sig A {} fact { A ? A }", "1:19 bad_character"),
            ("sig A {} run {} for 1001", "1:21 number_too_large"),
            ("sig A, B {} run { some A & some B }", "1:28 unexpected"),
            ("sig A {}\n\nrun {", "3:6 end_of_text"),
            (
                "// \u{e9}\u{1f600}\n/* \u{e9} */ sig /",
                "2:13 bad_character",
            ),
        ],
    )
}

fn push_copies(text: &mut String, count: u32, piece: &str) -> Result<(), AllocError> {
    for _ in 0..count {
        text.push_str(piece)?;
    }
    Ok(())
}

// A script with a formula in so many brackets.
fn nested(alloc: Global, brackets: u32) -> Result<String, AllocError> {
    let mut script = String::from_str(alloc, "== model m\nsig A {} run { ")?;
    push_copies(&mut script, brackets, "(")?;
    script.push_str("some A")?;
    push_copies(&mut script, brackets, ")")?;
    script.push_str(" }\n== session a m 1\nnext\n")?;
    Ok(script)
}

// 200 constructs nest, the braces of the block and the word that counts among them; under one more the name lies too deep.
#[test]
fn nests_200_deep(rt: HostRuntime) -> Result<(), Fail> {
    let alloc = rt.alloc();
    let (shown, refused) = (nested(alloc, 198)?, nested(alloc, 199)?);
    answered(&rt, alloc, &shown, 0, "== a\nscenario 1\nA = {A$0}\n")?;
    answered(&rt, alloc, &refused, 4, "fault model m 1:220 too_deep\n")
}

#[test]
fn serves_the_sessions_of_a_script(rt: HostRuntime) -> Result<(), Fail> {
    answers(
        &rt,
        rt.alloc(),
        0,
        &[
            ("", ""),
            ("== model m\n", ""),
            ("== model m\nsig A {} run {} for 2\n", ""),
            (
                "== model m\nsig A {} run { some A } for 2\n== session a m 1\nnext\n== session b m 1\nnext\n",
                "== a\nscenario 1\nA = {A$0}\n== b\nscenario 1\nA = {A$0}\n",
            ),
            (
                "== model m\nsig A {} run {} for 2\n== session s_1 m 1\nnext\nnext",
                "== s_1\nscenario 1\nA = {}\nend 1\n",
            ),
            (
                "== model m\nsig A {} run {} for 2\n==  session s_1 m 000001\r\nnext\r\n# all 3\n\n   \n next \n",
                "== s_1\nscenario 1\nA = {}\nend 1\n",
            ),
            (
                "# m\n\n== model m\nsig A {} run {} for 2\n== session s_1 m 1\n",
                "== s_1\n",
            ),
            (
                "== model m\nsig A {} run {} for 2\n== session s_1 m 1\n== session s_2 m 1\nnext\n",
                "== s_1\n== s_2\nscenario 1\nA = {}\n",
            ),
            (
                "== model m\nsig A {} run {} for 2\n== model n\nsig A {} run {}\n== session s_1 m 1\nnext\n",
                "== s_1\nscenario 1\nA = {}\n",
            ),
        ],
    )
}

#[test]
fn serves_each_session_on_its_own_model(rt: HostRuntime) -> Result<(), Fail> {
    answers(
        &rt,
        rt.alloc(),
        0,
        &[
            (
                "== model m\nsig A {} run { some A } for 2\n== model n\nsig B {} run { no B } for 2\n== session b n 1\nnext\n== session a m 1\nnext\n== more b\nnext\nnext\n",
                "== b\nscenario 1\nB = {}\nend 1\nend 1\n== a\nscenario 1\nA = {A$0}\n",
            ),
            (
                "== model m\nsig A, B {} run { one A } for 1\n== session m m 1\nnext\n== model n\nsig A {} run { some A no A }\n== session a n 1\nnext\n== more m\nnext\n",
                "== m\nscenario 1\nA = {A$0}\nB = {}\nend 1\n== a\nend 0\n",
            ),
        ],
    )
}

#[test]
fn tells_the_first_fault_of_a_script(rt: HostRuntime) -> Result<(), Fail> {
    answers(
        &rt,
        rt.alloc(),
        3,
        &[
            ("next", "fault script line 1 stray_text\n"),
            ("== session a q 1", "fault script line 1 unknown_model\n"),
            ("== more z", "fault script line 1 unknown_session\n"),
            ("== modell m", "fault script line 1 bad_directive\n"),
            (
                "== model m\nsig A {} run {} for 2\n== session a m 1\nall 0\n",
                "fault script line 4 bad_number\n",
            ),
            (
                "== model m\nsig A {} run {} for 2\n== session a m 1001\n",
                "fault script line 3 bad_number\n",
            ),
            (
                "== model m\nsig A {} run {} for 2\n== session a m 0000001\nnext\n",
                "fault script line 3 bad_number\n",
            ),
            (
                "== model m\nx\n== session 1s m 1\nnext\n",
                "fault script line 3 bad_directive\n",
            ),
            ("== model m\n\n== model m\n", "fault script line 3 twice\n"),
            (" == model m\n", "fault script line 1 stray_text\n"),
            ("=== x\n", "fault script line 1 bad_directive\n"),
        ],
    )
}

// Whether a script that grew like this has this fault.
fn outgrows<R: Threads + Wait + Abort + Sync>(
    rt: &R,
    alloc: Global,
    front: &str,
    line: (&str, bool, &str),
    count: u32,
    fault: &str,
) -> Result<(), Fail> {
    let script = grown(alloc, front, line, count)?;
    let (status, text) = run(rt, alloc, &script)?;
    let expected = format!(in alloc; "fault script {fault}\n")?;
    assert_eq!(rt; text.as_str(), expected.as_str());
    assert_eq!(rt; status, 3);
    Ok(())
}

// Each script is just above a limit.
#[test]
fn keeps_scripts_to_their_limits(rt: HostRuntime) -> Result<(), Fail> {
    let alloc = rt.alloc();
    let model = "== model m\nsig A {} run {} for 1\n";
    let session = "== model m\nsig A {} run {} for 1\n== session a m 1\n";
    let line = ("== model m", true, "\n");
    outgrows(&rt, alloc, "", line, 17, "line 17 too_many")?;
    let line = ("== session s", true, " m 1\n");
    outgrows(&rt, alloc, model, line, 65, "line 67 too_many")?;
    let line = ("next\n", false, "");
    outgrows(&rt, alloc, session, line, 4097, "line 4100 too_many")?;
    let line = ("all 1000\n", false, "");
    outgrows(&rt, alloc, session, line, 21, "line 24 too_many")
}

#[test]
fn tells_where_a_cut_script_ends(rt: HostRuntime) -> Result<(), Fail> {
    answers(
        &rt,
        rt.alloc(),
        3,
        &[
            ("=", "fault script line 1 stray_text\n"),
            ("== mod", "fault script line 1 bad_directive\n"),
            (
                "== model m\nsig A {} run {} for 2\n== session a m",
                "fault script line 3 bad_directive\n",
            ),
            (
                "== model m\nsig A {} run {} for 2\n== session a m 1\nnex",
                "fault script line 4 bad_directive\n",
            ),
            (
                "== model m\nsig A {} run {} for 2\n== session a m 1\naugment A A$",
                "fault script line 4 bad_directive\n",
            ),
        ],
    )
}

#[test]
fn refuses_the_first_model_that_it_can_t_use(rt: HostRuntime) -> Result<(), Fail> {
    answers(
        &rt,
        rt.alloc(),
        4,
        &[
            (
                "== model m\nopen util/ordering[B] as o sig A {} run {}\n== model n\nsig A {}\n/*\n",
                "fault model m 1:20 unknown\n",
            ),
            (
                "== model m\nsig A {} run {} for 1\n== model n\nsig A {}\n/*\n== session a m 1\nnext\n",
                "fault model n 2:1 open_comment\n",
            ),
            (
                "== model m\nsig A {} run {} for 1\n== model n\nopen util/ordering[A] as o one sig A {}\n== session a m 1\nnext\n",
                "fault model n 1:20 not_plain\n",
            ),
        ],
    )
}

#[test]
fn refuses_the_first_command_that_isn_t_there(rt: HostRuntime) -> Result<(), Fail> {
    answers(
        &rt,
        rt.alloc(),
        4,
        &[
            (
                "== model m\nsig A {} run {}\n== session a m 2\nnext\n",
                "fault model m command 2 no_command\n",
            ),
            (
                "== model m\nsig A {} run {}\n== session a m 1\n== session b m 9\n== session c m 3\n== session d m 1000\n",
                "fault model m command 3 no_command\n",
            ),
            (
                "== model m\nsig A {} run {}\n== model n\nsig\n== session a n 2\n== session b m 7\n",
                "fault model m command 7 no_command\n",
            ),
            (
                "== model m\nsig A {} check {}\n== session a m 2\nnext\n",
                "fault model m command 2 no_command\n",
            ),
            (
                "== model m\nsig A {} run {}\n== model n\nsig A {} run {}\n== session b n 2\n== session a m 3\n",
                "fault model m command 3 no_command\n",
            ),
            (
                "== model m\n\n== session a m 1\n",
                "fault model m command 1 no_command\n",
            ),
        ],
    )
}

#[test]
fn offers_augments_and_goes_back(rt: HostRuntime) -> Result<(), Fail> {
    serves(
        &rt,
        rt.alloc(),
        &[
            (
                "sig A {} run {} for 2",
                "next\noffers\n",
                "scenario 1\nA = {}\noffers 2\nA A$0\nA A$1\n",
            ),
            (
                "sig A {} run {} for 2",
                "next\naugment A A$1\nnext\nnext\nback\nnext\n",
                "scenario 1\nA = {}\naugmented\nscenario 1\nA = {A$1}\nend 1\nback\nend 1\n",
            ),
            (
                "sig A {} run { lone A } for 2",
                "next\naugment A A$0\nnext\noffers\naugment A A$1\n",
                "scenario 1\nA = {}\naugmented\nscenario 1\nA = {A$0}\noffers 0\nrefused no_instance\n",
            ),
            (
                "sig A {} run {} for 2",
                "next\naugment A A$1\nnext\nback\naugment A A$1\nnext\n",
                "scenario 1\nA = {}\naugmented\nscenario 1\nA = {A$1}\nback\naugmented\nend 1\n",
            ),
        ],
    )
}

#[test]
fn refuses_steps_by_name(rt: HostRuntime) -> Result<(), Fail> {
    serves(
        &rt,
        rt.alloc(),
        &[(
            "sig A {} run {} for 2",
            "augment A A$0\noffers\nback\nproof\nnext\naugment A A$7\naugment A A$0\nnext\naugment A A$0\n",
            "refused no_scenario\nrefused no_scenario\nrefused bottom\nrefused no_end\nscenario 1\nA = {}\nrefused unknown_tuple\naugmented\nscenario 1\nA = {A$0}\nrefused present\n",
        )],
    )
}

#[test]
fn lists_all_and_sets_budgets(rt: HostRuntime) -> Result<(), Fail> {
    serves(
        &rt,
        rt.alloc(),
        &[
            (
                "sig A {} run { some A } for 2",
                "all 1\nall 1\n",
                "scenario 1\nA = {A$0}\npartly 1\nlisted 1\nA = {A$0}\nend 1\n",
            ),
            (
                "sig A {} run {} for 2",
                "budget 5\nbudget 100000\nnext\n",
                "budget 5\nbudget 100000\nscenario 1\nA = {}\n",
            ),
        ],
    )
}

// 37 terms a line.
#[test]
fn refuses_too_many_terms(rt: HostRuntime) -> Result<(), Fail> {
    let alloc = rt.alloc();
    let front = "== model m\nsig A {} run {\n";
    let mut script = grown(alloc, front, ("no A\n", false, ""), 7100)?;
    script.push_str("} for 12\n")?;
    ends(&rt, alloc, &["run"], script.as_bytes(), 0, "")?;
    script.push_str("== session b m 3\n== session a m 1\nnext\n")?;
    let expected = "fault model m command 1 too_many_terms\n";
    ends(&rt, alloc, &["run"], script.as_bytes(), 4, expected)
}
