// Lists by classes: the expected lines were worked out by hand, and how many graphs of some kinds there are up to renaming is known.
use crate::running::{ends, explored};
use std::alloc::Global;
use std::process::Abort;
use std::sync::Wait;
use std::test::Fail;
use std::thread::Threads;

// Whether a session on this model that is given these commands has these lines of output under `distinct`.
fn tells<R: Threads + Wait + Abort + Sync>(
    rt: &R,
    alloc: Global,
    model: &str,
    commands: &str,
    lines: &str,
) -> Result<(), Fail> {
    let script = format!(in alloc; "== model m\n{model}\n== session a m 1\n{commands}")?;
    let expected = format!(in alloc; "== a\n{lines}")?;
    ends(rt, alloc, &["distinct"], script.as_bytes(), 0, &expected)
}

// Whether these scripts are refused under `distinct` with these lines.
fn refuses<R: Threads + Wait + Abort + Sync>(
    rt: &R,
    alloc: Global,
    rows: &[(&str, &str)],
) -> Result<(), Fail> {
    for (script, line) in rows {
        ends(rt, alloc, &["distinct"], script.as_bytes(), 4, line)?;
    }
    Ok(())
}

// The last line that this word writes for a list of the model's first command.
fn last_line<R: Threads + Wait + Abort + Sync>(
    rt: &R,
    alloc: Global,
    word: &str,
    model: &str,
) -> Result<String, Fail> {
    let script = format!(in alloc; "== model m\n{model}\n== session a m 1\nall 1000\n")?;
    let (_, text) = explored(rt, alloc, &[word], script.as_bytes(), &[], &[])?;
    let line = text.lines().last().unwrap_or("nothing");
    Ok(String::from_str(alloc, line)?)
}

// Whether the lists of these models end with these lines, whole and by classes.
fn counts<R: Threads + Wait + Abort + Sync>(
    rt: &R,
    alloc: Global,
    rows: &[(&str, &str, &str)],
) -> Result<(), Fail> {
    for (model, whole, by_class) in rows {
        let line = last_line(rt, alloc, "run", model)?;
        assert_eq!(rt; line.as_str(), *whole, "{model}");
        let line = last_line(rt, alloc, "distinct", model)?;
        assert_eq!(rt; line.as_str(), *by_class, "{model}");
    }
    Ok(())
}

#[test]
fn one_of_each_class_is_told(rt: HostRuntime) -> Result<(), Fail> {
    let alloc = rt.alloc();
    tells(
        &rt,
        alloc,
        "sig A { f: set A } run { some disj a, b, c: A | a->b + b->c in f } for exactly 3 A",
        "all 10\n",
        "class 1\nA = {A$0, A$1, A$2}\nf = {A$0->A$1, A$1->A$2}\nclasses 1\n",
    )?;
    tells(
        &rt,
        alloc,
        "sig A { f: set A } run { some f } for 2",
        "all 10\n",
        "class 1\nA = {A$0, A$1}\nf = {A$0->A$1}\nclass 2\nA = {A$0}\nf = {A$0->A$0}\nclasses 2\n",
    )?;
    tells(
        &rt,
        alloc,
        "sig A {} run { #A > 3 } for 3",
        "all 10\n",
        "classes 0\n",
    )
}

#[test]
fn other_replies_are_as_under_run(rt: HostRuntime) -> Result<(), Fail> {
    let alloc = rt.alloc();
    tells(
        &rt,
        alloc,
        "sig A {} run { some A } for 2",
        "all 1\nnext\nall 10\nback\n",
        "scenario 1\nA = {A$0}\npartly 1\nend 1\nclass 1\nA = {A$0}\nclasses 1\nrefused bottom\n",
    )?;
    tells(
        &rt,
        alloc,
        "sig P { h: one Q } sig Q {} run { all disj p, q: P | p.h != q.h } for exactly 3 P, exactly 2 Q",
        "budget 0\nall 10\nbudget 20000\nall 10\n",
        "budget 0\nrefused spent 0\nbudget 20000\nclasses 0\n",
    )
}

#[test]
fn lists_above_the_bottom_are_whole(rt: HostRuntime) -> Result<(), Fail> {
    tells(
        &rt,
        rt.alloc(),
        "sig A {} run { some A implies #A > 1 } for 3",
        "next\naugment A A$1\nall 10\nback\nall 10\n",
        "scenario 1\nA = {}\naugmented\nlisted 1\nA = {A$0, A$1}\nlisted 2\nA = {A$1, A$2}\nend 2\nback\nclass 1\nA = {}\nclasses 1\n",
    )
}

#[test]
fn classes_are_counted(rt: HostRuntime) -> Result<(), Fail> {
    counts(
        &rt,
        rt.alloc(),
        &[
            (
                "sig A { f: set A } run { no iden & ^f all disj a, b: A | a->b in ^f or b->a in ^f } for exactly 4 A",
                "end 3",
                "classes 1",
            ),
            (
                "sig A { f: set A } run { all disj a, b: A | a->b in f or b->a in f } for exactly 4 A",
                "end 11",
                "classes 4",
            ),
            (
                "sig A { f: set A } run { all disj a, b: A | a->b in f or b->a in f } for exactly 5 A",
                "end 65",
                "classes 12",
            ),
            (
                "sig A { f: set A } run { #f > 2 } for exactly 5 A",
                "end 70",
                "classes 36",
            ),
            (
                "sig A { f: set A } run { all a: A | some a.f some A } for exactly 4 A",
                "end 41",
                "classes 19",
            ),
            (
                "sig Name, Addr {} sig Book { addr: Name -> lone Addr } pred show [b: Book] { #b.addr > 2 } run show for 4 but 1 Book",
                "end 4",
                "classes 3",
            ),
        ],
    )
}

#[test]
fn problems_with_many_renamings_are_refused(rt: HostRuntime) -> Result<(), Fail> {
    let alloc = rt.alloc();
    refuses(
        &rt,
        alloc,
        &[
            (
                "== model m\nsig A {} run {} for 9\n== session a m 1\nnext\n",
                "fault model m command 1 too_many_renamings\n",
            ),
            (
                "== model m\nsig A, B {} run {} for exactly 7 A, 4 B\n== session a m 1\nnext\n",
                "fault model m command 1 too_many_renamings\n",
            ),
            (
                "== model m\nsig A {} sig B {} run {} for 9 run {} for 2 B\n== session a m 2\nnext\n== session b m 1\nnext\n",
                "fault model m command 1 too_many_renamings\n",
            ),
            (
                "== model m\nsig A {} run {} for 9\n== model n\nsig\n== session a m 1\nnext\n",
                "fault model m command 1 too_many_renamings\n",
            ),
            (
                "== model m\nsig A {} run { all a, b, c, d: A | some A } for exactly 32 A\n== session a m 1\nnext\n",
                "fault model m command 1 too_many_terms\n",
            ),
            (
                "== model m\nsig\n== model n\nsig A {} run {} for 9\n== session a n 1\nnext\n",
                "fault model m 1:4 end_of_text\n",
            ),
        ],
    )?;
    tells(
        &rt,
        alloc,
        "sig A {} run {} for 8",
        "all 10\n",
        "class 1\nA = {}\nclasses 1\n",
    )?;
    tells(
        &rt,
        alloc,
        "sig A, B, C {} run { some A } for 7 A, 2 B, 2 C",
        "all 10\n",
        "class 1\nA = {A$0}\nB = {}\nC = {}\nclasses 1\n",
    )
}

#[test]
fn commands_without_sessions_may_have_many_renamings(rt: HostRuntime) -> Result<(), Fail> {
    let script =
        b"== model m\nsig A {} run {} for 9 run { some A } for 2\n== session a m 2\nall 5\n";
    ends(
        &rt,
        rt.alloc(),
        &["distinct", "--workers=2", "--budget", "100"],
        script,
        0,
        "== a\nclass 1\nA = {A$0}\nclasses 1\n",
    )
}

#[test]
fn scripts_are_read_as_by_run(rt: HostRuntime) -> Result<(), Fail> {
    let alloc = rt.alloc();
    ends(
        &rt,
        alloc,
        &["distinct"],
        b"== modle m\n",
        3,
        "fault script line 1 bad_directive\n",
    )?;
    ends(&rt, alloc, &["distinct"], b"", 0, "")?;
    ends(
        &rt,
        alloc,
        &["distinct", "--budget"],
        b"",
        2,
        "fault words\n",
    )?;
    ends(
        &rt,
        alloc,
        &["distinct", "--workers", "17"],
        b"",
        2,
        "fault words\n",
    )
}
