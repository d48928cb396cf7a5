// Scripts and faults that were worked out by hand from what the format says.
ghost use Rattle.std.specs.Prelude.{◌≤◌};

use crate::told_commands::told_commands;
use script_format::{MOST_BYTES, ModelEntry, Script, SessionEntry, generate, keys_of, read_script};
use std::alloc::Global;
use std::fmt::Write;
use std::process::Abort;
use std::test::Fail;

fn push_model(text: &mut String, model: &ModelEntry) -> Result<(), Fail> {
    Ok(write!(text, "{} {:?}; ", model.name.text(), model.text.text())?)
}

fn push_session(alloc: Global, text: &mut String, session: &SessionEntry) -> Result<(), Fail> {
    let commands = told_commands(alloc, session.commands.commands())?;
    let name = session.name.text();
    Ok(write!(
        text,
        "{name} {} {}:{commands}; ",
        session.model, session.number
    )?)
}

// What a script says, in one line.
fn told(alloc: Global, script: &Script) -> Result<String, Fail> {
    let mut text = String::new(alloc);
    for model in script.models.entries() {
        push_model(&mut text, model)?;
    }
    for session in script.sessions.entries() {
        push_session(alloc, &mut text, session)?;
    }
    Ok(text)
}

// A script that is read, or its fault.
fn script_or_fault(alloc: Global, bytes: &[u8]) -> Result<Result<Script, String>, Fail> {
    match read_script(alloc, bytes) {
        Ok(script) => Ok(Ok(script)),
        Err(fault) => Ok(Err(format!(in alloc; "{fault:?}")?)),
    }
}

// What is read from a script, or the fault.
fn read(alloc: Global, bytes: &[u8]) -> Result<String, Fail> {
    match script_or_fault(alloc, bytes)? {
        Ok(script) => told(alloc, &script),
        Err(fault) => Ok(fault),
    }
}

// Whether these scripts are read like this.
fn reads(rt: &impl Abort, alloc: Global, rows: &[(&str, &str)]) -> Result<(), Fail> {
    for (text, expected) in rows {
        let found = read(alloc, text.as_bytes())?;
        assert_eq!(rt; found.as_str(), *expected, "{text:?}");
    }
    Ok(())
}

#[test]
fn reads_models_and_sessions(rt: HostRuntime) -> Result<(), Fail> {
    reads(
        &rt,
        rt.alloc(),
        &[
            ("", ""),
            ("# x\n\n   \n", ""),
            ("== model m", "m \"\"; "),
            (
                "\n# x\n== model m\nsig A {}\n# y\n\n run {} \r\n== session a m 1\nnext\n\n# all\n next  \n",
                "m \"sig A {}\\n# y\\n\\n run {} \\n\"; a 0 1: next next; ",
            ),
            (
                "== model m\n1\n== session a m 2\nnext\n== model n\n2\n== session b m 2\nback\n== session c n 1\n== more a\nall 3\n== more b\n== more a\nproof\n",
                "m \"1\\n\"; n \"2\\n\"; a 0 2: next all 3 proof; b 0 2: back; c 1 1:; ",
            ),
            ("== model a\n== session a a 1\n", "a \"\"; a 0 1:; "),
        ],
    )
}

#[test]
fn reads_tuples_and_odd_texts(rt: HostRuntime) -> Result<(), Fail> {
    reads(
        &rt,
        rt.alloc(),
        &[
            (
                "==  model  m_1 \r\nx\r\n== session B2 m_1 001000 \r\nall 1000\nall 000001\noffers\nback\nproof\nbudget 0\nbudget 100000\r\n",
                "m_1 \"x\\n\"; B2 0 1000: all 1000 all 1 offers back proof budget 0 budget 100000; ",
            ),
            (
                "== model m\n== session a m 1\naugment f A$0\naugment A.f A$01->o/B'$999999->C_$0\naugment o/Next A$1\naugment sig sig$7\n",
                "m \"\"; a 0 1: augment f A 0 augment A.f A 1 o/B' 999999 C_ 0 augment o/Next A 1 augment sig sig 7; ",
            ),
            (
                "== model a2345678901234567890123456789012\nnext\n =\n = = model\n",
                "a2345678901234567890123456789012 \"next\\n =\\n = = model\\n\"; ",
            ),
            ("== model m\nx\r", "m \"x\\r\\n\"; "),
            ("== model m\nx\r\r\n", "m \"x\\r\\n\"; "),
        ],
    )
}

// Whether these scripts have a fault of this kind in these lines.
fn refuses(rt: &impl Abort, alloc: Global, kind: &str, rows: &[(&str, u32)]) -> Result<(), Fail> {
    for (text, line) in rows {
        let found = read(alloc, text.as_bytes())?;
        let expected = format!(in alloc; "{kind} {{ line: {line} }}")?;
        assert_eq!(rt; found.as_str(), expected.as_str(), "{text:?}");
    }
    Ok(())
}

#[test]
fn tells_stray_text(rt: HostRuntime) -> Result<(), Fail> {
    refuses(
        &rt,
        rt.alloc(),
        "StrayText",
        &[
            ("next", 1),
            ("\n#\nx\n== model 1\n", 3),
            (" # x", 1),
            ("\t", 1),
            (" == model m\n", 1),
            ("\r", 1),
        ],
    )
}

#[test]
fn tells_directives_of_no_form(rt: HostRuntime) -> Result<(), Fail> {
    refuses(
        &rt,
        rt.alloc(),
        "BadDirective",
        &[
            ("== modell m", 1),
            ("==model m", 1),
            ("==", 1),
            ("== ", 1),
            ("=== model m", 1),
            ("== model", 1),
            ("== model m n", 1),
            ("== mod", 1),
            ("== session a m", 1),
            ("== session a m 1 50", 1),
            ("== session a", 1),
            ("== more", 1),
            ("==\tmodel m", 1),
            ("== model\tm", 1),
            ("== model m\r", 1),
        ],
    )
}

#[test]
fn tells_names_of_no_form(rt: HostRuntime) -> Result<(), Fail> {
    refuses(
        &rt,
        rt.alloc(),
        "BadDirective",
        &[
            ("== model 1m", 1),
            ("== model _m", 1),
            ("== model m-m", 1),
            ("== model m'", 1),
            ("== session a m' x", 1),
            ("== model a23456789012345678901234567890123", 1),
            ("== model m\n== session a m 1\nall x y", 3),
        ],
    )
}

#[test]
fn tells_commands_of_no_form(rt: HostRuntime) -> Result<(), Fail> {
    refuses(
        &rt,
        rt.alloc(),
        "BadDirective",
        &[
            ("== model m\n== session a m 1\nall", 3),
            ("== model m\n== session a m 1\nNext", 3),
            ("== model m\n== session a m 1\nnext next", 3),
            ("== model m\n== session a m 1\n# x\nnex", 4),
            ("== model m\n== session a m 1\n == more a", 3),
        ],
    )
}

#[test]
fn tells_numbers_out_of_range(rt: HostRuntime) -> Result<(), Fail> {
    refuses(
        &rt,
        rt.alloc(),
        "BadNumber",
        &[
            ("== session a q 0", 1),
            ("== model m\n== session a m 1001", 2),
            ("== model m\n== session a m 0000001", 2),
            ("== model m\n== session a m one", 2),
            ("== model m\n== session a m -1", 2),
            ("== model m\nx\n== session a m 1\nall 0", 4),
            ("== model m\n== session a m 1\nall 1001", 3),
            ("== model m\n== session a m 1\nbudget 100001", 3),
            ("== model m\n== session a m 1\nbudget 0100000", 3),
            ("== model m\nx\n== session a m 1\nall 0\n== modell m", 4),
        ],
    )
}

#[test]
fn tells_unknown_models(rt: HostRuntime) -> Result<(), Fail> {
    refuses(
        &rt,
        rt.alloc(),
        "UnknownModel",
        &[
            ("== session a q 1", 1),
            ("== model m\n== session a m 1\n== session a n 1", 3),
        ],
    )
}

#[test]
fn tells_unknown_sessions(rt: HostRuntime) -> Result<(), Fail> {
    refuses(&rt, rt.alloc(), "UnknownSession", &[("== more z", 1)])
}

#[test]
fn tells_names_that_were_given(rt: HostRuntime) -> Result<(), Fail> {
    refuses(
        &rt,
        rt.alloc(),
        "Twice",
        &[
            ("== model m\n== model m", 2),
            (
                "== model m\n== session a m 1\n== model n\n== session a n 1\n",
                4,
            ),
        ],
    )
}

#[test]
fn tells_what_is_no_text(rt: HostRuntime) -> Result<(), Fail> {
    assert_eq!(rt;
        read(rt.alloc(), b"== model m\n\xFF\n== model m")?.as_str(),
        "NotText"
    );
    assert_eq!(rt; read(rt.alloc(), b"next\n\xC3")?.as_str(), "NotText");
    Ok(())
}

// What is read of a session with an `augment` of these words.
fn read_augment(alloc: Global, words: &str) -> Result<String, Fail> {
    let script = format!(in alloc; "== model m\n== session a m 1\naugment {words}\n")?;
    read(alloc, script.as_bytes())
}

#[test]
fn reads_tuples(rt: HostRuntime) -> Result<(), Fail> {
    let rows = [
        ("f A$1->B$2->C$3->D$4->E$5", "f A 1 B 2 C 3 D 4 E 5"),
        ("f' A'$1", "f' A' 1"),
    ];
    for (words, told) in rows {
        let found = read_augment(rt.alloc(), words)?;
        let expected = format!(in rt.alloc(); "m \"\"; a 0 1: augment {told}; ")?;
        assert_eq!(rt; found.as_str(), expected.as_str());
    }
    Ok(())
}

// Whether an `augment` of these words is no command.
fn refuses_words(rt: &impl Abort, alloc: Global, rows: &[&str]) -> Result<(), Fail> {
    for words in rows {
        let found = read_augment(alloc, words)?;
        assert_eq!(rt; found.as_str(), "BadDirective { line: 3 }", "{words}");
    }
    Ok(())
}

#[test]
fn tells_tuples_of_no_form(rt: HostRuntime) -> Result<(), Fail> {
    refuses_words(
        &rt,
        rt.alloc(),
        &[
            "f A$0000001",
            "f A$",
            "f $1",
            "f A",
            "f A$1-B$1",
            "f A$1->",
            "f ->A$1",
            "f A$1->->B$1",
            "f A$1>B$1",
            "f A$1 -> B$1",
            "f A$1$2",
            "f a/b/c$1",
            "f a.b$1",
            "f A$x",
            "f 'A$1",
        ],
    )
}

#[test]
fn tells_relations_of_no_form(rt: HostRuntime) -> Result<(), Fail> {
    refuses_words(
        &rt,
        rt.alloc(),
        &[
            "f.g.h A$1",
            "f/g/h A$1",
            "f/ A$1",
            ".f A$1",
            "1f A$1",
            "o/f.g A$1",
        ],
    )
}

fn push_models(text: &mut String, count: usize) -> Result<(), Fail> {
    for model in 0..count {
        write!(text, "== model m{model}\n")?;
    }
    Ok(())
}

// So many sessions, on so many models and so many commands of each.
fn push_sessions(
    text: &mut String,
    count: usize,
    models: usize,
    numbers: usize,
) -> Result<(), Fail> {
    for session in 0..count {
        let model = session % models.max(1);
        let number = session % numbers.max(1);
        write!(text, "== session s{session} m{model} {}\n", number + 1)?;
    }
    Ok(())
}

fn push_commands(text: &mut String, count: usize, command: &str) -> Result<(), Fail> {
    for _ in 0..count {
        write!(text, "{command}\n")?;
    }
    Ok(())
}

// A script with so many models, so many sessions on so many commands of each, and so many lines of a command.
fn script_of(
    alloc: Global,
    (models, sessions, numbers): (usize, usize, usize),
    (commands, command): (usize, &str),
) -> Result<String, Fail> {
    let mut text = String::new(alloc);
    push_models(&mut text, models)?;
    push_sessions(&mut text, sessions, models, numbers)?;
    push_commands(&mut text, commands, command)?;
    Ok(text)
}

// How many models and sessions a script has, or its fault.
fn sizes(alloc: Global, script: &str) -> Result<String, Fail> {
    match script_or_fault(alloc, script.as_bytes())? {
        Ok(script) => {
            let models = script.models.entries().len();
            let sessions = script.sessions.entries().len();
            Ok(format!(in alloc; "{models} {sessions}")?)
        }
        Err(fault) => Ok(fault),
    }
}

// Whether scripts of these sizes have so many models and sessions, or these faults.
fn keeps(
    rt: &impl Abort,
    alloc: Global,
    rows: &[((usize, usize, usize), (usize, &str), &str)],
) -> Result<(), Fail> {
    for (names, commands, want) in rows {
        let script = script_of(alloc, *names, *commands)?;
        assert_eq!(rt; sizes(alloc, &script)?.as_str(), *want);
    }
    Ok(())
}

#[test]
fn keeps_to_the_limits_of_names(rt: HostRuntime) -> Result<(), Fail> {
    keeps(
        &rt,
        rt.alloc(),
        &[
            ((16, 0, 1), (0, ""), "16 0"),
            ((17, 0, 1), (0, ""), "TooMany { line: 17 }"),
            ((1, 64, 16), (0, ""), "1 64"),
            ((1, 65, 16), (0, ""), "TooMany { line: 66 }"),
            ((1, 18, 17), (0, ""), "TooMany { line: 18 }"),
            ((16, 64, 1), (0, ""), "16 64"),
        ],
    )
}

#[test]
fn keeps_to_the_limits_of_commands(rt: HostRuntime) -> Result<(), Fail> {
    keeps(
        &rt,
        rt.alloc(),
        &[
            ((1, 1, 1), (4096, "next"), "1 1"),
            ((1, 1, 1), (4097, "back"), "TooMany { line: 4099 }"),
            ((1, 1, 1), (20, "all 1000"), "1 1"),
            ((1, 1, 1), (21, "all 1000"), "TooMany { line: 23 }"),
            ((1, 1, 1), (25, "all 999"), "TooMany { line: 23 }"),
        ],
    )
}

#[test]
fn counts_a_step_beside_20_000_scenarios(rt: HostRuntime) -> Result<(), Fail> {
    let mut script = script_of(rt.alloc(), (1, 1, 1), (20, "all 1000"))?;
    script.push_str("offers\nnext\n")?;
    let found = read(rt.alloc(), script.as_bytes())?;
    assert_eq!(rt; found.as_str(), "TooMany { line: 24 }");
    Ok(())
}

// What is read of a mebibyte of number signs, and of these bytes behind it.
fn read_signs(alloc: Global, behind: &[u8]) -> Result<String, Fail> {
    let mut bytes = Vec::new(alloc);
    bytes.resize(MOST_BYTES, b'#')?;
    bytes.extend_from_slice(behind)?;
    read(alloc, &bytes)
}

#[test]
fn takes_a_mebibyte(rt: HostRuntime) -> Result<(), Fail> {
    assert_eq!(rt; read_signs(rt.alloc(), &[])?.as_str(), "");
    assert_eq!(rt; read_signs(rt.alloc(), &[255])?.as_str(), "TooLong");
    Ok(())
}

// The script that these bytes are.
fn script(alloc: Global, bytes: &[u8]) -> Result<Script, Fail> {
    match script_or_fault(alloc, bytes)? {
        Ok(script) => Ok(script),
        Err(_) => Err("refused")?,
    }
}

// The pairs of a model and a command that the sessions of these bytes name.
fn told_keys(alloc: Global, bytes: &[u8]) -> Result<String, Fail> {
    let script = script(alloc, bytes)?;
    let mut text = String::new(alloc);
    for key in keys_of(alloc, script.sessions.entries())? {
        write!(&mut text, "{} {}; ", key.model, key.number)?;
    }
    Ok(text)
}

#[test]
fn numbers_pairs_by_their_first_sessions(rt: HostRuntime) -> Result<(), Fail> {
    let script =
        b"== model m\n== model n\n== session a n 2\n== session b m 3\n== session c n 2\n== session d n 1\n== session e m 3\n";
    assert_eq!(rt; told_keys(rt.alloc(), script)?.as_str(), "1 2; 0 3; 1 1; ");
    Ok(())
}

#[test]
fn makes_a_script_for_a_load(rt: HostRuntime) -> Result<(), Fail> {
    let start =
        "== model m1\nsig A { f: set A } run { some f } for 4\n== model m2\nsig A { f: set A } run { some disj a, b, c: A | a->b + b->c in f } for exactly 4 A\n== model m3\nsig Name, Addr {} sig Book { addr: Name -> lone Addr } pred show [b: Book] { #b.addr > 1 } run show for 4 but 1 Book\n== model m4\nsig P { h: one Q } sig Q {} run { all disj p, q: P | p.h != q.h } for exactly 4 P, exactly 3 Q\n== session s1 m1 1\nall 100\n== session s2 m2 1\nall 100\n== session s3 m3 1\nall 100\n== session s4 m4 1\nall 100\n";
    let made = generate(rt.alloc(), 1)?;
    let text = String::from_utf8_lossy(rt.alloc(), &made)?;
    assert_eq!(rt; text.as_str(), start);
    Ok(())
}

// How many models and sessions a made script has, and the last of the sessions.
fn told_load(alloc: Global, number: u32) -> Result<String, Fail>
    requires least { 1 ≤ number }
    requires most { number ≤ 16 }
{
    let script = script(alloc, &generate(alloc, number)?)?;
    let models = script.models.entries().len();
    let sessions = script.sessions.entries();
    let mut text = format!(in alloc; "{models} {}: ", sessions.len())?;
    if let Some(last) = sessions.last() {
        push_session(alloc, &mut text, last)?;
    }
    Ok(text)
}

#[test]
fn makes_scripts_for_each_load(rt: HostRuntime) -> Result<(), Fail> {
    for number in 1..17_u32 {
        let sessions = 4 * number;
        let expected = format!(in rt.alloc(); "4 {sessions}: s{sessions} 3 1: all 100; ")?;
        assert_eq!(rt; told_load(rt.alloc(), number)?.as_str(), expected.as_str());
    }
    Ok(())
}
