// What orderings make of a model: the faults that they have, the scopes of commands, and what is declared behind the text.
use alloy_lex::{Place, lex};
use alloy_parse::parse;
use alloy_syntax::tree::{Entry, Model, Name, Paragraph, Scope, Signatures};
use order_lib::{OrderFault, expand};
use std::alloc::{AllocError, Global};
use std::fmt::Write;
use std::process::Abort;
use std::test::Fail;

// The tree of a text that is a model's.
fn tree(alloc: Global, text: &str) -> Result<Model, Fail> {
    if text.len() > 1_048_576 {
        return Err("too long")?;
    }
    let Ok(tokens) = lex(alloc, text) else {
        return Err("no tokens")?;
    };
    match parse(alloc, &tokens) {
        Ok(model) => Ok(model),
        Err(_) => Err("no tree")?,
    }
}

fn placed(alloc: Global, place: Place, kind: &str) -> Result<String, Fail> {
    Ok(format!(in alloc; "{}:{} {kind}", place.line, place.column)?)
}

fn fault_line(alloc: Global, fault: OrderFault) -> Result<String, Fail> {
    match fault {
        OrderFault::Unknown { place } => placed(alloc, place, "unknown"),
        OrderFault::NotPlain { place } => placed(alloc, place, "not_plain"),
        OrderFault::Twice { place } => placed(alloc, place, "twice"),
        OrderFault::Memory => Ok(String::from_str(alloc, "memory")?),
    }
}

// What is told of an expansion: how many paragraphs there are, the scopes of the commands, or the names that are declared.
#[derive(Clone, Copy)]
enum About {
    Counts,
    Scopes,
    Names,
}

fn tell(alloc: Global, about: About, model: &Model) -> Result<String, Fail> {
    match about {
        About::Counts => counts(alloc, model),
        About::Scopes => scopes(alloc, model),
        About::Names => names(alloc, model),
    }
}

// What is told of the expansion of a text, or its fault.
fn told(alloc: Global, text: &str, about: About) -> Result<String, Fail> {
    match expand(alloc, tree(alloc, text)?) {
        Ok(model) => tell(alloc, about, &model),
        Err(fault) => fault_line(alloc, fault),
    }
}

fn tells(rt: &impl Abort, alloc: Global, about: About, rows: &[(&str, &str)]) -> Result<(), Fail> {
    for (text, expected) in rows {
        let found = told(alloc, text, about)?;
        assert_eq!(*rt; found.as_str(), *expected, "{text}");
    }
    Ok(())
}

fn counts(alloc: Global, model: &Model) -> Result<String, Fail> {
    let paragraphs = model.paragraphs.len();
    let opens = model.opens.len();
    Ok(format!(in alloc; "{paragraphs} paragraphs, {opens} orderings")?)
}

// ---- scopes

fn push_entry(text: &mut String, entry: &Entry) -> Result<(), Fail> {
    let word = if entry.exactly { " exactly" } else { "" };
    let number = entry.number.value;
    let name = entry.name.text.text();
    Ok(write!(text, "{word} {number} {name}")?)
}

fn push_default(text: &mut String, scope: &Scope) -> Result<(), Fail> {
    match scope.default {
        Some(number) => Ok(write!(text, "for {}:", number.value)?),
        None => Ok(text.push_str("for:")?),
    }
}

fn push_scope(text: &mut String, scope: &Scope) -> Result<(), Fail> {
    push_default(text, scope)?;
    for entry in &scope.entries {
        push_entry(text, entry)?;
    }
    Ok(text.push_str(";")?)
}

fn push_command(text: &mut String, paragraph: &Paragraph) -> Result<(), Fail> {
    match paragraph {
        Paragraph::Command(command) => match &command.scope {
            Some(scope) => push_scope(text, scope),
            None => Ok(text.push_str("no scope;")?),
        },
        _ => Ok(()),
    }
}

fn scopes(alloc: Global, model: &Model) -> Result<String, Fail> {
    let mut text = String::new(alloc);
    for paragraph in &model.paragraphs {
        push_command(&mut text, paragraph)?;
    }
    Ok(text)
}

// ---- names

fn push_name(text: &mut String, name: &Name) -> Result<(), Fail> {
    let Place { line, column } = name.place;
    let spelled = name.text.text();
    Ok(write!(text, "{spelled} {line}:{column};")?)
}

fn push_names(text: &mut String, names: &[Name]) -> Result<(), Fail> {
    for name in names {
        push_name(text, name)?;
    }
    Ok(())
}

fn push_signatures(text: &mut String, declared: &Signatures) -> Result<(), Fail> {
    push_names(text, &declared.names)?;
    for field in &declared.fields {
        push_names(text, &field.names)?;
    }
    Ok(())
}

fn push_paragraph(text: &mut String, paragraph: &Paragraph) -> Result<(), Fail> {
    match paragraph {
        Paragraph::Signatures(declared) => push_signatures(text, declared),
        Paragraph::Fact(_, block) => Ok(write!(text, "{} formulas;", block.formulas.len())?),
        Paragraph::Predicate(name, _, _) => push_name(text, name),
        Paragraph::Function(function) => push_name(text, &function.name),
        Paragraph::Assertion(name, _) => push_name(text, name),
        Paragraph::Command(_) => Ok(text.push_str("command;")?),
    }
}

fn names(alloc: Global, model: &Model) -> Result<String, Fail> {
    let mut text = String::new(alloc);
    for paragraph in &model.paragraphs {
        push_paragraph(&mut text, paragraph)?;
    }
    Ok(text)
}

// ---- rows

#[test]
fn ordered_signatures_are_plain(rt: HostRuntime) -> Result<(), Fail> {
    tells(
        &rt,
        rt.alloc(),
        About::Counts,
        &[
            ("open util/ordering[Q] as o run {}", "1:20 unknown"),
            (
                "open util/ordering[p] as o pred p {} run {}",
                "1:20 unknown",
            ),
            (
                "open util/ordering[T] as o one sig T {} run {}",
                "1:20 not_plain",
            ),
            (
                "open util/ordering[T] as o lone sig T {} run {}",
                "1:20 not_plain",
            ),
            (
                "open util/ordering[T] as o abstract sig T {} run {}",
                "1:20 not_plain",
            ),
            (
                "open util/ordering[T] as o sig A {} sig T extends A {} run {}",
                "1:20 not_plain",
            ),
            (
                "open util/ordering[T] as o sig A {} sig T in A {} run {}",
                "1:20 not_plain",
            ),
            (
                "open util/ordering[T] as o some sig T {} run {}",
                "14 paragraphs, 0 orderings",
            ),
            (
                "open util/ordering[T] as o sig T {} one sig T {}",
                "14 paragraphs, 0 orderings",
            ),
            (
                "open util/ordering[T] as o one sig T {} sig T {}",
                "1:20 not_plain",
            ),
            (
                "open util/ordering[U] as o sig T, U {}",
                "13 paragraphs, 0 orderings",
            ),
        ],
    )
}

#[test]
fn names_of_orderings_differ(rt: HostRuntime) -> Result<(), Fail> {
    tells(
        &rt,
        rt.alloc(),
        About::Counts,
        &[
            (
                "open util/ordering[T] as o open util/ordering[T] as o sig T {} run {}",
                "1:53 twice",
            ),
            (
                "open util/ordering[T] as o open util/ordering[T] as p sig T {} run {}",
                "26 paragraphs, 0 orderings",
            ),
            (
                "open util/ordering[T] as o open util/ordering[Q] as o sig T {} run {}",
                "1:47 unknown",
            ),
            (
                "open util/ordering[T] as o\nopen util/ordering[T] as o open util/ordering[Q] as o sig T {}",
                "2:26 twice",
            ),
            (
                "open util/ordering[T] as T sig T {}",
                "13 paragraphs, 0 orderings",
            ),
        ],
    )
}

#[test]
fn ordered_signatures_are_exact(rt: HostRuntime) -> Result<(), Fail> {
    tells(
        &rt,
        rt.alloc(),
        About::Scopes,
        &[
            (
                "open util/ordering[T] as o sig T {} run {}",
                "for 3: exactly 3 T;",
            ),
            (
                "open util/ordering[T] as o sig T {} run {} for 2",
                "for 2: exactly 2 T;",
            ),
            (
                "open util/ordering[T] as o sig T {} run {} for 4 T",
                "for: exactly 4 T;",
            ),
            (
                "open util/ordering[T] as o sig T, U {} check {} for 2 but 5 U",
                "for 2: 5 U exactly 2 T;",
            ),
            (
                "open util/ordering[T] as o sig T, U {} run {} for 2 but 5 T, 1 U",
                "for 2: exactly 5 T 1 U;",
            ),
            (
                "open util/ordering[T] as o sig T, U {} run {} for 2 U",
                "for: 2 U;",
            ),
            (
                "open util/ordering[T] as o sig T, U {} run {} for exactly 2 U, exactly 1 T",
                "for: exactly 2 U exactly 1 T;",
            ),
        ],
    )
}

#[test]
fn two_orderings_are_exact(rt: HostRuntime) -> Result<(), Fail> {
    tells(
        &rt,
        rt.alloc(),
        About::Scopes,
        &[
            (
                "open util/ordering[T] as o open util/ordering[T] as p sig T {} run {} for 2",
                "for 2: exactly 2 T;",
            ),
            (
                "open util/ordering[U] as o open util/ordering[T] as p sig T, U {} run {} run {} for 1 U",
                "for 3: exactly 3 U exactly 3 T;for: exactly 1 U;",
            ),
        ],
    )
}

#[test]
fn texts_without_orderings_are_as_they_are(rt: HostRuntime) -> Result<(), Fail> {
    tells(
        &rt,
        rt.alloc(),
        About::Scopes,
        &[
            (
                "sig T {} run {} run {} for 2 T run {} for 5",
                "no scope;for: 2 T;for 5:;",
            ),
            ("", ""),
        ],
    )
}

#[test]
fn declarations_stand_behind_the_text(rt: HostRuntime) -> Result<(), Fail> {
    tells(
        &rt,
        rt.alloc(),
        About::Names,
        &[(
            "open util/ordering[T] as o sig T { f: T } run {} fact n {}",
            "T 1:32;f 1:36;command;0 formulas;o/Ord 1:26;o/First 1:26;o/Next 1:26;4 formulas;o/first 1:26;o/next 1:26;o/prev 1:26;o/last 1:26;o/nexts 1:26;o/prevs 1:26;o/lt 1:26;o/gt 1:26;o/lte 1:26;o/gte 1:26;",
        )],
    )
}

// ---- how many there may be

fn push_copies(text: &mut String, count: u32, front: &str, back: &str) -> Result<(), AllocError> {
    for number in 0..count {
        write!(text, "{front}{number}{back}")?;
    }
    Ok(())
}

// A text with so many orderings of one signature, and so many commands.
fn many(alloc: Global, opens: u32, commands: u32) -> Result<String, AllocError> {
    let mut text = String::new(alloc);
    push_copies(&mut text, opens, "open util/ordering[T] as o", "\n")?;
    text.push_str("sig T {}\n")?;
    push_copies(&mut text, commands, "run c", " {}\n")?;
    Ok(text)
}

#[test]
fn orderings_times_commands_are_few(rt: HostRuntime) -> Result<(), Fail> {
    for (opens, commands, expected) in [
        (1024, 1025, "memory"),
        (1025, 1024, "memory"),
        (64, 1024, "1793 paragraphs, 0 orderings"),
    ] {
        let text = many(rt.alloc(), opens, commands)?;
        let found = told(rt.alloc(), &text, About::Counts)?;
        assert_eq!(rt; found.as_str(), expected);
    }
    Ok(())
}

// ---- faults as they are displayed

#[test]
fn faults_are_displayed(rt: HostRuntime) -> Result<(), Fail> {
    let place = Place { line: 2, column: 7 };
    for (fault, expected) in [
        (
            OrderFault::Unknown { place },
            "2:7: the name is no signature",
        ),
        (
            OrderFault::NotPlain { place },
            "2:7: the signature is abstract, has a parent, or one atom at most",
        ),
        (
            OrderFault::Twice { place },
            "2:7: the name stands here for the second time",
        ),
        (OrderFault::Memory, "no memory"),
    ] {
        let found = format!(in rt.alloc(); "{fault}")?;
        assert_eq!(rt; found.as_str(), expected);
    }
    Ok(())
}
