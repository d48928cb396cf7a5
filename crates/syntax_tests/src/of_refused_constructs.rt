// What the language has and isn't read: where it is refused, and by which word.
use crate::reading::tells;
use std::alloc::Global;
use std::process::Abort;
use std::test::Fail;

#[test]
fn refuses_words_beside_the_arrows_of_fields(rt: HostRuntime) -> Result<(), Fail> {
    tells(
        &rt,
        rt.alloc(),
        &[
            (
                "sig A { f: A lone -> A -> A }",
                "1:14 unsupported arrow_multiplicity",
            ),
            (
                "sig A { f: (A lone -> A) -> A }",
                "1:15 unsupported arrow_multiplicity",
            ),
            (
                "sig A { f: (A -> A) lone -> A }",
                "1:21 unsupported arrow_multiplicity",
            ),
            (
                "sig A { f: A -> some (A -> A) }",
                "1:17 unsupported arrow_multiplicity",
            ),
            (
                "sig A { f: A + B lone -> C }",
                "1:18 unsupported arrow_multiplicity",
            ),
            (
                "sig A { f: A lone -> B + C }",
                "1:14 unsupported arrow_multiplicity",
            ),
            (
                "sig A { f: A -> A lone -> A }",
                "1:19 unsupported arrow_multiplicity",
            ),
        ],
    )
}

#[test]
fn refuses_several_variables_and_comprehensions(rt: HostRuntime) -> Result<(), Fail> {
    tells(
        &rt,
        rt.alloc(),
        &[
            (
                "sig A {} run { one a, b: A | some a }",
                "1:23 unsupported several",
            ),
            ("fact { lone disj a, b: A | p }", "1:21 unsupported several"),
            (
                "fact { one a: A, disj b: B | p }",
                "1:23 unsupported several",
            ),
            (
                "fact { a in { x, y: A | p } }",
                "1:13 unsupported comprehension",
            ),
            ("run { x, y: A | p }", "1:5 unsupported comprehension"),
            ("fact { x: A | p }", "1:6 unsupported comprehension"),
        ],
    )
}

// Whether a word is refused inside a command.
fn refuses_inside(rt: &impl Abort, alloc: Global, word: &str) -> Result<(), Fail> {
    let text = format!(in alloc; "sig A {{}} run {{ {word} some A }}")?;
    let expected = format!(in alloc; "1:16 unsupported {word}")?;
    tells(rt, alloc, &[(text.as_str(), expected.as_str())])
}

// Whether a word is refused where it begins a text.
fn refuses_first(rt: &impl Abort, alloc: Global, word: &str) -> Result<(), Fail> {
    let expected = format!(in alloc; "1:1 unsupported {word}")?;
    tells(rt, alloc, &[(word, expected.as_str())])
}

// Whether these words are refused in both places.
fn refuses(rt: &impl Abort, alloc: Global, words: &[&str]) -> Result<(), Fail> {
    for word in words {
        refuses_inside(rt, alloc, word)?;
        refuses_first(rt, alloc, word)?;
    }
    Ok(())
}

#[test]
fn refuses_words(rt: HostRuntime) -> Result<(), Fail> {
    refuses(
        &rt,
        rt.alloc(),
        &[
            "enum", "seq", "sum", "this", "Int", "String", "int", "private", "var", "steps",
        ],
    )
}

#[test]
fn refuses_words_of_time(rt: HostRuntime) -> Result<(), Fail> {
    refuses(
        &rt,
        rt.alloc(),
        &[
            "always",
            "eventually",
            "after",
            "before",
            "historically",
            "once",
            "since",
            "until",
            "releases",
            "triggered",
        ],
    )
}
