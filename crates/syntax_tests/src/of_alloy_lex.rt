// That the definitions are the language's: texts whose tokens were worked out by hand.
use alloy_lex::{LexFault, Text, Token, TokenKind, lex};
use std::alloc::Global;
use std::fmt::Write;
use std::process::Abort;
use std::test::Fail;

fn letter(kind: TokenKind) -> &'static str {
    match kind {
        TokenKind::Name => "N",
        TokenKind::Path => "P",
        TokenKind::Number => "#",
        TokenKind::Word => "W",
        TokenKind::Symbol => "S",
    }
}

// A token as its kind's letter, its text and its place.
fn push_token(out: &mut String, token: &Token) -> Result<(), Fail> {
    let letter = letter(token.kind);
    let text = token.text.text();
    write!(
        out,
        "{letter}{text}@{}:{} ",
        token.place.line, token.place.column
    )?;
    Ok(())
}

fn told_tokens(alloc: Global, tokens: &[Token]) -> Result<String, Fail> {
    let mut out = String::new(alloc);
    for token in tokens {
        push_token(&mut out, token)?;
    }
    Ok(out)
}

// What a fault is called, with its line and its column, or 0 and 0 where it has no place.
fn word_and_place(fault: LexFault) -> (&'static str, u32, u32) {
    match fault {
        LexFault::BadCharacter { place } => ("bad character", place.line, place.column),
        LexFault::OpenComment { place } => ("open comment", place.line, place.column),
        LexFault::NumberTooLarge { place } => ("too large", place.line, place.column),
        LexFault::Memory => ("memory", 0, 0),
    }
}

fn told_fault(alloc: Global, fault: LexFault) -> Result<String, Fail> {
    let (word, line, column) = word_and_place(fault);
    Ok(format!(in alloc; "{word}@{line}:{column}")?)
}

// The tokens of a text, or the fault with its place.
fn told(alloc: Global, text: &str) -> Result<String, Fail> {
    if text.len() > 1_048_576 {
        return Ok(String::from_str(alloc, "too long")?);
    }
    match lex(alloc, text) {
        Ok(tokens) => told_tokens(alloc, &tokens),
        Err(fault) => told_fault(alloc, fault),
    }
}

// Whether these texts have these tokens or faults.
fn tells(rt: &impl Abort, alloc: Global, rows: &[(&str, &str)]) -> Result<(), Fail> {
    for (text, expected) in rows {
        let found = told(alloc, text)?;
        assert_eq!(*rt; found.as_str(), *expected, "of {text:?}");
    }
    Ok(())
}

#[test]
fn tells_names_numbers_and_symbols(rt: HostRuntime) -> Result<(), Fail> {
    tells(
        &rt,
        rt.alloc(),
        &[
            ("", ""),
            (" \t\r\n", ""),
            ("sig A {}", "Wsig@1:1 NA@1:5 S{@1:7 S}@1:8 "),
            ("a\r\nb\n\r c", "Na@1:1 Nb@2:1 Nc@3:3 "),
            ("\tx", "Nx@1:2 "),
            (
                "b' b_1'2 sigs Sig",
                "Nb'@1:1 Nb_1'2@1:4 Nsigs@1:10 NSig@1:15 ",
            ),
            ("12ab 007", "#12@1:1 Nab@1:3 #007@1:6 "),
            (
                "1000 0001000 00000000000000000000000",
                "#1000@1:1 #0001000@1:6 #00000000000000000000000@1:14 ",
            ),
            ("a-b->c", "Na@1:1 S-@1:2 Nb@1:3 S->@1:4 Nc@1:6 "),
        ],
    )
}

#[test]
fn passes_over_comments(rt: HostRuntime) -> Result<(), Fail> {
    tells(
        &rt,
        rt.alloc(),
        &[
            ("a // b\nc -- d", "Na@1:1 Nc@2:1 "),
            ("a// /* \r\nb", "Na@1:1 Nb@2:1 "),
            ("a/**/b/***/c/*//*/d", "Na@1:1 Nb@1:6 Nc@1:12 Nd@1:19 "),
            ("/* x\n * y\n */ a", "Na@3:5 "),
            ("// é∀𝄞", ""),
            ("/* é∀𝄞 */ a", "Na@1:11 "),
            ("/* é\n∀ */ a", "Na@2:6 "),
            ("a--b", "Na@1:1 "),
            ("a//b", "Na@1:1 "),
        ],
    )
}

#[test]
fn tells_paths(rt: HostRuntime) -> Result<(), Fail> {
    tells(
        &rt,
        rt.alloc(),
        &[
            (
                "o/first a/b'c_1.d/e",
                "Po/first@1:1 Pa/b'c_1@1:9 S.@1:16 Pd/e@1:17 ",
            ),
            ("1a/b", "#1@1:1 Pa/b@1:2 "),
            ("a/runs", "Pa/runs@1:1 "),
        ],
    )
}

#[test]
fn refuses_open_comments_and_large_numbers(rt: HostRuntime) -> Result<(), Fail> {
    tells(
        &rt,
        rt.alloc(),
        &[
            ("sig A {} /*", "open comment@1:10"),
            ("a /*/", "open comment@1:3"),
            ("a /* *", "open comment@1:3"),
            ("a\n  1001", "too large@2:3"),
            ("0000000000000000000000000000001001", "too large@1:1"),
            ("99999999999999999999999999999999999", "too large@1:1"),
            ("1001 ?", "too large@1:1"),
        ],
    )
}

#[test]
fn refuses_other_characters(rt: HostRuntime) -> Result<(), Fail> {
    tells(
        &rt,
        rt.alloc(),
        &[
            ("sig A {} fact { A ? A }", "bad character@1:19"),
            ("/* /* */ */", "bad character@1:11"),
            ("a / b", "bad character@1:3"),
            ("_a", "bad character@1:1"),
            ("'", "bad character@1:1"),
            ("? 1001", "bad character@1:1"),
            ("a é", "bad character@1:3"),
            ("/* é */ é", "bad character@1:9"),
            ("aé", "bad character@1:2"),
            ("a\n\u{feff}", "bad character@2:1"),
            ("a \u{b} b", "bad character@1:3"),
            ("a \0", "bad character@1:3"),
            ("a@b", "bad character@1:2"),
            ("a\\b", "bad character@1:2"),
        ],
    )
}

#[test]
fn refuses_other_paths(rt: HostRuntime) -> Result<(), Fail> {
    tells(
        &rt,
        rt.alloc(),
        &[
            ("a/run", "bad character@1:2"),
            ("run/a", "bad character@1:4"),
            ("a/b/c", "bad character@1:4"),
            ("o/ first", "bad character@1:2"),
            ("o /first", "bad character@1:3"),
            ("a/1", "bad character@1:2"),
            ("a/_b", "bad character@1:2"),
        ],
    )
}

// Whether a text is one token of this kind.
fn is_one(rt: &impl Abort, alloc: Global, letter: &str, text: &str) -> Result<(), Fail> {
    let expected = format!(in alloc; "{letter}{text}@1:1 ")?;
    tells(rt, alloc, &[(text, expected.as_str())])
}

fn are_symbols(rt: &impl Abort, alloc: Global, symbols: &[&str]) -> Result<(), Fail> {
    for symbol in symbols {
        is_one(rt, alloc, "S", symbol)?;
    }
    Ok(())
}

#[test]
fn knows_the_symbols(rt: HostRuntime) -> Result<(), Fail> {
    are_symbols(
        &rt,
        rt.alloc(),
        &[
            "{", "}", "[", "]", "(", ")", ",", ":", "|", ".", "+", "-", "&", "->", "~", "^", "*",
            "++", "<:", ":>", "#", "=", "!=", "<", ">", "=<", "<=", ">=", "!", "&&", "||", "<=>",
            "=>",
        ],
    )
}

#[test]
fn takes_symbols_by_longest_match(rt: HostRuntime) -> Result<(), Fail> {
    tells(
        &rt,
        rt.alloc(),
        &[
            ("<=>=<", "S<=>@1:1 S=<@1:4 "),
            ("<=<=", "S<=@1:1 S<=@1:3 "),
            ("=<=>", "S=<@1:1 S=>@1:3 "),
            ("==>", "S=@1:1 S=>@1:2 "),
            (">==", "S>=@1:1 S=@1:3 "),
            ("!==", "S!=@1:1 S=@1:3 "),
            ("<<::>", "S<@1:1 S<:@1:2 S:>@1:4 "),
            ("::>", "S:@1:1 S:>@1:2 "),
            ("+++", "S++@1:1 S+@1:3 "),
            ("&&&", "S&&@1:1 S&@1:3 "),
            ("|||", "S||@1:1 S|@1:3 "),
            ("->-", "S->@1:1 S-@1:3 "),
            ("<= >", "S<=@1:1 S>@1:4 "),
        ],
    )
}

// Whether a text is a word, and a name where a prime follows it.
fn is_word(rt: &impl Abort, alloc: Global, word: &str) -> Result<(), Fail> {
    let primed = format!(in alloc; "{word}'")?;
    is_one(rt, alloc, "W", word)?;
    is_one(rt, alloc, "N", &primed)
}

fn are_words(rt: &impl Abort, alloc: Global, words: &[&str]) -> Result<(), Fail> {
    for word in words {
        is_word(rt, alloc, word)?;
    }
    Ok(())
}

#[test]
fn knows_the_words(rt: HostRuntime) -> Result<(), Fail> {
    are_words(
        &rt,
        rt.alloc(),
        &[
            "abstract", "all", "and", "as", "assert", "but", "check", "disj", "else", "exactly",
            "expect", "extends", "fact", "for", "fun", "iden", "iff", "implies", "in", "let",
            "lone", "module", "no", "none", "not", "one", "open", "or", "pred", "run", "set",
            "sig", "some", "univ",
        ],
    )
}

#[test]
fn knows_the_words_that_are_refused(rt: HostRuntime) -> Result<(), Fail> {
    are_words(
        &rt,
        rt.alloc(),
        &[
            "enum",
            "seq",
            "sum",
            "this",
            "Int",
            "String",
            "int",
            "private",
            "var",
            "always",
            "eventually",
            "after",
            "before",
            "historically",
            "once",
            "since",
            "until",
            "releases",
            "triggered",
            "steps",
        ],
    )
}

// Where a token starts, and how long it is.
fn push_slice(out: &mut String, token: &Token) -> Result<(), Fail> {
    let len = token.text.text().len();
    write!(out, "{}+{len} ", token.start)?;
    Ok(())
}

// A copy of what a token spells.
fn push_copy(alloc: Global, out: &mut String, token: &Token) -> Result<(), Fail> {
    let spelling = token.text.again();
    let text = Text::of(alloc, spelling.text())?.copy(alloc)?;
    out.push_str(text.text())?;
    Ok(())
}

// Where each token stands, and a copy of what the first spells.
fn told_slices(alloc: Global, tokens: &[Token]) -> Result<String, Fail> {
    let mut out = String::new(alloc);
    for token in tokens {
        push_slice(&mut out, token)?;
    }
    if let Some(first) = tokens.first() {
        push_copy(alloc, &mut out, first)?;
    }
    Ok(out)
}

#[test]
fn tells_slices(rt: HostRuntime) -> Result<(), Fail> {
    let Ok(tokens) = lex(rt.alloc(), "/* é */ sig A // x\n{ b': 12 }") else {
        return Err("refused")?;
    };
    let found = told_slices(rt.alloc(), &tokens)?;
    assert_eq!(rt; found.as_str(), "9+3 13+1 20+1 22+2 24+1 26+2 29+1 sig");
    Ok(())
}
