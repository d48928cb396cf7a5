// Texts of all kinds, as they are written out.
use bench_texts::{Stage, shape_of, stage_of, text_of};
use std::alloc::{AllocError, Global};
use std::test::Fail;

// Whether this is the text of this kind and count.
fn is_text(alloc: Global, kind: &str, count: u32, wanted: &str) -> Result<bool, AllocError> {
    match text_of(alloc, kind, count)? {
        Some(text) => Ok(text.as_str() == wanted),
        None => Ok(false),
    }
}

#[test]
fn texts_of_signatures(rt: HostRuntime) -> Result<(), Fail> {
    let rows = [
        ("signatures", "sig s0,s1,s2 {}\nrun {} for 1\n"),
        (
            "parents",
            "sig s0 {}\nsig s1 in s0 {}\nsig s2 in s1 {}\nrun {} for 1\n",
        ),
        (
            "fields",
            "sig a { f0:a,f1:a,f2:a }\nfact { some f2 }\nrun {} for 1\n",
        ),
        (
            "shared",
            "sig s0,s1,s2 { f: s0 }\nfact { some s0.f some s1.f some s2.f }\nrun {} for 1\n",
        ),
        (
            "relations",
            "sig a { f0: set b,f1: set b,f2: set b }\nsig b {}\nrun {} for 8 a, 4 b\n",
        ),
    ];
    for (kind, text) in rows {
        assert!(rt; is_text(rt.alloc(), kind, 3, text)?, "{kind}");
    }
    Ok(())
}

#[test]
fn texts_of_variables(rt: HostRuntime) -> Result<(), Fail> {
    let rows = [
        (
            "parameters",
            "pred p [x0,x1,x2: univ] { some x0 some x1 some x2 }\nrun {} for 1\n",
        ),
        (
            "domains",
            "pred p [x0:univ,x1:x0,x2:x1] { some x2 }\nrun {} for 1\n",
        ),
        (
            "bad_domains",
            "pred p [x0:univ,x1:x0.x0,x2:x0.x0] {}\nrun {} for 1\n",
        ),
        (
            "variables",
            "fact { all x0,x1,x2: none { some x0 some x1 some x2 } }\nrun {} for 1\n",
        ),
        (
            "lets",
            "fact { let x0=univ,x1=x0,x2=x1 | some x2 }\nrun {} for 1\n",
        ),
    ];
    for (kind, text) in rows {
        assert!(rt; is_text(rt.alloc(), kind, 3, text)?, "{kind}");
    }
    Ok(())
}

#[test]
fn texts_of_nested_constructs(rt: HostRuntime) -> Result<(), Fail> {
    let rows = [
        (
            "quantifiers",
            "sig a {}\nfact { all x0: a | all x1: x0 | some x1 }\nrun {} for 1\n",
        ),
        (
            "brackets",
            "sig a {}\nfact { some a+a++a&a->a<:(a) }\nrun {} for 1\n",
        ),
        (
            "binders",
            "sig a {}\nrun { all x0: a | all x1: a | x0 = x1 } for 32\n",
        ),
        ("long_name", "sig aa {}\nfact { some aa }\nrun {} for 1\n"),
    ];
    for (kind, text) in rows {
        assert!(rt; is_text(rt.alloc(), kind, 2, text)?, "{kind}");
    }
    Ok(())
}

#[test]
fn texts_of_calls(rt: HostRuntime) -> Result<(), Fail> {
    let rows = [
        ("chain", "pred p0 {}\npred p1 {p0}\nrun p1 for 1\n"),
        (
            "passed",
            "pred p0[x:univ]{some x}\npred p1[x:univ]{p0[x]}\nrun {} for 1\n",
        ),
        (
            "functions",
            "sig a { f: a }\nsig b { f: a }\nfun g0: a {a}\nfun g1: a {g0}\nfact { some g1.f }\nrun {} for 1\n",
        ),
        ("recursion", "pred p0 {p1}\npred p1 {p0}\nrun p1 for 1\n"),
        (
            "doubled",
            "sig a {}\npred p0 { some a }\npred p1 { p0 p0 }\nrun p1 for 1\n",
        ),
        (
            "doubled_nowhere",
            "sig a {}\npred p0 { some a }\npred p1 { p0 p0 }\nrun { all x: none | p1 } for 1\n",
        ),
    ];
    for (kind, text) in rows {
        assert!(rt; is_text(rt.alloc(), kind, 2, text)?, "{kind}");
    }
    Ok(())
}

#[test]
fn texts_of_operators(rt: HostRuntime) -> Result<(), Fail> {
    let rows = [
        ("formulas", "sig a {}\nrun { some a some a } for 1\n"),
        (
            "joins",
            "sig a { f: set a }\nrun { some f.f some f.f } for 32\n",
        ),
        ("links", "sig a {}\nrun { some a <=> some a } for 1\n"),
        ("sums", "sig a {}\nrun { some a+a } for 1\n"),
    ];
    for (kind, text) in rows {
        assert!(rt; is_text(rt.alloc(), kind, 2, text)?, "{kind}");
    }
    Ok(())
}

#[test]
fn counts_of_texts(rt: HostRuntime) -> Result<(), Fail> {
    let rows = [
        (0, "pred p0 {}\nrun p0 for 1\n"),
        (1, "pred p0 {}\nrun p0 for 1\n"),
        (2, "pred p0 {}\npred p1 {p0}\nrun p1 for 1\n"),
    ];
    for (count, text) in rows {
        assert!(rt; is_text(rt.alloc(), "chain", count, text)?, "{count}");
    }
    Ok(())
}

#[test]
fn a_number_of_two_digits(rt: HostRuntime) -> Result<(), Fail> {
    let text = "sig s0,s1,s2,s3,s4,s5,s6,s7,s8,s9,s10 {}\nrun {} for 1\n";
    assert!(rt; is_text(rt.alloc(), "signatures", 11, text)?);
    Ok(())
}

#[test]
fn there_is_no_such_text(rt: HostRuntime) -> Result<(), Fail> {
    for (kind, count) in [("chains", 1), ("", 1), ("chain", 1_000_001)] {
        assert!(rt; text_of(rt.alloc(), kind, count)?.is_none(), "{kind}");
    }
    Ok(())
}

#[test]
fn shapes_have_their_kinds(rt: HostRuntime) {
    for kind in ["signatures", "joins", "doubled_nowhere"] {
        assert!(rt;
            shape_of(kind).is_some_and(|shape| shape.kind == kind),
            "{kind}"
        );
    }
    assert!(rt; shape_of("shapes").is_none());
}

#[test]
fn words_of_stages(rt: HostRuntime) {
    let rows = [
        ("text", Some(Stage::Text)),
        ("parse", Some(Stage::Tree)),
        ("names", Some(Stage::Names)),
        ("types", Some(Stage::Types)),
        ("lower", Some(Stage::Problem)),
        ("terms", Some(Stage::Terms)),
        ("tree", None),
    ];
    for (word, stage) in rows {
        assert!(rt; stage_of(word) == stage, "{word}");
    }
}
