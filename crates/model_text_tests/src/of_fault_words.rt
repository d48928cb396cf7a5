// The words of faults, each of them once.
use alloy_lex::{LexFault, Place, Text};
use alloy_parse::ParseFault;
use lowering_rules::{LowerFault, LowerStop};
use model_texts::fault_words::{
    command_words, lex_words, name_kind, name_words, parse_words, type_words,
};
use model_types::TypeFault;
use named_model::NameFault;
use std::alloc::Global;
use std::process::Abort;
use std::test::Fail;

const HERE: Place = Place {
    line: 2,
    column: 13,
};

fn tells_texts(rt: &impl Abort, alloc: Global, rows: &[(LexFault, &str)]) -> Result<(), Fail> {
    for (fault, told) in rows {
        let words = lex_words(alloc, *fault)?;
        assert!(*rt; *words == *told.as_bytes(), "{told}");
    }
    Ok(())
}

#[test]
fn faults_of_texts(rt: HostRuntime) -> Result<(), Fail> {
    tells_texts(
        &rt,
        rt.alloc(),
        &[
            (LexFault::BadCharacter { place: HERE }, "2:13 bad_character"),
            (LexFault::OpenComment { place: HERE }, "2:13 open_comment"),
            (
                LexFault::NumberTooLarge { place: HERE },
                "2:13 number_too_large",
            ),
        ],
    )
}

fn tells_tokens(rt: &impl Abort, alloc: Global, rows: &[(ParseFault, &str)]) -> Result<(), Fail> {
    for (fault, told) in rows {
        let words = parse_words(alloc, fault)?;
        assert!(*rt; *words == *told.as_bytes(), "{told}");
    }
    Ok(())
}

#[test]
fn faults_of_tokens(rt: HostRuntime) -> Result<(), Fail> {
    tells_tokens(
        &rt,
        rt.alloc(),
        &[
            (ParseFault::Unexpected { place: HERE }, "2:13 unexpected"),
            (ParseFault::EndOfText { place: HERE }, "2:13 end_of_text"),
            (ParseFault::TooDeep { place: HERE }, "2:13 too_deep"),
        ],
    )
}

#[test]
fn refused_words_are_told(rt: HostRuntime) -> Result<(), Fail> {
    let word = Text::of(rt.alloc(), "always")?;
    let fault = ParseFault::Unsupported { place: HERE, word };
    let told = parse_words(rt.alloc(), &fault)?;
    assert!(rt; told.as_slice() == b"2:13 unsupported always".as_slice());
    Ok(())
}

fn tells_names(rt: &impl Abort, alloc: Global, rows: &[(NameFault, &str)]) -> Result<(), Fail> {
    for (fault, told) in rows {
        let words = name_words(alloc, *fault)?;
        assert!(*rt; *words == *told.as_bytes(), "{told}");
    }
    Ok(())
}

#[test]
fn faults_of_names(rt: HostRuntime) -> Result<(), Fail> {
    tells_names(
        &rt,
        rt.alloc(),
        &[
            (NameFault::Unknown { place: HERE }, "2:13 unknown"),
            (NameFault::Twice { place: HERE }, "2:13 twice"),
            (NameFault::Cycle { place: HERE }, "2:13 cycle"),
            (NameFault::Recursive { place: HERE }, "2:13 recursive"),
            (NameFault::Arguments { place: HERE }, "2:13 arguments"),
            (NameFault::HigherOrder { place: HERE }, "2:13 higher_order"),
        ],
    )
}

#[test]
fn faults_of_scopes_have_no_place(rt: HostRuntime) -> Result<(), Fail> {
    tells_names(
        &rt,
        rt.alloc(),
        &[
            (NameFault::UnknownScope, "unknown_scope"),
            (NameFault::NoScope, "no_scope"),
            (NameFault::ScopeTooLarge, "scope_too_large"),
            (NameFault::TooManyAtoms, "too_many_atoms"),
        ],
    )
}

#[test]
fn words_without_places(rt: HostRuntime) {
    let twice = NameFault::Twice { place: HERE };
    assert!(rt; name_kind(twice) == b"twice".as_slice());
    assert!(rt; name_kind(NameFault::Memory).is_empty());
}

fn tells_types(rt: &impl Abort, alloc: Global, rows: &[(TypeFault, &str)]) -> Result<(), Fail> {
    for (fault, told) in rows {
        let words = type_words(alloc, *fault)?;
        assert!(*rt; *words == *told.as_bytes(), "{told}");
    }
    Ok(())
}

#[test]
fn faults_of_types(rt: HostRuntime) -> Result<(), Fail> {
    tells_types(
        &rt,
        rt.alloc(),
        &[
            (TypeFault::Arity { place: HERE }, "2:13 arity"),
            (TypeFault::NotUnary { place: HERE }, "2:13 not_unary"),
            (TypeFault::NotBinary { place: HERE }, "2:13 not_binary"),
            (
                TypeFault::ArityTooLarge { place: HERE },
                "2:13 arity_too_large",
            ),
            (TypeFault::Sort { place: HERE }, "2:13 sort"),
            (TypeFault::Ambiguous { place: HERE }, "2:13 ambiguous"),
        ],
    )
}

fn tells_commands(rt: &impl Abort, alloc: Global, rows: &[(LowerFault, &str)]) -> Result<(), Fail> {
    for (fault, told) in rows {
        let words = command_words(alloc, 70, *fault)?;
        assert!(*rt; *words == *told.as_bytes(), "{told}");
    }
    Ok(())
}

const NO_SCOPE: LowerFault = LowerFault::Scope(NameFault::NoScope);

const TWICE: LowerFault = LowerFault::Scope(NameFault::Twice { place: HERE });

#[test]
fn faults_of_commands(rt: HostRuntime) -> Result<(), Fail> {
    tells_commands(
        &rt,
        rt.alloc(),
        &[
            (LowerFault::NoCommand, "command 70 no_command"),
            (NO_SCOPE, "command 70 no_scope"),
            (TWICE, "command 70 twice"),
            (
                LowerFault::TooManyRelations,
                "command 70 too_many_relations",
            ),
            (LowerFault::TooManyCells, "command 70 too_many_cells"),
            (LowerFault::TooManyTerms, "command 70 too_many_terms"),
        ],
    )
}

#[test]
fn want_of_memory_is_an_error(rt: HostRuntime) {
    assert!(rt; lex_words(rt.alloc(), LexFault::Memory).is_err());
    assert!(rt; parse_words(rt.alloc(), &ParseFault::Memory).is_err());
    assert!(rt; name_words(rt.alloc(), NameFault::Memory).is_err());
    assert!(rt; type_words(rt.alloc(), TypeFault::Memory).is_err());
}

#[test]
fn no_command_is_told_for_want_of_memory_or_of_room(rt: HostRuntime) {
    for (fault, stop) in [
        (LowerFault::Memory, LowerStop::Memory),
        (LowerFault::Scope(NameFault::Memory), LowerStop::Memory),
        (LowerFault::TooLarge, LowerStop::TooLarge),
    ] {
        let told = command_words(rt.alloc(), 1, fault).err();
        assert_eq!(rt; told, Some(stop));
    }
}
