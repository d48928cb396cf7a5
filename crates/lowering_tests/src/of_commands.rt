// That commands ask for what they run, or against what they check.
use crate::counting::counted;
use crate::lowered::refusal;
use lowering_rules::LowerFault;
use std::test::Fail;

const COMMANDS: &str =
    "sig A {} pred p [x, y: A] { x != y } assert n { no A } run p for 2 check n for 2 run { all a, b, c, d: A | some A } for 32";

// `run p for 2`, where two atoms differ, and `check n for 2`, where there is an atom
#[test]
fn a_predicate_and_a_negated_assertion(rt: HostRuntime) -> Result<(), Fail> {
    for (command, expected) in [(1, 1), (2, 3)] {
        let count = counted(rt.alloc(), COMMANDS, command, None)?;
        assert_eq!(rt; count, expected);
    }
    Ok(())
}

// 32 * 32 * 32 * 32 atoms of four variables
#[test]
fn too_many_terms(rt: HostRuntime) -> Result<(), Fail> {
    let fault = refusal(rt.alloc(), COMMANDS, 3, None)?;
    assert_eq!(rt; fault, Some(LowerFault::TooManyTerms));
    Ok(())
}

// Each `<=>` has both its sides twice.
const EQUIVALENCES: &str =
    "sig A {} run { some A <=> some A <=> some A <=> some A <=> some A <=> some A <=> some A <=> some A <=> some A <=> some A <=> some A <=> some A <=> some A <=> some A <=> some A <=> some A <=> some A <=> some A <=> some A <=> some A <=> some A <=> some A <=> some A <=> some A <=> some A }";

#[test]
fn a_formula_too_large_to_build(rt: HostRuntime) -> Result<(), Fail> {
    let fault = refusal(rt.alloc(), EQUIVALENCES, 1, None)?;
    assert_eq!(rt; fault, Some(LowerFault::TooLarge));
    Ok(())
}

#[test]
fn no_command(rt: HostRuntime) -> Result<(), Fail> {
    for number in [0, 4, u32::MAX] {
        let fault = refusal(rt.alloc(), COMMANDS, number, None)?;
        assert_eq!(rt; fault, Some(LowerFault::NoCommand));
    }
    Ok(())
}
