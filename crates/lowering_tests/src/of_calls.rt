// That fields of one name have names of their own, and calls become bodies.
use crate::counting::counts;
use crate::lowered::lowered;
use rel_formula::Problem;
use std::alloc::{AllocError, Global};
use std::test::Fail;

const CALLING: &str =
    "sig A { f: set B } sig B { f: set A } fun g [x: A]: set B { x.f } run { some a: A | some g[a] } for 1";

// The names of a problem's relations, with a blank behind each.
fn names_of(alloc: Global, problem: &Problem) -> Result<String, AllocError> {
    let mut names = String::new(alloc);
    for relation in problem.relations() {
        names.push_str(relation.name.text())?;
        names.push_str(" ")?;
    }
    Ok(names)
}

// The names of the relations of a model, where it has a problem.
fn names(alloc: Global, text: &str) -> Result<String, Fail> {
    match lowered(alloc, text, 1, None)? {
        Ok(problem) => Ok(names_of(alloc, &problem)?),
        Err(_) => Err("no problem")?,
    }
}

// one atom of each signature, the first of which leads to the second
#[test]
fn a_function(rt: HostRuntime) -> Result<(), Fail> {
    counts(&rt, rt.alloc(), &[(CALLING, 2)])
}

#[test]
fn fields_of_one_name(rt: HostRuntime) -> Result<(), Fail> {
    let names = names(rt.alloc(), CALLING)?;
    assert_eq!(rt; names.as_str(), "A B A.f B.f ");
    Ok(())
}
