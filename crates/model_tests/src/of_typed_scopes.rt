// Local names are counted outward and left.
use model_types::bounding_types::BoundingType;
use overload_resolution::typed_scopes::Scope;
use overload_resolution::typed_scopes::types::leave_until;
use std::alloc::{AllocError, Global};
use std::test::Fail;

// A name of each of these arities, the last of them innermost.
fn enter_all(alloc: Global, scope: &mut Scope, arities: &[usize]) -> Result<(), AllocError> {
    for arity in arities {
        scope.locals.enter(*arity, BoundingType::new(alloc))?;
    }
    Ok(())
}

// Names of arity 1 and 3, and one of arity 2 in the place of the last one.
fn nested(alloc: Global) -> Result<Scope, AllocError> {
    let mut scope = Scope::new(alloc);
    enter_all(alloc, &mut scope, &[1, 3])?;
    scope.locals.leave();
    enter_all(alloc, &mut scope, &[2])?;
    Ok(scope)
}

fn arities(scope: &Scope) -> (usize, Option<usize>, Option<usize>, Option<usize>) {
    let locals = &scope.locals;
    (
        locals.depth(),
        locals.arity(0),
        locals.arity(1),
        locals.arity(2),
    )
}

#[test]
fn local_names_are_counted_outward(rt: HostRuntime) -> Result<(), Fail> {
    let scope = nested(rt.alloc())?;
    assert_eq!(rt; arities(&scope), (2, Some(2), Some(1), None));
    Ok(())
}

// The scope without its inner name.
fn left(alloc: Global) -> Result<Scope, AllocError> {
    let mut scope = nested(alloc)?;
    leave_until(&mut scope, 1);
    Ok(scope)
}

#[test]
fn local_names_are_left(rt: HostRuntime) -> Result<(), Fail> {
    let scope = left(rt.alloc())?;
    assert_eq!(rt; arities(&scope), (1, Some(1), None, None));
    Ok(())
}
