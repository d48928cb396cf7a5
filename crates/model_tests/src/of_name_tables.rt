// What names stand for where local names hide them.
use name_tables::Names;
use named_model::Standing;
use std::alloc::{AllocError, Global};
use std::process::Abort;
use std::test::Fail;

fn shown(standing: Standing) -> (&'static str, usize) {
    match standing {
        Standing::Local(number) => ("local", number),
        Standing::Signature(number) => ("signature", number),
        Standing::Nothing => ("nothing", 0),
        _ => ("another", 0),
    }
}

fn enter_all(alloc: Global, names: &mut Names, texts: &[&str]) -> Result<(), AllocError> {
    for text in texts {
        names.enter(alloc, text)?;
    }
    Ok(())
}

// sig A {}, and inside it x, A and x
fn entered(alloc: Global) -> Result<Names, AllocError> {
    let mut names = Names::new(alloc);
    names.declare_signature(alloc, "A")?;
    enter_all(alloc, &mut names, &["x", "A", "x"])?;
    Ok(names)
}

// How many local names there are, and what `x` and `A` stand for.
type Inner<'a> = (usize, (&'a str, usize), (&'a str, usize));

fn inner(names: &Names) -> Inner<'static> {
    let x = shown(names.standing("x"));
    let a = shown(names.standing("A"));
    (names.depth(), x, a)
}

// After each row the innermost name is left.
fn tells_inner(rt: &impl Abort, alloc: Global, rows: &[Inner]) -> Result<(), Fail> {
    let mut names = entered(alloc)?;
    for seen in rows {
        let found = inner(&names);
        assert_eq!(*rt; found, *seen);
        names.leave();
    }
    Ok(())
}

#[test]
fn inner_names_hide(rt: HostRuntime) -> Result<(), Fail> {
    tells_inner(
        &rt,
        rt.alloc(),
        &[
            (3, ("local", 0), ("local", 1)),
            (2, ("local", 1), ("local", 0)),
            (1, ("local", 0), ("signature", 0)),
            (0, ("nothing", 0), ("signature", 0)),
            (0, ("nothing", 0), ("signature", 0)),
        ],
    )
}
