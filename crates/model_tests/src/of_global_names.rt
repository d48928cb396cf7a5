// Texts with more fields than there is room for.
use crate::crossed_names::crossed;
use crate::reading::tree;
use name_tables::Names;
use name_tables::global_names::global_names;
use named_model::Standing;
use std::alloc::{AllocError, Global};
use std::test::Fail;

fn shown(standing: Standing) -> (&'static str, usize) {
    match standing {
        Standing::Signature(number) => ("signature", number),
        _ => ("another", 0),
    }
}

fn names(alloc: Global, text: &str) -> Option<Names> {
    match tree(alloc, text) {
        Some(model) => global_names(alloc, &model.paragraphs).ok(),
        None => None,
    }
}

fn standing(alloc: Global, text: &str, name: &str) -> (&'static str, usize) {
    match names(alloc, text) {
        Some(names) => shown(names.standing(name)),
        None => ("no names", 0),
    }
}

// What A stands for in `sig A, A, .. { f, f, ..: A }`, with so many names of each behind the first one.
fn standing_in_crossed(
    alloc: Global,
    more: usize,
    fields: usize,
) -> Result<(&'static str, usize), AllocError> {
    let text = crossed(alloc, more, ", f", fields)?;
    Ok(standing(alloc, &text, "A"))
}

#[test]
fn too_many_fields_are_want_of_memory(rt: HostRuntime) -> Result<(), Fail> {
    for (more, fields, want) in [(1_023, 1_024, ("no names", 0)), (99, 99, ("signature", 0))] {
        let found = standing_in_crossed(rt.alloc(), more, fields)?;
        assert_eq!(rt; found, want, "{more}");
    }
    Ok(())
}
