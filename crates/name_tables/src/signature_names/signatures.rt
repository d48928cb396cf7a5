// Signatures with their parents.
ghost use Rattle.std.specs.Prelude.{◌≡◌, ◌++◌, map, option_map, OnOk};
ghost use Rattle.alloy_syntax.specs.declared.tree.Parent.{Parent};
ghost use Rattle.named_model.specs.Declarations.{number_in};
ghost use Rattle.named_model.specs.Faults.{unless_signature, parent_faults};
ghost use Rattle.name_tables.specs.Told.{Answers};
ghost use Rattle.name_tables.specs.Signatures.Named.{signature_under};

use crate::Names;
use alloy_syntax::tree::{Manner, MultiplicityWord, Name, Parent};
use named_model::NameFault;
use named_model::named::Signature;
use std::alloc::{AllocError, Global};

/// The number of the signature of a name.
pub fn signature(names: &Names, name: &Name) -> Result<usize, NameFault>
    ensures { Answers result (unless_signature names.now.globals name.now) (λ n. n ≡ number_in names.now.globals.signatures name.now) }
{
    match names.signature(name.text.text()) {
        Some(number) => Ok(number),
        None => Err(NameFault::Unknown { place: name.place }),
    }
}

/// The parent that the signatures of a paragraph have, if they have one.
pub fn parent(names: &Names, parent: &Option<Parent>) -> Result<Option<(Manner, usize)>, NameFault>
    ensures { Answers result (parent_faults names.now.globals parent.now) (λ x. x ≡ option_map (λ (p : Parent). (p.manner, number_in names.now.globals.signatures p.name)) parent.now) }
{
    match parent {
        Some(parent) => {
            let number = signature(names, &parent.name)?;
            Ok(Some((parent.manner, number)))
        }
        None => Ok(None),
    }
}

/// Adds signatures of these names.
pub fn add_signatures(
    alloc: Global,
    is_abstract: bool,
    mark: Option<MultiplicityWord>,
    parent: Option<(Manner, usize)>,
    names: &[Name],
    signatures: &mut Vec<Signature>,
) -> Result<(), AllocError>
    ensures { OnOk result (signatures.new.items ≡ signatures.old.items ++ map (signature_under is_abstract mark parent) names.now) }
{
    for name in names {
        signatures.push(Signature {
            name: name.text.copy(alloc)?,
            place: name.place,
            is_abstract,
            mark,
            parent,
        })?;
    }
    Ok(())
}
