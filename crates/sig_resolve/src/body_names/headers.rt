// The parameters of predicates and functions.
ghost use Rattle.std.specs.Prelude.{◌≡◌, map, OnOk};
ghost use Rattle.alloy_syntax.specs.Tree.{declarations_of};
ghost use Rattle.alloy_syntax.specs.View.{declaration_view};
ghost use Rattle.named_model.specs.Names as spec;
ghost use Rattle.named_model.specs.Phrase.{domains_of};
ghost use Rattle.named_model.specs.View.{domain_view};
ghost use Rattle.name_tables.specs.InForce.{with_locals};
ghost use Rattle.name_tables.specs.Told.{Answers};

use crate::body_names::parts::domain;
use alloy_syntax::tree::Declaration;
use name_tables::Names;
use named_model::NameFault;
use named_model::phrase::Domain;
use std::alloc::Global;

/// The domains of parameters, each of which sees the parameters before, or the first fault of their names. All parameters are
/// entered. Before a domain any word may stand.
pub fn parameters(
    alloc: Global,
    names: &mut Names,
    declarations: &[Declaration],
) -> Result<Vec<Domain>, NameFault>
    ensures value { Answers result (spec.parameter_faults names.old.globals names.old.locals (map declaration_view declarations.now)) (λ xs. domains_of (map domain_view xs.items) ≡ spec.declarations_resolved names.old.globals names.old.locals (declarations_of (map declaration_view declarations.now))) }
    ensures names { OnOk result (names.new ≡ with_locals names.old (spec.behind_declarations names.old.locals (declarations_of (map declaration_view declarations.now)))) }
{
    let mut all = Vec::new(alloc);
    for declaration in declarations {
        let another = domain(alloc, names, declaration)?;
        all.push(another)?;
    }
    Ok(all)
}
