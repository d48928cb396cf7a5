// The fields of a model, with their types.
ghost use Rattle.std.specs.Prelude.{◌≡◌, [], ◌++◌, ◌∷◌, map, IfOk, OnOk};
ghost use Rattle.named_model.specs.Signatures.{top_of};
ghost use Rattle.named_model.specs.View.{field_view, named_view};
ghost use Rattle.model_types.specs.Bounds.Same.{AreSame};
ghost use Rattle.overload_resolution.specs.Scopes.Declaring.{declared_by, alone, AreTables};
ghost use Rattle.overload_resolution.specs.Expressions.Types.{AreEachSame};
ghost use Rattle.alloy_types.specs.Calls.Fields.{field_type, field_entry};
ghost use Rattle.alloy_types.specs.Calls.Ready.{HasFields};

use alloy_syntax::tree::Operator;
use model_types::bounding_types::BoundingType;
use model_types::bounding_types::operators::operator_type;
use model_types::part_sorts::bounds::bound_arity;
use model_types::part_sorts::tables::entry;
use named_model::named::{Field, Named};
use overload_resolution::shared_fields::Fields;
use overload_resolution::typed_scopes::types::type_inside;
use overload_resolution::typed_scopes::{Locals, Scope, Setting};
use std::alloc::{AllocError, Global};

// Puts the fields of a model with their types, where nothing but its signatures is declared.
pub fn fields_known(
    alloc: Global,
    scope: &mut Scope,
    model: &Named,
    setting: &mut Setting,
) -> Result<(), AllocError>
    requires tables { AreTables setting.old }
    requires declared { declared_by setting.old ≡ alone (named_view model.now).signatures }
    requires kept { setting.old.types.kept.items ≡ [] }
    ensures { OnOk result (HasFields (named_view model.now) setting.new) }
{
    let types = field_types(alloc, setting, scope, &model.fields)?;
    let fields = entries(alloc, setting, &model.fields)?;
    setting.types.fields = types;
    setting.fields = fields;
    Ok(())
}

// The type of each field.
fn field_types(
    alloc: Global,
    setting: &Setting,
    scope: &mut Scope,
    fields: &[Field],
) -> Result<Vec<BoundingType>, AllocError>
    requires { AreTables setting.now }
    ensures { IfOk result (λ ts. AreEachSame ts.items (map (field_type (declared_by setting.now)) (map field_view fields.now))) }
{
    scope.locals = Locals::new(alloc);
    let mut types = Vec::new(alloc);
    for field in fields {
        let of = type_of_field(alloc, setting, scope, field)?;
        types.push(of)?;
    }
    Ok(types)
}

// The signature of a field before its bound.
fn type_of_field(
    alloc: Global,
    setting: &Setting,
    scope: &mut Scope,
    field: &Field,
) -> Result<BoundingType, AllocError>
    requires tables { AreTables setting.now }
    requires locals { scope.old.locals ≡ [] }
    ensures value { IfOk result (λ t. AreSame t (field_type (declared_by setting.now) (field_view field.now))) }
    ensures locals { OnOk result (scope.new.locals ≡ []) }
{
    let top = top_over(setting, field.owner);
    let owner = single(alloc, top)?;
    let bound = type_inside(alloc, setting, scope, &field.bound)?;
    let whole = operator_type(alloc, &mut scope.work, Operator::Product, owner, &bound)?;
    Ok(whole)
}

// The top-level signature over one.
fn top_over(setting: &Setting, number: usize) -> usize
    requires { AreTables setting.now }
    ensures { result ≡ top_of setting.now.signatures.now number }
{
    entry(&setting.types.over, number)
}

// A signature alone.
fn single(alloc: Global, top: usize) -> Result<BoundingType, AllocError>
    ensures { IfOk result (λ t. AreSame t ((top ∷ []) ∷ [])) }
{
    let mut all = BoundingType::new(alloc);
    all.put(Vec::from_slice(alloc, &[top])?)?;
    Ok(all)
}

// Each field with its name, the top-level signature that it belongs to, and its arity.
fn entries(alloc: Global, setting: &Setting, fields: &[Field]) -> Result<Fields, AllocError>
    requires { AreTables setting.now }
    ensures { IfOk result (λ es. es ≡ map (field_entry (declared_by setting.now)) (map field_view fields.now)) }
{
    let mut entries = Fields::new(alloc);
    for field in fields {
        push(alloc, setting, &mut entries, field)?;
    }
    Ok(entries)
}

fn push(
    alloc: Global,
    setting: &Setting,
    entries: &mut Fields,
    field: &Field,
) -> Result<(), AllocError>
    requires { AreTables setting.now }
    ensures { OnOk result (entries.new ≡ entries.old ++ field_entry (declared_by setting.now) (field_view field.now) ∷ []) }
{
    let top = top_over(setting, field.owner);
    let arity = bound_arity(&field.bound)?.checked_add(1).ok_or(AllocError)?;
    entries.push(alloc, field.name.text(), top, arity)
}
