// The names of relations.
ghost use Rattle.std.specs.Prelude.{◌≡◌, ◌≤◌, ◌++◌, ◌∷◌, [], bytes_eq, codes, filter, length, map, IfOk};
ghost use Rattle.named_model.specs.Model.{FieldTree};
ghost use Rattle.named_model.specs.Signatures.{signature_at};
ghost use Rattle.named_model.specs.View.{field_view, named_view};
ghost use Rattle.lowering_rules.specs.Relations.{field_name, is_shared};

use named_model::Named;
use named_model::named::{Field, Signature};
use std::alloc::{AllocError, Global};
use tuple_core::Name;

/// The name of a field's relation: the field's, behind that of its signature where several fields have it.
pub fn field_name(alloc: Global, named: &Named, field: &Field) -> Result<Name, AllocError>
    ensures { IfOk result (λ name. name ≡ field_name (named_view named.now) (field_view field.now)) }
{
    if is_shared(&named.fields, field.name.text()) {
        Ok(qualified(
            alloc,
            signature_name(&named.signatures, field.owner),
            field.name.text(),
        )?)
    } else {
        Name::of(alloc, field.name.text())
    }
}

// Whether several fields have the name.
fn is_shared(fields: &[Field], name: &str) -> bool
    ensures { result ≡ is_shared (map field_view fields.now) name.now }
{
    let mut count = 0;
    for field in fields {
        count += number_of(field, name);
    }
    1 < count
}

// 1 if the field has the name, else 0.
fn number_of(field: &Field, name: &str) -> usize
    ensures value { result ≡ length (filter (λ (f : FieldTree). bytes_eq f.name name.now) (field_view field.now ∷ [])) }
    ensures few { result ≤ 1 }
{
    if field.name.text() == name { 1 } else { 0 }
}

// The name of the signature of that number, and no text where there is none.
fn signature_name(signatures: &[Signature], number: usize) -> &str
    ensures { result.now ≡ (signature_at signatures.now number).name }
{
    match signatures.get(number) {
        None => "",
        Some(signature) => signature.name.text(),
    }
}

// Two names with a dot between them.
fn qualified(alloc: Global, owner: &str, name: &str) -> Result<Name, AllocError>
    ensures { IfOk result (λ n. n ≡ owner.now ++ codes "." ++ name.now) }
{
    let mut text = String::from_str(alloc, owner)?;
    text.push_str(".")?;
    text.push_str(name)?;
    Name::of(alloc, text.as_str())
}
