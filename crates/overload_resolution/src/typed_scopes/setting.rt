// What is declared.
ghost use Rattle.std.specs.Prelude.{◌≡◌, ℕ, [], IfOk};
ghost use Rattle.named_model.specs.Signatures.{tops, top_of};
ghost use Rattle.model_types.specs.Parts.Tables.{entry};
ghost use Rattle.overload_resolution.specs.Scopes.Declaring.{declared_by, alone, AreTables};

use crate::expression_types::Known;
use crate::shared_fields::Fields;
use crate::shared_names::Header;
use model_types::part_sorts::tables::{top_signatures, tops_over};
use named_model::named::Signature;
use std::alloc::{AllocError, Global};

/// What is declared in a model, as far as its parts ask. Signatures, fields, and predicates with functions are numbered from 0
/// in order of declaration. `calls` says how deep calls may be nested.
#[derive(Drop)]
pub struct Setting<'a> {
    pub signatures: &'a [Signature],
    pub fields: Fields,
    pub headers: Vec<Header>,
    pub types: Known,
    pub calls: usize,
}

impl<'a> Setting<'a> {
    /// Signatures, and nothing else: no field, no predicate and no function.
    pub fn new(alloc: Global, signatures: &'a [Signature]) -> Result<Setting<'a>, AllocError>
        ensures tables { IfOk result (λ s. AreTables s) }
        ensures declared { IfOk result (λ s. declared_by s ≡ alone signatures.now) }
        ensures signatures { IfOk result (λ s. s.signatures.now ≡ signatures.now) }
        ensures fields { IfOk result (λ s. s.fields ≡ []) }
        ensures headers { IfOk result (λ s. s.headers.items ≡ []) }
        ensures types { IfOk result (λ s. s.types.fields.items ≡ []) }
        ensures bodies { IfOk result (λ s. s.types.bodies.items ≡ []) }
        ensures kept { IfOk result (λ s. s.types.kept.items ≡ []) }
        ensures calls { IfOk result (λ s. s.calls ≡ 0) }
    {
        let types = signatures_known(alloc, signatures)?;
        Ok(Setting {
            signatures,
            fields: Fields::new(alloc),
            headers: Vec::new(alloc),
            types,
            calls: 0,
        })
    }
}

// What the types of signatures rest on.
fn signatures_known(alloc: Global, signatures: &[Signature]) -> Result<Known, AllocError>
    ensures tops { IfOk result (λ k. k.tops.items ≡ tops signatures.now) }
    ensures over { IfOk result (λ k. (n : ℕ) → entry k.over.items n ≡ top_of signatures.now n) }
    ensures fields { IfOk result (λ k. k.fields.items ≡ []) }
    ensures bodies { IfOk result (λ k. k.bodies.items ≡ []) }
    ensures kept { IfOk result (λ k. k.kept.items ≡ []) }
{
    let tops = top_signatures(alloc, signatures)?;
    let over = tops_over(alloc, signatures)?;
    Ok(Known {
        tops,
        over,
        fields: Vec::new(alloc),
        bodies: Vec::new(alloc),
        kept: Vec::new(alloc),
    })
}
