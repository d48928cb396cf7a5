// The first signature that is its own parent.
ghost use Rattle.std.specs.Prelude.{◌≡◌, map, flat_map, slice_get, option_map, IfOk};
ghost use Rattle.alloy_syntax.specs.View.{paragraph_view};
ghost use Rattle.named_model.specs.Answers.{first_in};
ghost use Rattle.named_model.specs.Declarations.{globals_of};
ghost use Rattle.named_model.specs.Faults.{children, cycle_faults};
ghost use Rattle.named_model.specs.declared.fault.NameFault.TheVariants.{Cycle};

use crate::Names;
use crate::parent_cycles::graph::graph_of;
use alloy_lex::Place;
use alloy_syntax::tree::Paragraph;
use named_model::NameFault;
use reference_cycles::number_cycles::first_cyclic;
use std::alloc::{AllocError, Global};

/// The fault of the first signature that is its own parent over one or more steps, if one is, where the names have the
/// signatures of the paragraphs. It takes time that grows with these. A parent that is no signature is above nothing, and of several
/// signatures of one name the first one counts.
pub fn first_cycle(
    alloc: Global,
    names: &Names,
    paragraphs: &[Paragraph],
) -> Result<Option<NameFault>, AllocError>
    ensures { names.now.globals.signatures ≡ (globals_of (map paragraph_view paragraphs.now)).signatures → IfOk result (λ fault. fault ≡ first_in (flat_map (cycle_faults (flat_map children (map paragraph_view paragraphs.now))) (flat_map children (map paragraph_view paragraphs.now)))) }
{
    let graph = graph_of(alloc, names, paragraphs)?;
    match first_cyclic(alloc, &graph.rows)? {
        Some(number) => Ok(fault_of(&graph.places, number)),
        None => Ok(None),
    }
}

// The fault of the signature of this number, if it is its own parent.
fn fault_of(places: &[Place], number: usize) -> Option<NameFault>
    ensures { result ≡ option_map Cycle (slice_get places.now number) }
{
    match places.get(number) {
        Some(place) => Some(NameFault::Cycle { place: *place }),
        None => None,
    }
}
