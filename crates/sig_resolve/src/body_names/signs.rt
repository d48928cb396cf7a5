// Single names, calls and words before domains.
ghost use Rattle.std.specs.Prelude.{◌≡◌, ◌==◌, [], map};
ghost use Rattle.named_model.specs.Names as spec;
ghost use Rattle.named_model.specs.View.{phrase_view, step_view as phrase_step_view};
ghost use Rattle.named_model.specs.Phrase.{steps_of};
ghost use Rattle.name_tables.specs.Told.{Answers};

use alloy_lex::Place;
use alloy_syntax::tree::{Multiplicity, MultiplicityWord, Name};
use name_tables::Names;
use named_model::phrase::{Phrase, Referent, Step};
use named_model::{NameFault, Standing};
use std::alloc::Global;

// A name tied to its declaration, directly behind which so many parts stand in brackets.
pub fn tied(alloc: Global, names: &Names, behind: usize, name: &Name) -> Result<Phrase, NameFault>
    ensures { Answers result (spec.name_faults names.now.globals name.now.place behind (spec.standing_of names.now.globals names.now.locals name.now.text)) (λ x. phrase_view x ≡ spec.named_as name.now.place (spec.standing_of names.now.globals names.now.locals name.now.text)) }
{
    let place = name.place;
    match names.standing(name.text.text()) {
        Standing::Local(number) => Ok(Phrase::Refers(place, Referent::Local(number))),
        Standing::Signature(number) => Ok(Phrase::Refers(place, Referent::Signature(number))),
        Standing::Field(number) => Ok(Phrase::Refers(place, Referent::Field(number))),
        Standing::Shared(number) => Ok(Phrase::Refers(place, Referent::Shared(number))),
        Standing::Callee(number) => {
            if !is_counted(names, number, behind) {
                return Err(NameFault::Arguments { place });
            }
            Ok(Phrase::Called(place, number, Vec::new(alloc)))
        }
        Standing::Nothing => Err(NameFault::Unknown { place }),
    }
}

// Whether a call has as many arguments as there are parameters, where so many parts stand in brackets directly behind it.
fn is_counted(names: &Names, number: usize, behind: usize) -> bool
    ensures { result ≡ (spec.arguments_of (spec.header_at names.now.globals number) behind == (spec.header_at names.now.globals number).parameters) }
{
    let arguments = if takes(names, number, behind) {
        behind
    } else {
        0
    };
    arguments == names.header(number).parameters
}

// Whether brackets with so many parts, directly behind the name of a predicate or a function, are those of a call.
pub fn takes(names: &Names, number: usize, parts: usize) -> bool
    ensures { result ≡ spec.takes (spec.header_at names.now.globals number) parts }
{
    let header = names.header(number);
    if header.is_function && header.parameters == 0 {
        parts == 0
    } else {
        true
    }
}

// A word before the domain of a variable, which is to be a single atom.
pub fn single(mark: Option<MultiplicityWord>) -> Result<(), NameFault>
    ensures { Answers result (spec.mark_faults mark) (λ _. [] ≡ spec.mark_faults mark) }
{
    match mark {
        None => Ok(()),
        Some(mark) => match mark.multiplicity {
            Multiplicity::One => Ok(()),
            _ => Err(NameFault::HigherOrder { place: mark.place }),
        },
    }
}

// An expression with the steps behind it, if there are any.
pub fn path_of(alloc: Global, head: Phrase, steps: Vec<Step>) -> Result<Phrase, NameFault>
    ensures { Answers result [] (λ x. phrase_view x ≡ spec.path_of (phrase_view head) (steps_of (map phrase_step_view steps.items))) }
{
    if steps.is_empty() {
        return Ok(head);
    }
    Ok(Phrase::Path(Box::new(alloc, head)?, steps))
}
