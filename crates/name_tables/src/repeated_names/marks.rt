// What was declared so far, so that a repeated name is found at once.
ghost use Rattle.std.specs.Prelude.{◌≡◌, ◌++◌, [], ◌∷◌, List, IfOk, OnOk};
ghost use Rattle.named_model.specs.Answers.{first_in};
ghost use Rattle.name_tables.specs.Repeats.Coded.{repeats};
ghost use Rattle.name_tables.specs.Repeats.Marks.{AreMarks, has, is_marked, marks_of};
ghost use Rattle.name_tables.specs.declared.repeated_names.stated.Space.TheVariants.{Under};

use crate::repeated_names::stated::{Coded, Space};
use indexmap::IndexSet;
use named_model::NameFault;
use std::alloc::{AllocError, Global};

/// That a name of this number is declared: among the global names; as some field; as a field under no top-level signature;
/// as a field under the top-level signature of the first number; as an assertion; as a parameter of the paragraph of the
/// first number.
#[derive(Clone, Copy, PartialEq, Eq, Hash)]
pub enum Mark {
    Global(usize),
    Field(usize),
    Loose(usize),
    Under(usize, usize),
    Assertion(usize),
    Parameter(usize, usize),
}

/// The fault of the first name that is declared for the second time, if one is.
pub fn first_of(alloc: Global, coded: &[Coded]) -> Result<Option<NameFault>, AllocError>
    ensures { IfOk result (λ fault. fault ≡ first_in (repeats [] coded.now)) }
{
    let mut marks = IndexSet::new(alloc);
    for each in coded {
        if is_marked(&marks, each.space, each.word) {
            return Ok(Some(NameFault::Twice { place: each.place }));
        }
        keep(&mut marks, each.space, each.word)?;
    }
    Ok(None)
}

// Whether a name may not be declared in this place too.
fn is_marked(marks: &IndexSet<Mark>, space: Space, word: usize) -> bool
    ensures { (ms : List Mark) → AreMarks ms marks.now.keys → result ≡ is_marked ms space word }
{
    match space {
        Space::Global => has(marks, Mark::Global(word)) || has(marks, Mark::Field(word)),
        Space::Under(top) => is_under(marks, top, word),
        Space::Loose => has(marks, Mark::Global(word)) || has(marks, Mark::Field(word)),
        Space::Assertions => has(marks, Mark::Assertion(word)),
        Space::Parameters(number) => has(marks, Mark::Parameter(number, word)),
    }
}

fn is_under(marks: &IndexSet<Mark>, top: usize, word: usize) -> bool
    ensures { (ms : List Mark) → AreMarks ms marks.now.keys → result ≡ is_marked ms (Under top) word }
{
    has(marks, Mark::Global(word))
        || has(marks, Mark::Loose(word))
        || has(marks, Mark::Under(top, word))
}

fn has(marks: &IndexSet<Mark>, mark: Mark) -> bool
    ensures { (ms : List Mark) → AreMarks ms marks.now.keys → result ≡ has ms mark }
{
    marks.contains(&mark)
}

// Marks that a name is declared there.
fn keep(marks: &mut IndexSet<Mark>, space: Space, word: usize) -> Result<(), AllocError>
    ensures { OnOk result ((ms : List Mark) → AreMarks ms marks.old.keys → AreMarks (ms ++ marks_of space word) marks.new.keys) }
{
    match space {
        Space::Global => Ok(put(marks, Mark::Global(word))?),
        Space::Under(top) => {
            put(marks, Mark::Field(word))?;
            Ok(put(marks, Mark::Under(top, word))?)
        }
        Space::Loose => {
            put(marks, Mark::Field(word))?;
            Ok(put(marks, Mark::Loose(word))?)
        }
        Space::Assertions => Ok(put(marks, Mark::Assertion(word))?),
        Space::Parameters(number) => Ok(put(marks, Mark::Parameter(number, word))?),
    }
}

fn put(marks: &mut IndexSet<Mark>, mark: Mark) -> Result<(), AllocError>
    ensures { OnOk result ((ms : List Mark) → AreMarks ms marks.old.keys → AreMarks (ms ++ mark ∷ []) marks.new.keys) }
{
    marks.insert(mark)?;
    Ok(())
}
