// The predicates that may be run.
ghost use Rattle.std.specs.Prelude.{◌≡◌, [], ◌∷◌, ◌++◌, List, map, flat_map, Some, None, false, if◌then◌else◌, slice_index_or, OnOk, IfOk};
ghost use Rattle.std.specs.List.{list_any};
ghost use Rattle.alloy_syntax.specs.View.{declaration_view, paragraph_view};
ghost use Rattle.named_model.specs.Answers.{first_in};
ghost use Rattle.named_model.specs.declared.fault.NameFault.TheVariants as fault;
ghost use Rattle.named_model.specs.Faults as spec;
ghost use Rattle.sig_resolve.specs.Commands.Predicates.{Run, run_of, AreRuns, higher_at, is_higher_mark};

use crate::command_names::arrows::has_arrow;
use alloy_lex::Place;
use alloy_syntax::tree::{Declaration, Multiplicity, MultiplicityWord, Name, Paragraph};
use name_tables::{Header, Names};
use named_model::NameFault;
use std::alloc::{AllocError, Global};

// The predicates of a model by their names, and whether each has a parameter that need not be a single atom.
#[derive(Drop)]
pub struct Predicates {
    pub names: Names,
    pub higher: Vec<bool>,
}

pub fn predicates_of(alloc: Global, paragraphs: &[Paragraph]) -> Result<Predicates, AllocError>
    ensures { IfOk result (λ x. AreRuns (flat_map run_of (map paragraph_view paragraphs.now)) x.names x.higher.items) }
{
    let mut all = Predicates {
        names: Names::new(alloc),
        higher: Vec::new(alloc),
    };
    for paragraph in paragraphs {
        add(alloc, &mut all, paragraph)?;
    }
    Ok(all)
}

// A predicate more, if the paragraph is one.
fn add(alloc: Global, all: &mut Predicates, paragraph: &Paragraph) -> Result<(), AllocError>
    ensures { OnOk result ((runs : List Run) → AreRuns runs all.old.names all.old.higher.items → AreRuns (runs ++ run_of (paragraph_view paragraph.now)) all.new.names all.new.higher.items) }
{
    match paragraph {
        Paragraph::Predicate(name, declarations, _) => {
            Ok(enter(alloc, all, name, has_higher(declarations))?)
        }
        Paragraph::Signatures(_) => Ok(()),
        Paragraph::Fact(_, _) => Ok(()),
        Paragraph::Function(_) => Ok(()),
        Paragraph::Assertion(_, _) => Ok(()),
        Paragraph::Command(_) => Ok(()),
    }
}

fn enter(
    alloc: Global,
    all: &mut Predicates,
    name: &Name,
    is_higher: bool,
) -> Result<(), AllocError>
    ensures { OnOk result ((runs : List Run) → AreRuns runs all.old.names all.old.higher.items → AreRuns (runs ++ record { name = name.now.text; is_higher = is_higher } ∷ []) all.new.names all.new.higher.items) }
{
    let header = Header {
        is_function: false,
        parameters: 0,
    };
    all.names.declare_callee(alloc, name.text.text(), header)?;
    all.higher.push(is_higher)?;
    Ok(())
}

// Whether one of these parameters need not be a single atom.
fn has_higher(declarations: &[Declaration]) -> bool
    ensures { result ≡ list_any spec.is_higher_domain (map declaration_view declarations.now) }
{
    for declaration in declarations {
        if is_higher(declaration) {
            return true;
        }
    }
    false
}

fn is_higher(declaration: &Declaration) -> bool
    ensures { result ≡ spec.is_higher_domain (declaration_view declaration.now) }
{
    is_many(declaration.mark) || has_arrow(&declaration.domain)
}

// Whether a variable behind this word need not be a single atom.
fn is_many(mark: Option<MultiplicityWord>) -> bool
    ensures { result ≡ is_higher_mark mark }
{
    match mark {
        None => false,
        Some(mark) => match mark.multiplicity {
            Multiplicity::One => false,
            _ => true,
        },
    }
}

impl Predicates {
    // What is wrong where the predicate of this name is run.
    pub fn fault(&self, name: &Name) -> Option<NameFault>
        ensures { (runs : List Run) → AreRuns runs self.now.names self.now.higher.items → result ≡ first_in (spec.run_faults name.now.place (higher_at name.now.text runs)) }
    {
        match self.names.callee(name.text.text()) {
            Some(number) => higher_fault(&self.higher, number, name.place),
            None => Some(NameFault::Unknown { place: name.place }),
        }
    }
}

fn higher_fault(higher: &[bool], number: usize, place: Place) -> Option<NameFault>
    ensures { result ≡ (if slice_index_or higher.now number false then Some (fault.HigherOrder place) else None) }
{
    if is_higher_at(higher, number) {
        Some(NameFault::HigherOrder { place })
    } else {
        None
    }
}

fn is_higher_at(higher: &[bool], number: usize) -> bool
    ensures { result ≡ slice_index_or higher.now number false }
{
    if number < higher.len() {
        higher[number]
    } else {
        false
    }
}
