// The lines of cells.
ghost use Rattle.std.specs.Prelude.{◌≡◌, ◌<◌, ◌++◌, length, codes, decimal, All, IfOk};
ghost use Rattle.std.specs.List.{flat_map};
ghost use Rattle.rel_formula.specs.Bounds.{cells_of};
ghost use Rattle.rel_formula.specs.Instance.{AreCells};
ghost use Rattle.script_text.specs.Lines.{tuple_text};
ghost use Rattle.script_text.specs.Replies.{cell_line};

use crate::numbers::push_number_line;
use crate::relation_lines::push_tuple;
use rel_formula::{Problem, Relation};
use std::alloc::AllocError;
use tuple_core::Atom;

/// Adds how many cells there are, and a line for each of them. They are the problem's.
pub fn push_offers(out: &mut Vec<u8>, problem: &Problem, cells: &[u32]) -> Result<(), AllocError>
    requires { AreCells problem.now cells.now }
    ensures { IfOk result (λ _. out.new.items ≡ out.old.items ++ (codes "offers " ++ decimal (length cells.now) ++ codes "\n" ++ flat_map (cell_line problem.now) cells.now)) }
{
    push_number_line(out, b"offers ", cells.len() as u64)?;
    push_cells(out, problem, cells)?;
    Ok(())
}

// Adds a line for each cell.
fn push_cells(out: &mut Vec<u8>, problem: &Problem, cells: &[u32]) -> Result<(), AllocError>
    requires { AreCells problem.now cells.now }
    ensures { IfOk result (λ _. out.new.items ≡ out.old.items ++ flat_map (cell_line problem.now) cells.now) }
{
    for cell in cells {
        push_cell(out, problem, *cell)?;
    }
    Ok(())
}

// Adds the line of a cell.
fn push_cell(out: &mut Vec<u8>, problem: &Problem, number: u32) -> Result<(), AllocError>
    requires { number < length (cells_of problem.now) }
    ensures { IfOk result (λ _. out.new.items ≡ out.old.items ++ cell_line problem.now number) }
{
    let cell = problem.cell(number);
    let relations = problem.relations();
    let relation = &relations[cell.relation as usize];
    push_member(out, problem, relation, cell.tuple.atoms())?;
    Ok(())
}

// Adds the line of a relation's name and a tuple. The signatures of its atoms are those of the problem.
fn push_member(
    out: &mut Vec<u8>,
    problem: &Problem,
    relation: &Relation,
    atoms: &[Atom],
) -> Result<(), AllocError>
    requires { All (λ a. a.top < length problem.now.tops) atoms.now }
    ensures { IfOk result (λ _. out.new.items ≡ out.old.items ++ (relation.now.name ++ codes " " ++ tuple_text problem.now atoms.now ++ codes "\n")) }
{
    out.extend_from_slice(relation.name.text().as_bytes())?;
    out.extend_from_slice(b" ")?;
    push_tuple(out, problem, atoms)?;
    out.extend_from_slice(b"\n")?;
    Ok(())
}
