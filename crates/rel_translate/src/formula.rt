// The node of a formula.
ghost use Rattle.std.specs.Prelude.{◌≡◌, ◌<◌, ◌+◌, ◌∷◌, ℕ, All, AllPairs, length, map, reverse, IfOk, IsTrue};
ghost use Rattle.bool_circuit.specs.Network.{size};
ghost use Rattle.bool_circuit.specs.Value.{value_at};
ghost use Rattle.rel_formula.specs.View.{formula_tree};
ghost use Rattle.rel_formula.specs.Kernel.{formulas_of};
ghost use Rattle.rel_formula.specs.Bounds.{IsAtomOf};
ghost use Rattle.rel_formula.specs.Meaning.{Truth};
ghost use Rattle.rel_formula.specs.Evaluation.{HoldsOf};
ghost use Rattle.rel_formula.specs.Shape.{IsProper};
ghost use Rattle.rel_terms.specs.Numbers.{Is, ◌⊕◌};
ghost use Rattle.rel_terms.specs.Upper.{upper_structure};
ghost use Rattle.rel_terms.specs.Terms.{FormulasHave, each_terms};
ghost use Rattle.rel_terms.specs.Counting.{RowsHave, arities_of};
ghost use Rattle.rel_translate.specs.Tables.{structure_at, IsReady};
ghost use Rattle.rel_translate.specs.Makes.{HasRoomFor, FormulaTermsOf, Tells, IsTold};
ghost use Rattle.rel_translate.specs.Grounding.{IsGuarded, IsMet, AreNotBothMet, IsGrounded};

use crate::comparing::{has_at_least, is_compared};
use crate::expression::matrix;
use crate::gates::{connected, constant, guarded_also, lone_still, met_also, neither, of_none};
use crate::tables::Tables;
use bool_circuit::{Circuit, Node};
use bool_matrix::Entry;
use rel_formula::{Connective, Formula, Problem, Quantifier};
use std::alloc::{AllocError, Global};
use tuple_core::Atom;

// The node of a formula, where `env` has the variables' atoms, the innermost last; `env` is as before in the end. A quantifier is
// grounded over the tuples that are there in its domain's matrix.
#[cycle(truth)]
pub fn truth(
    alloc: Global,
    problem: &Problem,
    tables: &Tables,
    env: &mut Vec<Atom>,
    circuit: &mut Circuit,
    f: &Formula,
) -> Result<Node, AllocError>
    requires ready { IsReady circuit.old problem.now tables.now.always tables.now.relations.items tables.now.universe (reverse env.old.items) }
    requires proper { IsProper (arities_of problem.now) (length env.old.items) (formula_tree f.now) }
    requires room { HasRoomFor (size circuit.old) (FormulaTermsOf problem.now (reverse env.old.items) (formula_tree f.now)) }
    ensures told { IfOk result (λ node. IsTold circuit.old circuit.new problem.now (reverse env.old.items) (formula_tree f.now) node) }
    ensures env { IfOk result (λ _. env.new.items ≡ env.old.items) }
{
    match f {
        Formula::Compared(comparison, a, b) => Ok(is_compared(
            alloc,
            problem,
            tables,
            env.as_slice(),
            circuit,
            *comparison,
            a,
            b,
        )?),
        Formula::AtLeast(n, e) => Ok(has_at_least(
            alloc,
            problem,
            tables,
            env.as_slice(),
            circuit,
            *n,
            e,
        )?),
        Formula::Not(g) => {
            let inner = truth(alloc, problem, tables, env, circuit, g)?;
            Ok(neither(circuit, inner)?)
        }
        Formula::Junction(connective, parts) => {
            Ok(true_of(alloc, problem, tables, env, circuit, *connective, parts)?)
        }
        Formula::Quantified(quantifier, e, g) => {
            let domain = matrix(alloc, problem, tables, env.as_slice(), circuit, e)?;
            Ok(true_for(
                alloc,
                problem,
                tables,
                env,
                circuit,
                *quantifier,
                domain.entries(),
                g,
            )?)
        }
    }
}

// A node that is true where each formula is, or where some is.
#[cycle(truth)]
fn true_of(
    alloc: Global,
    problem: &Problem,
    tables: &Tables,
    env: &mut Vec<Atom>,
    circuit: &mut Circuit,
    connective: Connective,
    parts: &[Formula],
) -> Result<Node, AllocError>
    requires ready { IsReady circuit.old problem.now tables.now.always tables.now.relations.items tables.now.universe (reverse env.old.items) }
    requires proper { All (λ f. IsProper (arities_of problem.now) (length env.old.items) (formula_tree f)) parts.now }
    requires room { HasRoomFor (size circuit.old) (Is 1 ⊕ FormulasHave (upper_structure problem.now) (reverse env.old.items) (formulas_of (map formula_tree parts.now))) }
    ensures told { IfOk result (λ node. Tells circuit.old circuit.new node (λ s. HoldsOf connective (λ f. Truth (structure_at problem.now s) (reverse env.old.items) (formula_tree f)) parts.now) (Is 1 ⊕ FormulasHave (upper_structure problem.now) (reverse env.old.items) (formulas_of (map formula_tree parts.now)))) }
    ensures env { IfOk result (λ _. env.new.items ≡ env.old.items) }
{
    let mut so_far = constant(circuit, of_none(connective))?;
    for part in parts {
        let node = truth(alloc, problem, tables, env, circuit, part)?;
        so_far = connected(circuit, connective, so_far, node)?;
    }
    Ok(so_far)
}

// A node that is true where the formula is at the atoms of so many of these tuples that are true.
#[cycle(truth)]
fn true_for(
    alloc: Global,
    problem: &Problem,
    tables: &Tables,
    env: &mut Vec<Atom>,
    circuit: &mut Circuit,
    quantifier: Quantifier,
    entries: &[Entry],
    f: &Formula,
) -> Result<Node, AllocError>
    requires ready { IsReady circuit.old problem.now tables.now.always tables.now.relations.items tables.now.universe (reverse env.old.items) }
    requires proper { IsProper (arities_of problem.now) (length env.old.items + 1) (formula_tree f.now) }
    requires single { All (λ e. length e.tuple ≡ 1) entries.now }
    requires nodes { All (λ e. e.node < length circuit.old.shapes) entries.now }
    requires atoms { All (λ e. All (IsAtomOf problem.now) e.tuple) entries.now }
    requires room { HasRoomFor (size circuit.old) (RowsHave (upper_structure problem.now) (reverse env.old.items) (each_terms quantifier) (formula_tree f.now) (map (λ e. e.tuple) entries.now)) }
    ensures told { IfOk result (λ node. Tells circuit.old circuit.new node (λ s. IsGrounded quantifier circuit.old s problem.now (reverse env.old.items) (formula_tree f.now) entries.now) (RowsHave (upper_structure problem.now) (reverse env.old.items) (each_terms quantifier) (formula_tree f.now) (map (λ e. e.tuple) entries.now))) }
    ensures env { IfOk result (λ _. env.new.items ≡ env.old.items) }
{
    match quantifier {
        Quantifier::All => {
            let all = Connective::And;
            Ok(true_at_those(alloc, problem, tables, env, circuit, all, entries, f)?)
        }
        Quantifier::Exists => {
            let some = Connective::Or;
            Ok(true_at_those(alloc, problem, tables, env, circuit, some, entries, f)?)
        }
        Quantifier::Lone => {
            Ok(true_for_at_most_one(alloc, problem, tables, env, circuit, entries, f)?)
        }
    }
}

// A node that is true where the formula is at the atom of each of these tuples that is true, or of some.
#[cycle(truth)]
fn true_at_those(
    alloc: Global,
    problem: &Problem,
    tables: &Tables,
    env: &mut Vec<Atom>,
    circuit: &mut Circuit,
    connective: Connective,
    entries: &[Entry],
    f: &Formula,
) -> Result<Node, AllocError>
    requires ready { IsReady circuit.old problem.now tables.now.always tables.now.relations.items tables.now.universe (reverse env.old.items) }
    requires proper { IsProper (arities_of problem.now) (length env.old.items + 1) (formula_tree f.now) }
    requires single { All (λ e. length e.tuple ≡ 1) entries.now }
    requires nodes { All (λ e. e.node < length circuit.old.shapes) entries.now }
    requires atoms { All (λ e. All (IsAtomOf problem.now) e.tuple) entries.now }
    requires room { HasRoomFor (size circuit.old) (RowsHave (upper_structure problem.now) (reverse env.old.items) 1 (formula_tree f.now) (map (λ e. e.tuple) entries.now)) }
    ensures told { IfOk result (λ node. Tells circuit.old circuit.new node (λ s. HoldsOf connective (IsGuarded connective circuit.old s problem.now (reverse env.old.items) (formula_tree f.now)) entries.now) (RowsHave (upper_structure problem.now) (reverse env.old.items) 1 (formula_tree f.now) (map (λ e. e.tuple) entries.now))) }
    ensures env { IfOk result (λ _. env.new.items ≡ env.old.items) }
{
    let mut so_far = constant(circuit, of_none(connective))?;
    for entry in entries {
        let body = true_at(alloc, problem, tables, env, circuit, entry.tuple.first(), f)?;
        so_far = guarded_also(circuit, connective, so_far, entry.node, body)?;
    }
    Ok(so_far)
}

// A node that is true where the formula is at the atoms of no two of these tuples that are true.
#[cycle(truth)]
fn true_for_at_most_one(
    alloc: Global,
    problem: &Problem,
    tables: &Tables,
    env: &mut Vec<Atom>,
    circuit: &mut Circuit,
    entries: &[Entry],
    f: &Formula,
) -> Result<Node, AllocError>
    requires ready { IsReady circuit.old problem.now tables.now.always tables.now.relations.items tables.now.universe (reverse env.old.items) }
    requires proper { IsProper (arities_of problem.now) (length env.old.items + 1) (formula_tree f.now) }
    requires single { All (λ e. length e.tuple ≡ 1) entries.now }
    requires nodes { All (λ e. e.node < length circuit.old.shapes) entries.now }
    requires atoms { All (λ e. All (IsAtomOf problem.now) e.tuple) entries.now }
    requires room { HasRoomFor (size circuit.old) (RowsHave (upper_structure problem.now) (reverse env.old.items) 2 (formula_tree f.now) (map (λ e. e.tuple) entries.now)) }
    ensures told { IfOk result (λ node. Tells circuit.old circuit.new node (λ s. AllPairs (AreNotBothMet circuit.old s problem.now (reverse env.old.items) (formula_tree f.now)) entries.now) (RowsHave (upper_structure problem.now) (reverse env.old.items) 2 (formula_tree f.now) (map (λ e. e.tuple) entries.now))) }
    ensures env { IfOk result (λ _. env.new.items ≡ env.old.items) }
{
    let mut found = constant(circuit, false)?;
    let mut lone = constant(circuit, true)?;
    for entry in entries {
        let body = true_at(alloc, problem, tables, env, circuit, entry.tuple.first(), f)?;
        lone = lone_still(circuit, lone, found, entry.node, body)?;
        found = met_also(circuit, found, entry.node, body)?;
    }
    Ok(lone)
}

// The node of a formula where the innermost variable is this atom.
#[cycle(truth)]
fn true_at(
    alloc: Global,
    problem: &Problem,
    tables: &Tables,
    env: &mut Vec<Atom>,
    circuit: &mut Circuit,
    atom: Atom,
    f: &Formula,
) -> Result<Node, AllocError>
    requires ready { IsReady circuit.old problem.now tables.now.always tables.now.relations.items tables.now.universe (reverse env.old.items) }
    requires proper { IsProper (arities_of problem.now) (length env.old.items + 1) (formula_tree f.now) }
    requires atom { IsAtomOf problem.now atom }
    requires room { HasRoomFor (size circuit.old) (FormulaTermsOf problem.now (atom ∷ reverse env.old.items) (formula_tree f.now)) }
    ensures told { IfOk result (λ node. IsTold circuit.old circuit.new problem.now (atom ∷ reverse env.old.items) (formula_tree f.now) node) }
    ensures env { IfOk result (λ _. env.new.items ≡ env.old.items) }
{
    env.push(atom)?;
    let node = truth(alloc, problem, tables, env, circuit, f)?;
    env.pop();
    Ok(node)
}
