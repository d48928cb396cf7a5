// Gates of nodes that say facts of the inputs.
ghost use Rattle.std.specs.Prelude.{◌≡◌, ◌≤◌, ◌<◌, ◌+◌, ◌⊎◌, length, IfOk, OnOk, IsTrue};
ghost use Rattle.bool_circuit.specs.Network.{size};
ghost use Rattle.bool_circuit.specs.Value.{value_at, Extends};
ghost use Rattle.bool_circuit.specs.Folding.{IsConstant};
ghost use Rattle.bool_matrix.specs.Cells.{Says};
ghost use Rattle.rel_translate.specs.Grounding.{Connects, Guarded, holds_of_none};

use bool_circuit::{Circuit, MOST_NODES, Node};
use rel_formula::Connective;
use std::alloc::AllocError;

// A node that is true where both are, or where either is. It is no new one where the second is a constant.
pub fn connected(
    circuit: &mut Circuit,
    connective: Connective,
    a: Node,
    b: Node,
) -> Result<Node, AllocError>
    requires first { a < length circuit.old.shapes }
    requires second { b < length circuit.old.shapes }
    requires room { size circuit.old < MOST_NODES }
    ensures extends { Extends circuit.old circuit.new }
    ensures says { IfOk result (λ n. Says circuit.new n (λ inputs. Connects connective (IsTrue (value_at circuit.old a inputs)) (IsTrue (value_at circuit.old b inputs)))) }
    ensures size { size circuit.new ≤ size circuit.old + 1 }
    ensures folded { IsConstant circuit.old b → size circuit.new ≤ size circuit.old }
{
    match connective {
        Connective::And => Ok(both(circuit, a, b)?),
        Connective::Or => Ok(either(circuit, a, b)?),
    }
}

// A node that is true where `so_far` is, and the body where the guard is; or where `so_far` is, or both the guard and the
// body.
pub fn guarded_also(
    circuit: &mut Circuit,
    connective: Connective,
    so_far: Node,
    guard: Node,
    body: Node,
) -> Result<Node, AllocError>
    requires so_far { so_far < length circuit.old.shapes }
    requires guard { guard < length circuit.old.shapes }
    requires body { body < length circuit.old.shapes }
    requires room { size circuit.old + 2 < MOST_NODES }
    ensures extends { Extends circuit.old circuit.new }
    ensures says { IfOk result (λ n. Says circuit.new n (λ inputs. Connects connective (IsTrue (value_at circuit.old so_far inputs)) (Guarded connective (IsTrue (value_at circuit.old guard inputs)) (IsTrue (value_at circuit.old body inputs))))) }
    ensures size { size circuit.new ≤ size circuit.old + 3 }
{
    match connective {
        Connective::And => Ok(implied_also(circuit, so_far, guard, body)?),
        Connective::Or => Ok(met_also(circuit, so_far, guard, body)?),
    }
}

// What a junction of no formula is.
pub fn of_none(connective: Connective) -> bool
    ensures { result ≡ holds_of_none connective }
{
    match connective {
        Connective::And => true,
        Connective::Or => false,
    }
}

// A node that is true where both are. It is no new one where the second is a constant.
fn both(circuit: &mut Circuit, a: Node, b: Node) -> Result<Node, AllocError>
    requires first { a < length circuit.old.shapes }
    requires second { b < length circuit.old.shapes }
    requires room { size circuit.old < MOST_NODES }
    ensures extends { Extends circuit.old circuit.new }
    ensures says { IfOk result (λ n. Says circuit.new n (λ inputs. IsTrue (value_at circuit.old a inputs) × IsTrue (value_at circuit.old b inputs))) }
    ensures size { size circuit.new ≤ size circuit.old + 1 }
    ensures folded { IsConstant circuit.old b → size circuit.new ≤ size circuit.old }
{
    let node = circuit.and(a, b)?;
    Ok(node)
}

// A node that is true where either is. It is no new one where the second is a constant.
fn either(circuit: &mut Circuit, a: Node, b: Node) -> Result<Node, AllocError>
    requires first { a < length circuit.old.shapes }
    requires second { b < length circuit.old.shapes }
    requires room { size circuit.old < MOST_NODES }
    ensures extends { Extends circuit.old circuit.new }
    ensures says { IfOk result (λ n. Says circuit.new n (λ inputs. IsTrue (value_at circuit.old a inputs) ⊎ IsTrue (value_at circuit.old b inputs))) }
    ensures size { size circuit.new ≤ size circuit.old + 1 }
    ensures folded { IsConstant circuit.old b → size circuit.new ≤ size circuit.old }
{
    let node = circuit.or(a, b)?;
    Ok(node)
}

// A node that is true where the other isn't.
pub fn neither(circuit: &mut Circuit, a: Node) -> Result<Node, AllocError>
    requires operand { a < length circuit.old.shapes }
    requires room { size circuit.old < MOST_NODES }
    ensures extends { Extends circuit.old circuit.new }
    ensures says { IfOk result (λ n. Says circuit.new n (λ inputs. IsTrue (value_at circuit.old a inputs) → ⊥)) }
    ensures size { size circuit.new ≤ size circuit.old + 1 }
{
    let node = circuit.not(a)?;
    Ok(node)
}

// A constant, which leaves the number of nodes as it is.
pub fn constant(circuit: &mut Circuit, b: bool) -> Result<Node, AllocError>
    requires room { size circuit.old < MOST_NODES }
    ensures extends { Extends circuit.old circuit.new }
    ensures says { IfOk result (λ n. Says circuit.new n (λ inputs. IsTrue b)) }
    ensures constant { IfOk result (λ n. IsConstant circuit.new n) }
    ensures size { size circuit.new ≤ size circuit.old }
{
    let node = circuit.constant(b)?;
    Ok(node)
}

// A node that is true where `all` is, and the body where the guard is.
fn implied_also(
    circuit: &mut Circuit,
    all: Node,
    guard: Node,
    body: Node,
) -> Result<Node, AllocError>
    requires all { all < length circuit.old.shapes }
    requires guard { guard < length circuit.old.shapes }
    requires body { body < length circuit.old.shapes }
    requires room { size circuit.old + 2 < MOST_NODES }
    ensures extends { Extends circuit.old circuit.new }
    ensures says { IfOk result (λ n. Says circuit.new n (λ inputs. IsTrue (value_at circuit.old all inputs) × (IsTrue (value_at circuit.old guard inputs) → IsTrue (value_at circuit.old body inputs)))) }
    ensures size { size circuit.new ≤ size circuit.old + 3 }
{
    let absent = circuit.not(guard)?;
    let implied = circuit.or(absent, body)?;
    let node = circuit.and(all, implied)?;
    Ok(node)
}

// A node that is true where `any` is, or both the guard and the body.
pub fn met_also(
    circuit: &mut Circuit,
    any: Node,
    guard: Node,
    body: Node,
) -> Result<Node, AllocError>
    requires any { any < length circuit.old.shapes }
    requires guard { guard < length circuit.old.shapes }
    requires body { body < length circuit.old.shapes }
    requires room { size circuit.old + 1 < MOST_NODES }
    ensures extends { Extends circuit.old circuit.new }
    ensures says { IfOk result (λ n. Says circuit.new n (λ inputs. IsTrue (value_at circuit.old any inputs) ⊎ (IsTrue (value_at circuit.old guard inputs) × IsTrue (value_at circuit.old body inputs)))) }
    ensures size { size circuit.new ≤ size circuit.old + 2 }
{
    let met = circuit.and(guard, body)?;
    let node = circuit.or(any, met)?;
    Ok(node)
}

// A node that is true where `lone` is, and not all of `found`, the guard and the body.
pub fn lone_still(
    circuit: &mut Circuit,
    lone: Node,
    found: Node,
    guard: Node,
    body: Node,
) -> Result<Node, AllocError>
    requires lone { lone < length circuit.old.shapes }
    requires found { found < length circuit.old.shapes }
    requires guard { guard < length circuit.old.shapes }
    requires body { body < length circuit.old.shapes }
    requires room { size circuit.old + 3 < MOST_NODES }
    ensures extends { Extends circuit.old circuit.new }
    ensures says { IfOk result (λ n. Says circuit.new n (λ inputs. IsTrue (value_at circuit.old lone inputs) × (IsTrue (value_at circuit.old found inputs) → IsTrue (value_at circuit.old guard inputs) → IsTrue (value_at circuit.old body inputs) → ⊥))) }
    ensures size { size circuit.new ≤ size circuit.old + 4 }
{
    let met = circuit.and(guard, body)?;
    let again = circuit.and(found, met)?;
    let first = circuit.not(again)?;
    let node = circuit.and(lone, first)?;
    Ok(node)
}
