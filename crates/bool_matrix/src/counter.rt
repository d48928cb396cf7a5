// A unary counter: the node at place `i` of a row is true where more than `i` of the nodes counted so far are.
ghost use Rattle.std.specs.Prelude.{◌≡◌, ◌≤◌, ◌<◌, ◌+◌, ◌*◌, length, IfOk, OnOk, OnErr, All, ℕ, Bool, if◌then◌else◌};
ghost use Rattle.bool_circuit.specs.Network.{size};
ghost use Rattle.bool_circuit.specs.Value.{value_at, Extends};
ghost use Rattle.bool_matrix.specs.Counter.{Counts, HasAtLeast};
ghost use Rattle.bool_matrix.specs.Cells.{IsOf, TrueIn, Says};

use crate::matrix::Matrix;
use crate::undo::undo;
use bool_circuit::{Circuit, MOST_NODES, Node};
use std::alloc::{AllocError, Global};

impl Matrix {
    /// A node that is true where this matrix has at least `n` tuples. It makes at most 2 nodes for each tuple, times
    /// `n`.
    pub fn at_least(&self, alloc: Global, circuit: &mut Circuit, n: u32) -> Result<Node, AllocError>
        requires of { IsOf circuit.old self.now }
        requires room { size circuit.old + 16 * (length self.now.entries * (n + 1)) < MOST_NODES }
        ensures extends { Extends circuit.old circuit.new }
        ensures says { IfOk result (λ k. Says circuit.new k (λ inputs. HasAtLeast n (TrueIn circuit.old self.now inputs))) }
        ensures size { OnOk result (size circuit.new ≤ size circuit.old + 2 * (length self.now.entries * n)) }
        ensures err { OnErr result (circuit.new ≡ circuit.old) }
    {
        let len = circuit.len();
        match self.many(alloc, circuit, n) {
            Ok(made) => Ok(made),
            Err(error) => {
                undo(circuit, len);
                Err(error)
            }
        }
    }

    // The last node of a row of `n` counters, once it has counted all entries.
    fn many(&self, alloc: Global, circuit: &mut Circuit, n: u32) -> Result<Node, AllocError>
        requires of { IsOf circuit.old self.now }
        requires room { size circuit.old + 16 * (length self.now.entries * (n + 1)) < MOST_NODES }
        ensures extends { Extends circuit.old circuit.new }
        ensures says { IfOk result (λ k. Says circuit.new k (λ inputs. HasAtLeast n (TrueIn circuit.old self.now inputs))) }
        ensures size { OnOk result (size circuit.new ≤ size circuit.old + 2 * (length self.now.entries * n)) }
    {
        let entries = self.entries();
        if n == 0 {
            let always = circuit.constant(true)?;
            return Ok(always);
        }
        let none = circuit.constant(false)?;
        if n as usize > entries.len() {
            return Ok(none);
        }
        let mut row = vec![in alloc; none; n as usize]?;
        for entry in entries {
            row = counted(alloc, circuit, &row, entry.node)?;
        }
        Ok(row[n as usize - 1])
    }
}

// The row after one more node.
fn counted(
    alloc: Global,
    circuit: &mut Circuit,
    row: &[Node],
    more: Node,
) -> Result<Vec<Node>, AllocError>
    requires row { All (λ n. n < length circuit.old.shapes) row.now }
    requires more { more < length circuit.old.shapes }
    requires room { size circuit.old + 2 * length row.now < MOST_NODES }
    ensures extends { Extends circuit.old circuit.new }
    ensures len { IfOk result (λ v. length v.items ≡ length row.now) }
    ensures there { IfOk result (λ v. All (λ n. n < length circuit.new.shapes) v.items) }
    ensures counts { IfOk result (λ v. (count : (ℕ → Bool) → ℕ) → Counts circuit.old row.now count → Counts circuit.new v.items (λ inputs. count inputs + (if value_at circuit.old more inputs then 1 else 0))) }
    ensures size { OnOk result (size circuit.new ≤ size circuit.old + 2 * length row.now) }
{
    let mut next = Vec::new(alloc);
    let mut carry = more;
    for node in row {
        let sum = circuit.or(*node, carry)?;
        next.push(sum)?;
        carry = circuit.and(*node, more)?;
    }
    Ok(next)
}
