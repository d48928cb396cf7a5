// Laws of the definitions: each is the contract of a function that does nothing.
ghost use Rattle.std.specs.Prelude.{◌↔◌, ◌<◌, ℕ, Bool, length, IsTrue};
ghost use Rattle.cnf_core.specs.Formula.{Formula};
ghost use Rattle.cnf_core.specs.Valuation.{Satisfies};
ghost use Rattle.bool_circuit.specs.Network.{Network, IsInOrder};
ghost use Rattle.bool_circuit.specs.Value.{value_at};
ghost use Rattle.circuit_cnf.specs.ClauseForm.{HasInputs, IsClauseForm};

/// At given inputs, a clause form is satisfied by some valuation exactly where its node is true.
pub fn satisfied_where_the_node_is_true()
    ensures { (network : Network) (node : ℕ) (f : Formula) → IsInOrder network → node < length network.shapes → IsClauseForm network node f
        → (inputs : ℕ → Bool) → ((v : ℕ → Bool) × HasInputs network inputs v × Satisfies v f.clauses) ↔ IsTrue (value_at network node inputs) }
{}
