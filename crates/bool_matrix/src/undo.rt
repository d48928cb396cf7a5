// What a call that failed leaves.
ghost use Rattle.std.specs.Prelude.{◌≡◌, length};
ghost use Rattle.bool_circuit.specs.Network.{Network};
ghost use Rattle.bool_circuit.specs.Value.{Extends};

use bool_circuit::Circuit;

// Takes the nodes away that came since the circuit had this length.
pub(crate) fn undo(circuit: &mut Circuit, len: u32)
    ensures { (before : Network) → Extends before circuit.old → len ≡ length before.shapes → circuit.new ≡ before }
{
    circuit.truncate(len);
}
