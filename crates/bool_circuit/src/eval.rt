// The values of all nodes at given inputs.
ghost use Rattle.std.specs.Prelude.{◌≡◌, ℕ, ◌<◌, ◌≤◌, [], length, IfOk};
ghost use Rattle.bool_circuit.specs.Network.{ReadsBelow, IsInOrder};
ghost use Rattle.bool_circuit.specs.Value.{shape_value, place, values_after};

use crate::shape::Shape;
use std::alloc::{AllocError, Global};

/// The values of shapes, each at those of the nodes before it.
pub(crate) fn values_of(
    alloc: Global,
    shapes: &[Shape],
    inputs: &[bool],
) -> Result<Vec<bool>, AllocError>
    requires { IsInOrder (record { inputs = length inputs.now; shapes = shapes.now }) }
    ensures { IfOk result (λ values. values.items ≡ values_after (place inputs.now) [] shapes.now) }
{
    let mut values = Vec::with_capacity(alloc, shapes.len())?;
    for shape in shapes {
        let value = value_of(*shape, &values, inputs);
        values.push(value)?;
    }
    Ok(values)
}

// The value of a shape, at the values of the nodes that it reads.
fn value_of(shape: Shape, values: &[bool], inputs: &[bool]) -> bool
    requires { ReadsBelow (length inputs.now) (length values.now) shape }
    ensures { result ≡ shape_value (place inputs.now) (place values.now) shape }
{
    match shape {
        Shape::Constant(b) => b,
        Shape::Input(i) => inputs[i as usize],
        Shape::And(a, b) => values[a.place() as usize] && values[b.place() as usize],
        Shape::Or(a, b) => values[a.place() as usize] || values[b.place() as usize],
        Shape::Not(a) => !values[a.place() as usize],
    }
}
