// What the fields of a model take.
ghost use Rattle.std.specs.Prelude.{◌≡◌, ◌+◌, ◌<◌, MatchResult};

use std::alloc::AllocError;

/// What all fields may take: for each the bytes of its name, and the names, unions, arrows and brackets of its bound.
/// A field of two signatures is two. No text of 1,048,576 bytes has more, where each field belongs to one signature.
pub const ROOM: usize = 1_048_576;

/// Takes so much of what is left; more than that is want of memory.
pub fn spend(room: &mut usize, amount: usize) -> Result<(), AllocError>
    ensures { MatchResult result (λ _. room.new + amount ≡ room.old) (λ _. (room.old < amount) × (room.new ≡ room.old)) }
{
    match room.checked_sub(amount) {
        Some(rest) => {
            *room = rest;
            Ok(())
        }
        None => Err(AllocError),
    }
}
