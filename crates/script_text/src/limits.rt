// How long an output may be.
ghost use Rattle.std.specs.Prelude.{◌+◌, ◌≤◌, ◌<◌, OnOk, OnErr};
ghost use Rattle.script_text.specs.Limits.{most_output};

use std::alloc::AllocError;

/// An output has at most so many bytes.
pub const MOST_OUTPUT: usize = 1_073_741_824;

/// Whether an output of so many bytes may grow by so many more. One that would be longer than an output may be is want of
/// memory, before the memory is taken.
pub fn fits_output(bytes: usize, more: usize) -> Result<(), AllocError>
    ensures ok { OnOk result (bytes + more ≤ most_output) }
    ensures err { OnErr result (most_output < bytes + more) }
{
    if bytes <= MOST_OUTPUT && more <= MOST_OUTPUT - bytes {
        Ok(())
    } else {
        Err(AllocError)
    }
}
