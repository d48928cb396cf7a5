// Scripts, and what is answered to bytes that are none.
ghost use Rattle.std.specs.Prelude.{◌≡◌, IfOk};
ghost use Rattle.explorer_cli.specs.Keys.{IsScriptOrFault};

use outside_io::Status;
use proof_command::Answer;
use script_format::laws::scripts_keep_to_limits;
use script_format::{Script, read_script};
use script_text::fault_line;
use std::alloc::{AllocError, Global};

/// The script that the bytes are, which is within its limits, or the answer that tells their fault. The error comes only for want of
/// memory.
pub fn script_of(alloc: Global, bytes: &[u8]) -> Result<Result<Script, Answer>, AllocError>
    ensures { IfOk result (IsScriptOrFault bytes.now) }
{
    scripts_keep_to_limits();
    match read_script(alloc, bytes) {
        Ok(script) => Ok(Ok(script)),
        Err(fault) => Ok(Err(Answer {
            status: Status::InputRefused,
            text: fault_line(alloc, fault)?,
        })),
    }
}
