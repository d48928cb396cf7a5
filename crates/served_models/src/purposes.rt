// What models are read for, and which problems can be used for it.
ghost use Rattle.std.specs.Prelude.{◌≡◌, IfOk, IsTrue, false};
ghost use Rattle.served_models.specs.Served.{Fits, IsUnfit, renamings_words};

use itoa::Buffer;
use rel_formula::Problem;
use renaming_classes::renamings;
use std::alloc::{AllocError, Global};

/// What models are read for.
#[derive(Clone, Copy, Debug, PartialEq, Eq)]
pub enum Purpose {
    /// Sessions whose lists are told whole.
    Lists,
    /// Sessions whose lists are told by classes: a problem has at most 40,320 renamings then.
    Classes,
}

/// Whether the problem can be used for this.
pub fn fits(purpose: Purpose, problem: &Problem) -> bool
    ensures fits { IsTrue result → Fits purpose problem.now }
    ensures unfit { result ≡ false → IsUnfit purpose problem.now }
{
    match purpose {
        Purpose::Lists => true,
        Purpose::Classes => renamings(problem).is_some(),
    }
}

/// What is told of the command of this number where its problem has too many renamings.
pub fn renamings_words(alloc: Global, number: u32) -> Result<Vec<u8>, AllocError>
    ensures { IfOk result (λ told. told.items ≡ renamings_words number) }
{
    let mut buffer = Buffer::new();
    let mut told = Vec::from_slice(alloc, b"command ")?;
    told.extend_from_slice(buffer.format(number).as_bytes())?;
    told.extend_from_slice(b" too_many_renamings")?;
    Ok(told)
}
