// How much is looked at.
ghost use Rattle.std.specs.Prelude.{◌≡◌, ◌+◌, ◌^◌, OnOk, OnErr};

use std::alloc::AllocError;

/// The most lists that are looked at.
pub const MOST_LOOKS: u32 = 2_097_152;

/// How many lists may still be looked at.
#[derive(Drop)]
pub struct Work {
    pub left: u32,
}

impl Work {
    /// As many as may be looked at.
    pub fn new() -> Work
        ensures { result.left ≡ 2 ^ 21 }
    {
        Work { left: MOST_LOOKS }
    }

    /// Notes that one more list is looked at. Where none may be, it answers want of memory.
    pub fn look(&mut self) -> Result<(), AllocError>
        ensures ok { OnOk result (self.new.left + 1 ≡ self.old.left) }
        ensures err { OnErr result ((self.old.left ≡ 0) × (self.new.left ≡ 0)) }
    {
        if self.left == 0 {
            return Err(AllocError);
        }
        self.left -= 1;
        Ok(())
    }
}
