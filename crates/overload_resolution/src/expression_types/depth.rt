// How deep parts and calls may be nested.
ghost use Rattle.std.specs.Prelude.{◌≡◌, ◌+◌, ◌<◌, IfOk};

use std::alloc::AllocError;

// The most parts that lie inside one another, those in the bodies of what they call among them.
const DEEPEST: usize = 512;

// How deep calls may be nested for those inside to have a type, and how many parts may lie inside one another.
#[derive(Clone, Copy)]
pub struct Depth {
    pub calls: usize,
    pub parts: usize,
}

impl Depth {
    // Before the first part.
    pub fn of_calls(calls: usize) -> Depth
        ensures calls { result.calls ≡ calls }
        ensures parts { result.parts ≡ 512 }
    {
        Depth {
            calls,
            parts: DEEPEST,
        }
    }

    // Inside a part. Where parts lie too deep, it answers want of memory.
    pub fn inside(self) -> Result<Depth, AllocError>
        ensures calls { IfOk result (λ d. d.calls ≡ self.calls) }
        ensures parts { IfOk result (λ d. d.parts + 1 ≡ self.parts) }
    {
        if self.parts == 0 {
            return Err(AllocError);
        }
        Ok(Depth {
            calls: self.calls,
            parts: self.parts - 1,
        })
    }

    // In the body of what is called.
    pub fn of_body(self) -> Depth
        requires { 0 < self.calls }
        ensures calls { result.calls + 1 ≡ self.calls }
        ensures parts { result.parts ≡ self.parts }
    {
        Depth {
            calls: self.calls - 1,
            parts: self.parts,
        }
    }
}
