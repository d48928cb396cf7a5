// What may still be built.
ghost use Rattle.std.specs.Prelude.{◌≡◌, ◌+◌, ◌<◌, OnOk, OnErr};

use lowering_rules::TooLarge;

/// How many kernel nodes may still be built.
#[derive(Clone, Copy)]
pub struct Room {
    pub nodes: u32,
}

impl Room {
    /// As much as the formula of a problem has: 4,194,304 nodes.
    pub fn new() -> Room
        ensures { result.nodes ≡ 4194304 }
    {
        Room { nodes: 4_194_304 }
    }

    /// Takes so many nodes, before they are built, where so many are left.
    pub fn take(&mut self, nodes: u32) -> Result<(), TooLarge>
        ensures ok { OnOk result (self.new.nodes + nodes ≡ self.old.nodes) }
        ensures err { OnErr result (self.new.nodes ≡ self.old.nodes) }
        ensures few { OnErr result (self.old.nodes < nodes) }
    {
        match self.nodes.checked_sub(nodes) {
            Some(left) => {
                self.nodes = left;
                Ok(())
            }
            None => Err(TooLarge),
        }
    }
}

/// Where a part stands: under so many binders, with calls that may be so deep, and so many levels of kernel nodes below it,
/// where a part inside of another one counts as eight.
#[derive(Clone, Copy)]
pub struct Depth {
    pub binders: u32,
    pub calls: usize,
    pub levels: u32,
}
