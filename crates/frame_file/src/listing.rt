// A sink that keeps the blocks in a table.
ghost use Rattle.std.specs.Prelude.{◌≡◌};
ghost use Rattle.frame_file.specs.Sinks.{Listed};

use crate::sinks::{Answers, Listing};

impl<'a> Listing<'a> {
    // A listing that holds none yet.
    pub fn new(blocks: &'a mut [[u8; 32]]) -> Listing<'a>
        ensures blocks { result.blocks.now ≡ blocks.old }
        ensures loan { result.blocks.ghost_name ≡ blocks.entry.ghost_name }
        ensures count { result.len ≡ 0 }
    {
        Listing { blocks, len: 0 }
    }
}

impl<'a> Answers for Listing<'a> {
    ghost took = { Listed };

    fn take(&mut self, block: &[u8; 32]) {
        // no `get_mut`: after it the proof knows none of the slice's elements
        if self.len < self.blocks.len() {
            self.blocks[self.len] = *block;
            self.len += 1;
        }
    }
}
