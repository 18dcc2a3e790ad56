// Where the answers of a run go: a sink that takes one block after another.
ghost use Rattle.std.specs.Prelude.{ℕ, List};

pub trait Answers {
    // what a block makes of the sink
    ghost took: { Self → List ℕ → Self → Type 0 };

    fn take(&mut self, block: &[u8; 32])
        ensures { took self.old block.now self.new };
}

// The blocks so far, in a table that is lent. What has no room is left out.
#[derive(Drop)]
pub struct Listing<'a> {
    pub blocks: &'a mut [[u8; 32]],
    // how many blocks there are: the table is lent whole, and nothing is allocated
    pub len: usize,
}
