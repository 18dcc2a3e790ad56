// Where the replies of a run go: a sink that takes one after another.
ghost use Rattle.std.specs.Prelude.{Result};
ghost use Rattle.runs.specs.declared.calls.Call.{Call};
ghost use Rattle.runs.specs.declared.calls.Reply.{Reply};
ghost use Rattle.model.specs.declared.refusals.Refusal.{Refusal};

use crate::calls::{Call, Reply};
use model::Refusal;

pub trait Replies {
    // what the reply to a call makes of the sink
    ghost took: { Self → Call → Result Reply Refusal → Self → Type 0 };

    fn take(&mut self, call: Call, reply: Result<Reply, Refusal>)
        ensures { took self.old call reply self.new };
}
