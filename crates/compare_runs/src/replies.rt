// A sink that prints each call with its reply.
use model::Refusal;
use runs::{Call, Question, Replies, Reply};
use std::io;

// Prints behind the name of its run. Once printing fails, nothing more is printed.
#[derive(Drop)]
pub(crate) struct Printer<'a> {
    rt: &'a HostRuntime,
    run: &'a str,
    pub(crate) printed: io::Result<()>,
}

impl<'a> Printer<'a> {
    pub(crate) fn new(rt: &'a HostRuntime, run: &'a str) -> Printer<'a> {
        Printer {
            rt,
            run,
            printed: Ok(()),
        }
    }

    fn print(&self, call: Call, reply: Result<Reply, Refusal>) -> io::Result<()> {
        print!(self.rt; "{}: ", self.run)?;
        print_call(self.rt, call)?;
        print_reply(self.rt, reply)
    }
}

impl<'a> Replies for Printer<'a> {
    ghost took = { λ _ _ _ _. Unit {0} };

    fn take(&mut self, call: Call, reply: Result<Reply, Refusal>) {
        if self.printed.is_ok() {
            self.printed = self.print(call, reply);
        }
    }
}

fn name_of(question: Question) -> &'static str {
    match question {
        Question::Parent => "parent",
        Question::Place => "place",
        Question::FirstPlace => "first place",
        Question::Height => "height",
        Question::RowCount => "row count",
        Question::ColumnCount => "column count",
    }
}

fn print_call(rt: &HostRuntime, call: Call) -> io::Result<()> {
    match call {
        Call::Put { i, j } => print!(rt; "put {} {}", i, j),
        Call::Drop { i, j } => print!(rt; "drop {} {}", i, j),
        Call::Analyse { sets } => print!(rt; "analyse with sets {}", sets),
        Call::Ask { question, vertex } => print!(rt; "{} of {}", name_of(question), vertex),
        Call::Total => print!(rt; "total"),
        Call::Structure { starts, rows } => print!(rt; "structure in {} and {}", starts, rows),
    }
}

fn print_reply(rt: &HostRuntime, reply: Result<Reply, Refusal>) -> io::Result<()> {
    match reply {
        Ok(Reply::Held(held)) => println!(rt; ": {} held", held),
        Ok(Reply::Total(total)) => println!(rt; ": {} places", total),
        Ok(Reply::Number(number)) => println!(rt; ": {}", number),
        Ok(Reply::Written) => println!(rt; ": written"),
        Err(refusal) => println!(rt; ": refused, {}", refusal.number()),
    }
}
