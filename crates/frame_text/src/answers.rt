// Answers: what is said of a line, and the block of 32 bytes that says it.
ghost use Rattle.std.specs.Prelude.{◌≡◌, ◌≤◌, ℕ, List, [], length};
ghost use Rattle.frame_text.specs.Answers.{then, text_of, block_of, filled, name_length, whole_block};
ghost use Rattle.frame_text.specs.Blocks.{Adds, Holds};

use crate::faults::Report;
use crate::records::Question;
use arrayvec::ArrayVec;
use itoa::Buffer;

// What is answered to one line.
#[derive(Clone, Copy)]
pub enum Answer<'a> {
    Made {
        name: &'a [u8],
        order: u32,
    },
    // with how many entries the frame holds now
    Put {
        held: u32,
    },
    Dropped {
        held: u32,
    },
    // with the sum of the column counts
    Analysed {
        total: u64,
    },
    Asked {
        question: Question,
        vertex: u32,
        number: u32,
    },
    Refused(Report),
}

// An answer as far as it is written. What does not fit is dropped.
#[derive(Drop)]
struct Block {
    text: ArrayVec<u8, 32>,
}

impl Block {
    fn new() -> Block
        ensures { Holds result [] }
    {
        Block {
            text: ArrayVec::new(),
        }
    }

    fn push(&mut self, bytes: &[u8])
        ensures { Adds self.old bytes.now self.new }
    {
        for b in bytes {
            let _ = self.text.try_push(*b);
        }
    }

    // A comma and a number.
    fn push_then(&mut self, n: u64)
        ensures { Adds self.old (then n) self.new }
    {
        self.push(b",");
        self.push(Buffer::new().format(n).as_bytes());
    }

    // What is written, and zeros after it.
    fn finish(&self) -> [u8; 32]
        ensures { (t : List ℕ) → Holds self.now t → result ≡ filled 32 t }
    {
        let mut bytes = [0; 32];
        bytes[..self.text.len()].copy_from_slice(self.text.as_slice());
        bytes
    }
}

impl<'a> Answer<'a> {
    // The answer's text, an LF, and zeros. Each answer with a name of at most 16 bytes stands there whole.
    pub fn block(&self) -> [u8; 32]
        ensures block { result ≡ block_of (text_of self.now) }
        ensures whole { name_length self.now ≤ 16 →
            result ≡ whole_block (text_of self.now) }
    {
        let mut block = Block::new();
        self.write(&mut block);
        block.push(b"\n");
        block.finish()
    }

    // Into the block, and not by `Display`: a name is bytes.
    fn write(&self, block: &mut Block)
        ensures adds { Adds block.old (text_of self.now) block.new }
        ensures short { name_length self.now ≤ 16 →
            length (text_of self.now) ≤ 31 }
    {
        match *self {
            Answer::Made { name, order } => {
                block.push(b"M,");
                block.push(name);
                block.push_then(order as u64);
            }
            Answer::Put { held } => {
                block.push(b"P");
                block.push_then(held as u64);
            }
            Answer::Dropped { held } => {
                block.push(b"D");
                block.push_then(held as u64);
            }
            Answer::Analysed { total } => {
                block.push(b"A");
                block.push_then(total);
            }
            Answer::Asked {
                question,
                vertex,
                number,
            } => {
                block.push(&[u8::from(question)]);
                block.push_then(vertex as u64);
                block.push_then(number as u64);
            }
            Answer::Refused(report) => {
                block.push(b"E");
                block.push_then(report.line as u64);
                block.push_then(report.field as u64);
                block.push_then(report.number as u64);
            }
        }
    }
}
