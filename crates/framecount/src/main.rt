// Reads a frame file from standard input and prints the answer to each of its lines.
#![tactic(auto)]

ghost use Rattle.std.specs.Prelude.{◌≡◌, ℕ, ◌+◌, ◌-◌, ◌<◌, ◌≤◌, IfOk, ◌≢◌, [], slice_index};

use analysis::records::{Entry, Vertex};
use arrayvec::ArrayVec;
use frame_file::{Answers, run_file};
use model::make;
use sets::HalvedLinks;
use std::io;
use std::io::{Read, Write};

// One byte more than a run takes, so that a longer file is seen to be longer. Input and tables are arrays of a fixed
// size: the program allocates nothing.
const INPUT: usize = 32_769;

// How many bytes are printed at once, at most.
const GATHERED: usize = 4096;

// How many bytes the text of a block takes, with its LF.
fn text_len(block: &[u8; 32]) -> usize
    ensures some { 1 ≤ result }
    ensures within { result ≤ 32 }
    ensures before { (k : ℕ) → k + 1 < result → slice_index block.now k ≢ 10 }
    ensures found { result < 32 → slice_index block.now (result - 1) ≡ 10 }
{
    block.iter().position(|b| *b == b'\n').map_or(32, |i| i + 1)
}

// Prints the text of each block, and not the zeros after it. The texts are gathered, so that many are printed at once.
// Once printing fails, nothing more is printed.
#[derive(Drop)]
struct Printer<'a> {
    rt: &'a HostRuntime,
    gathered: ArrayVec<u8, GATHERED>,
    printed: io::Result<()>,
}

impl Printer<'_> {
    // Prints what is gathered.
    fn flush(&mut self)
        ensures { self.new.gathered.items ≡ [] }
    {
        if self.printed.is_ok() {
            self.printed = self.rt.stdout().write_all(self.gathered.as_slice());
        }
        self.gathered.clear();
    }
}

impl<'a> Answers for Printer<'a> {
    ghost took = { λ _ _ _. Unit {0} };

    fn take(&mut self, block: &[u8; 32]) {
        if self.gathered.remaining_capacity() < block.len() {
            self.flush();
        }
        let text = &block[..text_len(block)];
        self.gathered.try_extend_from_slice(text).unwrap();
    }
}

// Fills the buffer from standard input, as far as that goes; answers how many bytes came. Counted by hand: the
// library's copy would go on after a read that a signal has cut short, and this ends there.
fn read_input(rt: &HostRuntime, buffer: &mut [u8; INPUT]) -> io::Result<usize>
    ensures { IfOk result (λ n. n ≤ 32769) }
{
    let mut input = rt.stdin();
    let mut len = 0;
    for _ in 0..INPUT {
        let got = input.read(&mut buffer[len..])?;
        if got == 0 {
            break;
        }
        len += got;
    }
    Ok(len)
}

fn main(rt: HostRuntime) -> io::Result<()> {
    let mut vertices = [Vertex::new(); 512];
    let mut entries = [Entry::new(); 2048];
    let mut links = [0u32; 512];
    let mut input = [0u8; INPUT];
    let len = read_input(&rt, &mut input)?;
    let mut model = make(0, &mut vertices, &mut entries);
    let mut sets = HalvedLinks::new(&mut links);
    let mut printer = Printer {
        rt: &rt,
        gathered: ArrayVec::new(),
        printed: Ok(()),
    };
    run_file(&input[..len], &mut model, &mut sets, &mut printer);
    printer.flush();
    printer.printed
}
