// The lines of a file that were refused.
use frame_file::Answers;
use std::io;

// How many of the answers were refusals.
#[derive(Default, Drop)]
pub struct Refused {
    lines: u32,
}

impl Answers for Refused {
    ghost took = { λ _ _ _. Unit {0} };

    fn take(&mut self, block: &[u8; 32]) {
        if block[0] == b'E' {
            self.lines = self.lines.saturating_add(1);
        }
    }
}

impl Refused {
    // Says on standard error how many lines were refused, if any.
    pub(crate) fn report(&self, rt: &impl Eprint) -> io::Result<()> {
        let lines = self.lines;
        if lines == 0 {
            return Ok(());
        }
        eprintln!(rt; "{lines} refused: framecount tells which and why")
    }
}
