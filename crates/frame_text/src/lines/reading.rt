// What a reader does: it starts at the front of a file, and hands out one line after the other.
ghost use Rattle.std.specs.Prelude.{◌≡◌};
ghost use Rattle.frame_text.specs.Lines.{lines};
ghost use Rattle.frame_text.specs.Readers.{left, handed, Hands};

use super::{FrameReader, Line};

impl<'a> FrameReader<'a> {
    pub fn new(file: &'a [u8]) -> FrameReader<'a>
        ensures left { left result ≡ lines file.now }
        ensures handed { handed result ≡ 0 }
    {
        FrameReader {
            file,
            at: 0,
            line: 0,
        }
    }
}

impl<'a> Iterator for FrameReader<'a> {
    ghost use Rattle.std.specs.Iterator.{item_count};

    type Item = Line<'a>;

    ghost next_gives = { Hands };

    ghost remaining = { item_count left };

    // The next line, or none at the end of the file.
    fn next(&mut self) -> Option<Line<'a>> {
        let rest = &self.file[self.at..];
        if rest.is_empty() {
            return None;
        }
        self.line += 1;
        let number = self.line;
        // The length where there is no LF: no option, by which the search would keep each byte that it sees.
        let end = rest.iter().position(|b| *b == b'\n').unwrap_or(rest.len());
        if end == rest.len() {
            self.at = self.file.len();
            return Some(Line {
                bytes: rest,
                number,
                ended: false,
            });
        }
        self.at += end + 1;
        Some(Line {
            bytes: &rest[..end],
            number,
            ended: true,
        })
    }
}
