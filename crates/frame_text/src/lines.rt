// Lines, and the reader that borrows a file's bytes to hand them out.
ghost use Rattle.std.specs.Prelude.{◌≤◌, length};

mod reading;

// A line of a file: its bytes without the LF, its number counted from 1, and whether an LF ends it.
#[derive(Clone, Copy)]
pub struct Line<'a> {
    pub bytes: &'a [u8],
    pub number: usize,
    // no option of the bytes: they are there either way
    pub ended: bool,
}

// The bytes of a file, how many of them are read, and how many lines those make. The file stays whole beside the place
// in it: the project's form for a reader.
#[derive(Drop)]
pub struct FrameReader<'a> {
    file: &'a [u8],
    at: usize,
    line: usize,
    ghost counted: { line ≤ at },
    ghost within: { at ≤ length file.now },
}
