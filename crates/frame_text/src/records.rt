// Records: what a line says, with its name and its numbers borrowed from the file.
ghost use Rattle.std.specs.Prelude.{◌≡◌, [], Ok, ok_or, take};
ghost use Rattle.frame_text.specs.declared.records.Kind.TheVariants.{Make, Ask};
ghost use Rattle.frame_text.specs.Fields.{fields};
ghost use Rattle.frame_text.specs.Records.{kind_of, by_kind, by_count, counted, part, part_of, reading, stated};
ghost use Rattle.frame_text.specs.Parts.{one_of, pair_of, one_field, two_fields, two_numbers, at_hand};

use crate::faults::LineFault;
use crate::fields::Field;
use crate::lines::Line;

pub const LINE_MOST: usize = 64;

// What can be asked of a vertex of an analysed frame, each question with its letter.
#[derive(Clone, Copy)]
pub enum Question {
    Parent = b'U' as isize,
    Place = b'O' as isize,
    FirstPlace = b'F' as isize,
    Height = b'H' as isize,
    RowCount = b'R' as isize,
    ColumnCount = b'C' as isize,
}

impl From<Question> for u8 {
    ghost use Rattle.frame_text.specs.Answers.{letter_of};

    ghost from_gives = { λ question r. r ≡ letter_of question };

    fn from(question: Question) -> u8 {
        question as u8
    }
}

// The ten kinds of line, the six questions as one.
#[derive(Clone, Copy)]
pub enum Kind {
    Make,
    Put,
    Drop,
    Analyse,
    Ask(Question),
}

// A letter that stands for no kind. The letters are matched as chars, one case a kind: the project's form for it.
#[derive(Clone, Copy)]
pub struct NoKind;

impl TryFrom<char> for Kind {
    type Error = NoKind;

    ghost try_from_gives = { λ letter r. r ≡ ok_or (kind_of letter) record {} };

    fn try_from(letter: char) -> Result<Kind, NoKind> {
        match letter {
            'M' => Ok(Kind::Make),
            'P' => Ok(Kind::Put),
            'D' => Ok(Kind::Drop),
            'A' => Ok(Kind::Analyse),
            'U' => Ok(Kind::Ask(Question::Parent)),
            'O' => Ok(Kind::Ask(Question::Place)),
            'F' => Ok(Kind::Ask(Question::FirstPlace)),
            'H' => Ok(Kind::Ask(Question::Height)),
            'R' => Ok(Kind::Ask(Question::RowCount)),
            'C' => Ok(Kind::Ask(Question::ColumnCount)),
            _ => Err(NoKind),
        }
    }
}

// A line without fault: its names and numbers are as they should be.
#[derive(Clone, Copy)]
pub enum Record<'a> {
    Make {
        name: Field<'a>,
        order: Field<'a>,
    },
    Put {
        i: Field<'a>,
        j: Field<'a>,
    },
    Drop {
        i: Field<'a>,
        j: Field<'a>,
    },
    Analyse,
    Ask {
        question: Question,
        vertex: Field<'a>,
    },
}

impl<'a> Line<'a> {
    // The record that the line is, or the first fault that it has.
    pub fn read(&self) -> Result<Record<'a>, LineFault>
        ensures { stated result ≡
            reading self.now.number self.now.bytes.now self.now.ended }
    {
        let line = self.number;
        if self.bytes.len() > LINE_MOST {
            return Err(LineFault::TooLong { line });
        }
        if !self.ended {
            return Err(LineFault::NoLf { line });
        }
        match self.bytes {
            [letter] => Operands::empty(line).read(*letter),
            [letter, b',', rest @ ..] => Operands::of(rest, line).read(*letter),
            _ => Err(LineFault::Kind { line }),
        }
    }
}

// The fields after a line's letter, up to one more than any kind has.
#[derive(Clone, Copy)]
struct Operands<'a> {
    line: usize,
    second: Option<&'a [u8]>,
    third: Option<&'a [u8]>,
    fourth: Option<&'a [u8]>,
}

impl<'a> Operands<'a> {
    fn empty(line: usize) -> Operands<'a>
        ensures line { result.line ≡ line }
        ensures nothing { at_hand result ≡ [] }
    {
        Operands {
            line,
            second: None,
            third: None,
            fourth: None,
        }
    }

    fn of(rest: &'a [u8], line: usize) -> Operands<'a>
        ensures line { result.line ≡ line }
        ensures first_three { at_hand result ≡ take 3 (fields rest.now) }
    {
        let mut fields = rest.split(|b| *b == b',');
        Operands {
            line,
            second: fields.next(),
            third: fields.next(),
            fourth: fields.next(),
        }
    }

    // The record that they make after a letter.
    fn read(&self, letter: u8) -> Result<Record<'a>, LineFault>
        ensures { stated result ≡ by_kind self.now.line (kind_of letter) (at_hand self.now) }
    {
        let Ok(kind) = Kind::try_from(char::from(letter)) else {
            return Err(LineFault::Kind { line: self.line });
        };
        self.record(kind)
    }

    fn field(&self, bytes: &'a [u8], number: u8) -> Field<'a>
        ensures { part_of result ≡ part self.now.line number bytes.entry.now }
    {
        Field {
            bytes,
            line: self.line,
            number,
        }
    }

    fn record(&self, kind: Kind) -> Result<Record<'a>, LineFault>
        ensures { stated result ≡ by_count self.now.line kind (at_hand self.now) }
    {
        match kind {
            Kind::Make => self.make(),
            Kind::Put => self.two_numbers().map(|(i, j)| Record::Put { i, j }),
            Kind::Drop => self.two_numbers().map(|(i, j)| Record::Drop { i, j }),
            Kind::Analyse => self.none().map(|()| Record::Analyse),
            Kind::Ask(question) => self.ask(question),
        }
    }

    fn make(&self) -> Result<Record<'a>, LineFault>
        ensures { stated result ≡ by_count self.now.line Make (at_hand self.now) }
    {
        let (name, order) = self.two()?;
        name.check_name()?;
        order.check_number()?;
        Ok(Record::Make { name, order })
    }

    fn ask(&self, question: Question) -> Result<Record<'a>, LineFault>
        ensures { stated result ≡ by_count self.now.line (Ask question) (at_hand self.now) }
    {
        let vertex = self.one()?;
        vertex.check_number()?;
        Ok(Record::Ask { question, vertex })
    }

    fn two_numbers(&self) -> Result<(Field<'a>, Field<'a>), LineFault>
        ensures { pair_of result ≡ two_numbers self.now.line (at_hand self.now) }
    {
        let (i, j) = self.two()?;
        i.check_number()?;
        j.check_number()?;
        Ok((i, j))
    }

    // The fields of a kind with none, with one, with two: a pattern each names them, where one function over the count
    // would have to count them.
    fn none(&self) -> Result<(), LineFault>
        ensures { result ≡ counted self.now.line 0 (at_hand self.now) (Ok tt) }
    {
        match self.second {
            None => Ok(()),
            Some(_) => Err(LineFault::FieldCount { line: self.line }),
        }
    }

    fn one(&self) -> Result<Field<'a>, LineFault>
        ensures { one_of result ≡ one_field self.now.line 2 (at_hand self.now) }
    {
        match (self.second, self.third) {
            (Some(only), None) => Ok(self.field(only, 2)),
            _ => Err(LineFault::FieldCount { line: self.line }),
        }
    }

    fn two(&self) -> Result<(Field<'a>, Field<'a>), LineFault>
        ensures { pair_of result ≡ two_fields self.now.line (at_hand self.now) }
    {
        match (self.second, self.third, self.fourth) {
            (Some(second), Some(third), None) => Ok((self.field(second, 2), self.field(third, 3))),
            _ => Err(LineFault::FieldCount { line: self.line }),
        }
    }
}
