// What can be wrong with a field or a line, each fault with where it is, and what an answer reports of it.
ghost use Rattle.std.specs.Prelude.{◌≡◌};
ghost use Rattle.frame_text.specs.declared.faults.LineFault.TheVariants.{Field};
ghost use Rattle.frame_text.specs.Faults.{report_of, field_report, line_report};

// A field that is not what its place asks for. Each fault says where it is, since it is carried whole into the next
// one: the project's form for faults.
#[derive(Clone, Copy)]
pub enum FieldFault {
    // not 1 to 16 bytes of A to Z, 0 to 9 and hyphen
    Name { line: usize, field: u8 },
    // not one to five decimal digits, or a zero before other digits
    Number { line: usize, field: u8 },
}

// A line that is no record, by the first thing that is wrong with it.
#[derive(Clone, Copy)]
pub enum LineFault {
    // more than 64 bytes
    TooLong { line: usize },
    // the file ends before the line does
    NoLf { line: usize },
    // field 1 is not one of the ten letters
    Kind { line: usize },
    // another number of fields than the kind has
    FieldCount { line: usize },
    Field(FieldFault),
}

// What is answered of a fault: its line, its field (0 for the whole line), and its number in the list of faults.
// They are numbers, as the answer prints them.
#[derive(Clone, Copy, PartialEq, Eq)]
pub struct Report {
    pub line: usize,
    pub field: u8,
    pub number: u8,
}

fn reported(line: usize, field: u8, number: u8) -> Report
    ensures { result ≡ report_of line field number }
{
    Report {
        line,
        field,
        number,
    }
}

impl From<FieldFault> for LineFault {
    ghost from_gives = { λ fault r. r ≡ Field fault };

    fn from(fault: FieldFault) -> LineFault {
        LineFault::Field(fault)
    }
}

impl From<FieldFault> for Report {
    ghost from_gives = { λ fault r. r ≡ field_report fault };

    fn from(fault: FieldFault) -> Report {
        match fault {
            FieldFault::Name { line, field } => reported(line, field, 5),
            FieldFault::Number { line, field } => reported(line, field, 6),
        }
    }
}

impl From<LineFault> for Report {
    ghost from_gives = { λ fault r. r ≡ line_report fault };

    fn from(fault: LineFault) -> Report {
        match fault {
            LineFault::TooLong { line } => reported(line, 0, 2),
            LineFault::NoLf { line } => reported(line, 0, 2),
            LineFault::Kind { line } => reported(line, 1, 3),
            LineFault::FieldCount { line } => reported(line, 0, 4),
            LineFault::Field(inner) => Report::from(inner),
        }
    }
}
