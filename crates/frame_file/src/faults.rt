// What can be wrong in a run, each fault with where it is, and what an answer reports of it.
ghost use Rattle.std.specs.Prelude.{◌≡◌};
ghost use Rattle.frame_text.specs.declared.answers.Answer.TheVariants as says;
ghost use Rattle.frame_file.specs.declared.faults.RunFault.TheVariants.{Line};
ghost use Rattle.frame_file.specs.Faults.{field_of, run_report};

use frame_text::{Answer, LineFault, Report};
use model::{Refusal, Side};

#[derive(Clone, Copy)]
pub enum RunFault {
    // the file is longer than a run takes
    FileTooLong,
    // the line is no record
    Line(LineFault),
    // a model is made again, or not made first
    OutOfPlace { line: usize },
    // the model refuses what the line asks for
    Refused { line: usize, refusal: Refusal },
}

impl From<LineFault> for RunFault {
    ghost from_gives = { λ fault r. r ≡ Line fault };

    fn from(fault: LineFault) -> RunFault {
        RunFault::Line(fault)
    }
}

// The field of its line that a refusal is about, 0 for the whole line: a number, as the answer prints it.
fn field_of(refusal: Refusal) -> u8
    ensures { result ≡ field_of refusal }
{
    match refusal {
        Refusal::VertexOutOfRange(Side::First) => 2,
        Refusal::OrderOutOfRange
        | Refusal::EmptyModel
        | Refusal::TableTooShort
        | Refusal::SetsTooSmall
        | Refusal::VertexOutOfRange(Side::Second) => 3,
        Refusal::EqualVertices
        | Refusal::EntryHeld
        | Refusal::ModelFull
        | Refusal::EntryNotHeld
        | Refusal::NotAnalysed
        | Refusal::ArraysTooShort => 0,
    }
}

impl From<RunFault> for Report {
    ghost from_gives = { λ fault r. r ≡ run_report fault };

    fn from(fault: RunFault) -> Report {
        match fault {
            RunFault::FileTooLong => Report {
                line: 0,
                field: 0,
                number: 1,
            },
            RunFault::Line(cause) => Report::from(cause),
            RunFault::OutOfPlace { line } => Report {
                line,
                field: 1,
                number: 7,
            },
            RunFault::Refused { line, refusal } => Report {
                line,
                field: field_of(refusal),
                number: refusal.number(),
            },
        }
    }
}

impl<'a> From<RunFault> for Answer<'a> {
    ghost from_gives = { λ fault r. r ≡ says.Refused (run_report fault) };

    fn from(fault: RunFault) -> Answer<'a> {
        Answer::Refused(fault.into())
    }
}
