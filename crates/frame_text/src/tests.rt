// Both ends of every limit, every fault by a line of its own, which of two comes first, and blocks byte by byte.
use crate::{Answer, FrameReader, Question, Record, Report};

// What is reported of the first line; none if it has no fault or there is none.
fn report(file: &[u8]) -> Option<Report> {
    let fault = FrameReader::new(file).next()?.read().err()?;
    Some(Report::from(fault))
}

fn refused(file: &[u8], field: u8, number: u8) -> bool {
    let expected = Report {
        line: 1,
        field,
        number,
    };
    report(file) == Some(expected)
}

fn accepted(file: &[u8]) -> bool {
    report(file).is_none()
}

#[test]
fn lines_of_64_bytes_and_of_65(rt: HostRuntime) {
    assert!(rt;
        refused(
            b"0123456789012345678901234567890123456789012345678901234567890123\n",
            1,
            3,
        )
    );
    assert!(rt;
        refused(
            b"01234567890123456789012345678901234567890123456789012345678901234\n",
            0,
            2,
        )
    );
}

#[test]
fn names_of_1_to_16_bytes(rt: HostRuntime) {
    assert!(rt;
        accepted(b"M,Z,1\n")
            & accepted(b"M,ABCDEFGHIJ-01239,1\n")
            & refused(b"M,ABCDEFGHIJ-012399,1\n", 2, 5)
            & refused(b"M,,1\n", 2, 5)
            & refused(b"M,BAY 2,1\n", 2, 5)
    );
}

#[test]
fn numbers_of_1_to_5_digits(rt: HostRuntime) {
    assert!(rt;
        accepted(b"U,0\n")
            & accepted(b"U,99999\n")
            & refused(b"U,100000\n", 2, 6)
            & refused(b"U,00\n", 2, 6)
            & refused(b"U,01\n", 2, 6)
            & refused(b"U,\n", 2, 6)
            & refused(b"U,+1\n", 2, 6)
    );
}

#[test]
fn every_fault_by_its_own_line(rt: HostRuntime) {
    assert!(rt;
        refused(b"A", 0, 2)
            & refused(b"\n", 1, 3)
            & refused(b"a\n", 1, 3)
            & refused(b"MM,BAY,1\n", 1, 3)
            & refused(b"A,1\n", 0, 4)
            & refused(b"P,1\n", 0, 4)
            & refused(b"D,1,2,3\n", 0, 4)
            & refused(b"U\n", 0, 4)
            & refused(b"M,bay,1\n", 2, 5)
            & refused(b"P,1,x\n", 3, 6)
    );
}

#[test]
fn the_first_of_two_faults(rt: HostRuntime) {
    assert!(rt;
        refused(b"X,1", 0, 2)
            & refused(b"X,1,2,3,4\n", 1, 3)
            & refused(b"M,bay\n", 0, 4)
            & refused(b"M,bay,x\n", 2, 5)
            & refused(b"P,x,y\n", 2, 6)
    );
}

#[test]
fn a_carriage_return_is_a_byte_like_any_other(rt: HostRuntime) {
    assert!(rt; refused(b"A\r\n", 1, 3) & refused(b"P,1,2\r\n", 3, 6));
}

#[test]
fn lines_are_counted(rt: HostRuntime) {
    let mut none = FrameReader::new(b"");
    assert!(rt; none.next().is_none());
    let mut reader = FrameReader::new(b"A\n\nC");
    assert_eq!(rt; ended(&mut reader), Some((1, true)));
    assert_eq!(rt; ended(&mut reader), Some((2, true)));
    assert_eq!(rt; ended(&mut reader), Some((3, false)));
    assert!(rt; reader.next().is_none());
}

fn ended(reader: &mut FrameReader) -> Option<(usize, bool)> {
    let line = reader.next()?;
    Some((line.number, line.ended))
}

// The numbers that a file's first line puts.
fn puts(file: &[u8]) -> Option<(u32, u32)> {
    match FrameReader::new(file).next()?.read() {
        Ok(Record::Put { i, j }) => Some((i.value(), j.value())),
        _ => None,
    }
}

#[test]
fn fields_have_their_values(rt: HostRuntime) {
    assert_eq!(rt; puts(b"P,7,16384\n"), Some((7, 16384)));
    assert_eq!(rt; puts(b"D,7,16384\n"), None);
}

#[test]
fn answers_fill_a_block(rt: HostRuntime) {
    let made = Answer::Made {
        name: b"BAY-2",
        order: 16384,
    };
    assert!(rt; made.block() == *b"M,BAY-2,16384\n\0\0\0\0\0\0\0\0\0\0\0\0\0\0\0\0\0\0");
    assert!(rt;
        Answer::Put { held: 0 }.block()
            == *b"P,0\n\0\0\0\0\0\0\0\0\0\0\0\0\0\0\0\0\0\0\0\0\0\0\0\0\0\0\0\0"
    );
    assert!(rt;
        Answer::Dropped { held: 9 }.block()
            == *b"D,9\n\0\0\0\0\0\0\0\0\0\0\0\0\0\0\0\0\0\0\0\0\0\0\0\0\0\0\0\0"
    );
    let analysed = Answer::Analysed { total: 134225920 };
    assert!(rt; analysed.block() == *b"A,134225920\n\0\0\0\0\0\0\0\0\0\0\0\0\0\0\0\0\0\0\0\0");
    let asked = Answer::Asked {
        question: Question::ColumnCount,
        vertex: 3,
        number: 10,
    };
    assert!(rt; asked.block() == *b"C,3,10\n\0\0\0\0\0\0\0\0\0\0\0\0\0\0\0\0\0\0\0\0\0\0\0\0\0");
    let refused = Answer::Refused(Report {
        line: 32768,
        field: 3,
        number: 15,
    });
    assert!(rt; refused.block() == *b"E,32768,3,15\n\0\0\0\0\0\0\0\0\0\0\0\0\0\0\0\0\0\0\0");
}

#[test]
fn the_longest_answer_fits(rt: HostRuntime) {
    let made = Answer::Made {
        name: b"ABCDEFGHIJ-01239",
        order: 4294967295,
    };
    assert!(rt; made.block() == *b"M,ABCDEFGHIJ-01239,4294967295\n\0\0");
}
