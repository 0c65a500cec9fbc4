// A timetable that isn't written, and the fields of a text.
use crate::given::assert_same;
use exam_model::Timetable;
use exam_terms::{are_digits, trim_end, trim_start, trimmed_text};
use office_files::{FaultKind, FileFault, Tokens, number, same_word, write_solution};
use std::alloc::{AllocError, Global};
use std::test::Fail;

#[test]
fn a_partial_timetable_is_not_written(rt: HostRuntime) -> Result<(), Fail> {
    let unplaced = Timetable::new(rt.alloc(), 4)?;
    let missing = FileFault {
        line: 1,
        what: FaultKind::Incomplete,
    };
    let refused = write_solution(rt.alloc(), &unplaced).err();
    assert_same(&rt, refused, Some(missing), "no exam placed");
    Ok(())
}

// Returns the fields with their lines, as `LINE:FIELD;`.
fn shown(alloc: Global, source: &[u8]) -> Result<Vec<u8>, AllocError> {
    let mut shown: Vec<u8> = Vec::new(alloc);
    if source.len() > 4_194_304 {
        return Ok(shown);
    }
    for token in Tokens::new(source) {
        let line = format!(in alloc; "{}:", token.line)?;
        shown.extend_from_slice(line.as_bytes())?;
        shown.extend_from_slice(token.text)?;
        shown.push(b';')?;
    }
    Ok(shown)
}

#[test]
fn fields_without_blanks(rt: HostRuntime) -> Result<(), Fail> {
    let cases = [
        (b"".as_slice(), b"".as_slice()),
        (b"7", b"1:7;"),
        (b"60, 1,2\r\n5\r", b"1:60;1:1;1:2;2:5;"),
        (b" 60 ,\t1\t,, 2 ,\n", b"1:60;1:1;1:;1:2;"),
        (b"\n \t\r\n , ,\n\n5", b"3:;3:;5:5;"),
        (b",", b"1:;"),
        (b" [Exams:2],\t \n8,9", b"1:[Exams:2],;2:8;2:9;"),
        (b"1\r2\r\r\n", b"1:1\r2\r;"),
    ];
    for (source, fields) in cases {
        assert_same(&rt, shown(rt.alloc(), source)?.as_slice(), fields, source);
    }
    Ok(())
}

#[test]
fn only_out_of_memory_is_of_no_line(rt: HostRuntime) {
    // the fault on line 3, and its line
    for (what, line) in [(FaultKind::BadWord, 3), (FaultKind::NoMemory, 0)] {
        let wanted = FileFault { line, what };
        assert_same(&rt, FileFault::at(3, what), wanted, what);
    }
}

#[test]
fn blanks_are_spaces_and_tabs(rt: HostRuntime) {
    // a text, and the rest without the blanks at its start, at its end, at both
    let cases = [
        (
            b" \ta b\t ".as_slice(),
            b"a b\t ".as_slice(),
            b" \ta b".as_slice(),
            b"a b".as_slice(),
        ),
        (b"7", b"7", b"7", b"7"),
        (b"\r \n", b"\r \n", b"\r \n", b"\r \n"),
        (b"\t ", b"", b"", b""),
        (b"", b"", b"", b""),
    ];
    for (text, start, end, both) in cases {
        assert_same(&rt, trim_start(text), start, text);
        assert_same(&rt, trim_end(text), end, text);
        assert_same(&rt, trimmed_text(text), both, text);
    }
}

#[test]
fn a_number_is_digits_within_a_limit(rt: HostRuntime) {
    // a text, whether it has only digits, and its number if that is at most 1,440
    let cases = [
        (b"0".as_slice(), true, Ok(0)),
        (b"0001440", true, Ok(1_440)),
        (b"1441", true, Err(FaultKind::OutOfRange)),
        (b"18446744073709551617", true, Err(FaultKind::OutOfRange)),
        (b"", true, Err(FaultKind::BadNumber)),
        (b"-1", false, Err(FaultKind::BadNumber)),
        (b"1 ", false, Err(FaultKind::BadNumber)),
        (b"18446744073709551617x", false, Err(FaultKind::BadNumber)),
    ];
    for (text, digits, wanted) in cases {
        assert_same(&rt, are_digits(text), digits, text);
        assert_same(&rt, number(text, 1_440), wanted, text);
    }
}

#[test]
fn words_are_the_same_in_small_and_capital_letters(rt: HostRuntime) {
    let cases = [
        (b"exclusion".as_slice(), true),
        (b"Exclusion", true),
        (b"EXCLUSION ", false),
        (b"EXCLUSIO", false),
        (b"", false),
    ];
    for (text, wanted) in cases {
        assert_same(&rt, same_word(text, b"EXCLUSION"), wanted, text);
    }
}
