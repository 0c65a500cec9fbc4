// Checks over devices that fail or are interrupted.
use crate::given::assert_same;
use office_check::{CheckFault, Report, task_run};
use office_files::{FaultKind, FileFault, InputFault, instance_text, solution_text};
use std::io::{self, ErrorKind, Read, Write};
use std::test::Fail;

const SMALL_EXAM: &str = "[Exams:4]\n120, 1, 2\n90, 2, 3\n120, 3\n60, 1\n\
    [Periods:4]\n15:04:2005, 09:30:00, 120, 0\n15:04:2005, 14:00:00, 120, 0\n\
    15:04:2005, 17:00:00, 90, 10\n18:04:2005, 09:30:00, 120, 5\n[Rooms:2]\n3, 0\n2, 7\n\
    [PeriodHardConstraints]\n1, AFTER, 0\n[RoomHardConstraints]\n[InstitutionalWeightings]\n\
    TWOINAROW,7\nTWOINADAY,5\nPERIODSPREAD,3\nNONMIXEDDURATIONS,10\nFRONTLOAD,1,2,4\n";

const SMALL_SOLUTION: &str = "0, 0\n1, 0\n3, 1\n2, 0\n";

// Is interrupted this many times, and then returns its bytes, or fails if it has none.
#[derive(Drop)]
struct Device<'a> {
    interrupted: u32,
    bytes: Option<&'a [u8]>,
}

impl Read for Device<'_> {
    fn read(&mut self, buf: &mut [u8]) -> io::Result<usize> {
        if self.interrupted > 0 {
            self.interrupted -= 1;
            return Err(io::Error::from(ErrorKind::Interrupted));
        }
        match &mut self.bytes {
            Some(bytes) => bytes.read(buf),
            None => Err(io::Error::from(ErrorKind::Other)),
        }
    }
}

impl Write for Device<'_> {
    fn write(&mut self, _buf: &[u8]) -> io::Result<usize> {
        Err(io::Error::from(ErrorKind::Other))
    }

    fn flush(&mut self) -> io::Result<()> {
        Ok(())
    }
}

// How many reads a reader has.
const READS: u32 = 5_000_000;

// The last reads return a text and its end; a text without an end within the reads is not read.
#[test]
fn a_failed_device_is_named(rt: HostRuntime) {
    let (exam, solution) = (Some(SMALL_EXAM.as_bytes()), Some(SMALL_SOLUTION.as_bytes()));
    // the interruptions and the bytes of the instance and of the solution, and the result
    let cases = [
        (0, None, u32::MAX, None, Err(CheckFault::ReadInstance)),
        (u32::MAX, None, 0, None, Err(CheckFault::ReadInstance)),
        (0, exam, 0, None, Err(CheckFault::ReadSolution)),
        (READS - 2, exam, READS - 2, solution, Ok(0)),
        (READS - 1, exam, 0, solution, Err(CheckFault::ReadInstance)),
        (0, exam, READS - 1, solution, Err(CheckFault::ReadSolution)),
    ];
    for (row, (before, exam, between, solution, wanted)) in cases.into_iter().enumerate() {
        let mut instance = Device {
            interrupted: before,
            bytes: exam,
        };
        let mut timetable = Device {
            interrupted: between,
            bytes: solution,
        };
        let mut printed: Vec<u8> = Vec::new(rt.alloc());
        let found = task_run(
            rt.alloc(),
            &Report,
            &mut instance,
            &mut timetable,
            &mut printed,
        );
        assert_same(&rt, found, wanted, row);
    }
}

#[test]
fn an_interrupted_read_is_tried_again(rt: HostRuntime) -> Result<(), Fail> {
    for text in [SMALL_EXAM.as_bytes(), SMALL_SOLUTION.as_bytes()] {
        let once = || Device {
            interrupted: 1,
            bytes: Some(text),
        };
        let found = instance_text(rt.alloc(), &mut once());
        assert_same(&rt, found.as_ref().map(Vec::as_slice), Ok(text), "instance");
        let found = solution_text(rt.alloc(), &mut once());
        assert_same(&rt, found.as_ref().map(Vec::as_slice), Ok(text), "solution");
    }
    // of 4,194,305 bytes each read returns 16,384 and the last one 1
    let long = vec![in rt.alloc(); b' '; 4_194_305]?;
    let too_long = InputFault::File(FileFault {
        line: 0,
        what: FaultKind::TooLong,
    });
    for (interrupted, wanted) in [(READS - 257, too_long), (READS - 256, InputFault::Read)] {
        let bytes = Some(long.as_slice());
        let found = instance_text(rt.alloc(), &mut Device { interrupted, bytes });
        assert_same(&rt, found.err(), Some(wanted), interrupted);
    }
    Ok(())
}
