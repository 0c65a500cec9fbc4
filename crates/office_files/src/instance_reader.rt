// Reading an instance file.
ghost use Rattle.std.specs.Prelude.{◌≡◌, ◌≢◌, ℕ, ◌+◌, ◌≤◌, List, map, length, Ok, Err, Some, None, IfOk, IfErr};
ghost use Rattle.exam_terms.specs.declared.limits.TheConstants.{INSTANCE_BYTES};
ghost use Rattle.exam_model.specs.Enrolments.{Enrolled};
ghost use Rattle.exam_model.specs.Instance.{Session, IsInstance};
ghost use Rattle.office_files.specs.ExamLines.{ExamLine, exam_line, exam_of};
ghost use Rattle.office_files.specs.Faults.{HasNoLine};
ghost use Rattle.office_files.specs.FirstFault.{first_fault};
ghost use Rattle.office_files.specs.Lines.{line_count};
ghost use Rattle.office_files.specs.Reading.{AnswersReading};
ghost use Rattle.office_files.specs.Sections.{section_in};
ghost use Rattle.office_files.specs.Weights.{with_weightings, no_weights};
ghost use Rattle.office_files.specs.Spelled.{exams_heading};
ghost use Rattle.office_files.specs.InstanceText.{later_sections, instance_in, InstanceText};

use crate::counts::Counts;
use crate::exam_lines::exam_lines;
use crate::fault::{FaultKind, FileFault};
use crate::sections::Sections;
use crate::weightings::{Weighting, weights_of};
use exam_model::{Enrolments, Exam, Instance, Period, PeriodRule, Room, RoomRule};
use exam_terms::limits::{INSTANCE_BYTES, MAX_EXAMS, MAX_PERIODS, MAX_ROOMS};
use std::alloc::Global;

// The values of the sections after that of the exams.
#[derive(Drop)]
struct LaterSections {
    periods: Vec<Period>,
    rooms: Vec<Room>,
    period_rules: Vec<PeriodRule>,
    room_rules: Vec<RoomRule>,
    weightings: Vec<Weighting>,
}

/// Returns the instance and the enrolments that a file describes (ITC 2007, input format). `Err` is
/// the fault of the first faulty line, and in it that of the first faulty field; `TooLong` (above
/// 4,194,304 bytes) and `NoMemory` have line 0.
pub fn read_instance(alloc: Global, source: &[u8]) -> Result<(Instance, Enrolments), FileFault>
    // The text describes the result.
    ensures reading { IfOk result (λ read. InstanceText source.now read.0 read.1) }
    // A text refused with any other fault than out of memory is invalid, and no text describes two
    // instances.
    ensures only { IfErr result (λ fault. fault.what ≢ FaultKind.NoMemory
        → (I : Session) (E : Enrolled) → InstanceText source.now I E → ⊥) }
    ensures one { IfOk result (λ read. (I : Session) (E : Enrolled) → InstanceText source.now I E
        → (I ≡ read.0) × (E ≡ read.1)) }
    ensures fits { IfOk result (λ read. length read.1 ≡ length read.0.exams) }

    // The fault is the first one of the text, and a text that is read has none.
    ensures first { IfErr result (λ fault. fault.what ≢ FaultKind.NoMemory
        → first_fault source.now ≡ Some fault) }
    ensures faultless { IfOk result (λ _. first_fault source.now ≡ None) }

    // The result is that of the reading of the text from its start, faults included.
    ensures exact { AnswersReading (λ read. (read.0, read.1)) result (instance_in source.now) }
    ensures memory { IfErr result HasNoLine }
{
    if source.len() > INSTANCE_BYTES {
        return Err(FileFault::TOO_LONG);
    }
    instance_in(alloc, source)
}

// Returns the instance of a file that is not too long.
fn instance_in(alloc: Global, source: &[u8]) -> Result<(Instance, Enrolments), FileFault>
    requires within { length source.now ≤ INSTANCE_BYTES }
    ensures exact { AnswersReading (λ r. (r.0, r.1)) result (instance_in source.now) }
    ensures memory { IfErr result HasNoLine }
{
    let mut sections = Sections::new(source);
    let (exams, enrolments) = exams_section(alloc, &mut sections)?;
    let said = later_sections(alloc, &mut sections, exams.len() as u32)?;
    Ok((instance_of(exams, said), enrolments))
}

// Reads the section of exams.
fn exams_section(
    alloc: Global,
    sections: &mut Sections<'_>,
) -> Result<(Vec<Exam>, Enrolments), FileFault>
    requires within { length sections.old.source.now ≤ INSTANCE_BYTES }
    ensures found { IfOk result (λ r. (said : List ExamLine)
        × (section_in exams_heading exam_line (line_count sections.old.source.now + 1)
        sections.old.lines ≡ Ok (said, sections.new.lines))
        × (r.0.items ≡ map exam_of said) × (r.1 ≡ map (λ line. line.students) said)) }
    ensures fault { IfErr result (λ fault. fault.what ≢ FaultKind.NoMemory
        → section_in exams_heading exam_line (line_count sections.old.source.now + 1)
        sections.old.lines ≡ Err fault) }
    ensures same { sections.new.source.now ≡ sections.old.source.now }
    ensures memory { IfErr result HasNoLine }
{
    let size = sections.open(b"Exams", Some(MAX_EXAMS))?;
    exam_lines(alloc, &mut sections.lines, size as u32)
}

// Reads the sections after that of the exams.
fn later_sections(
    alloc: Global,
    sections: &mut Sections<'_>,
    exams: u32,
) -> Result<LaterSections, FileFault>
    requires within { length sections.old.source.now ≤ INSTANCE_BYTES }
    ensures found { (exam_lines : List ExamLine) → length exam_lines ≡ exams → IfOk result (λ said.
        later_sections (line_count sections.old.source.now + 1) exam_lines sections.old.lines
        ≡ Ok (record {
          exams = exam_lines;
          periods = said.periods.items;
          rooms = said.rooms.items;
          period_rules = said.period_rules.items;
          room_rules = said.room_rules.items;
          weightings = said.weightings.items;
        })) }
    ensures fault { (exam_lines : List ExamLine) → length exam_lines ≡ exams
        → IfErr result (λ fault. fault.what ≢ FaultKind.NoMemory
        → later_sections (line_count sections.old.source.now + 1) exam_lines sections.old.lines
        ≡ Err fault) }
    ensures memory { IfErr result HasNoLine }
{
    let counts = Counts {
        exams,
        periods: 0,
        rooms: 0,
    };
    let periods: Vec<Period> = sections.next(alloc, b"Periods", Some(MAX_PERIODS), counts)?;
    let rooms: Vec<Room> = sections.next(alloc, b"Rooms", Some(MAX_ROOMS), counts)?;
    let period_rules: Vec<PeriodRule> = sections.next(
        alloc,
        b"PeriodHardConstraints",
        None,
        counts,
    )?;
    let room_rules: Vec<RoomRule> = sections.next(alloc, b"RoomHardConstraints", None, counts)?;
    let weightings: Vec<Weighting> = sections.next(
        alloc,
        b"InstitutionalWeightings",
        None,
        counts,
    )?;
    sections.end()?;
    Ok(LaterSections {
        periods,
        rooms,
        period_rules,
        room_rules,
        weightings,
    })
}

// Returns the instance of the sections read, whose limits were judged line by line.
fn instance_of(exams: Vec<Exam>, said: LaterSections) -> Instance
    requires kept { IsInstance (record {
      exams = exams.items;
      periods = said.periods.items;
      rooms = said.rooms.items;
      period_rules = said.period_rules.items;
      room_rules = said.room_rules.items;
      weights = with_weightings no_weights said.weightings.items;
    }) }
    ensures made { result ≡ record {
      exams = exams.items;
      periods = said.periods.items;
      rooms = said.rooms.items;
      period_rules = said.period_rules.items;
      room_rules = said.room_rules.items;
      weights = with_weightings no_weights said.weightings.items;
    } }
{
    let LaterSections {
        periods,
        rooms,
        period_rules,
        room_rules,
        weightings,
    } = said;
    let weights = weights_of(&weightings);
    Instance::of(exams, periods, rooms, period_rules, room_rules, weights)
}
