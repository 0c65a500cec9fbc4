// Reading the values of single lines: periods, rooms, rules and places.
ghost use Rattle.std.specs.Prelude.{◌≡◌, ℕ, List, Result};
ghost use Rattle.office_files.specs.Fields.{fields_of};
ghost use Rattle.office_files.specs.declared.counts.Counts.{Counts};
ghost use Rattle.office_files.specs.declared.fault.FaultKind.{FaultKind};

use crate::counts::Counts;
use crate::dates::{date_of, time_of};
use crate::fault::FaultKind;
use crate::fields::{Fields, end_of_fields};
use crate::rule_word::{rule_by, rule_word};
use crate::words::same_word;
use exam_model::{ExamNo, Period, PeriodNo, PeriodRule, Place, Room, RoomNo, RoomRule};
use exam_terms::limits::{MAX_AMOUNT, MAX_MINUTES, MAX_RULES};

/// The value of a line of one kind, after the items of the lines before it.
pub(crate) trait LineItem: Sized {
    ghost reading: { Counts → List Self → List (List ℕ) → Result Self FaultKind };

    fn read(counts: Counts, before: &[Self], line: &[u8]) -> Result<Self, FaultKind>
        ensures { result ≡ reading counts before.now (fields_of line.now) };
}

impl LineItem for Period {
    ghost use Rattle.office_files.specs.ItemLines.{period_line};

    ghost reading = { period_line };

    fn read(_counts: Counts, _before: &[Period], line: &[u8]) -> Result<Period, FaultKind> {
        let mut fields = Fields::new(line);
        let date = date_of(fields.next())?;
        let (hour, minute, second) = time_of(fields.next())?;
        let length = fields.next_number(MAX_MINUTES)?;
        let penalty = fields.next_number(MAX_AMOUNT)?;
        end_of_fields(fields)?;
        Ok(Period {
            date,
            hour,
            minute,
            second,
            length,
            penalty,
        })
    }
}

impl LineItem for Room {
    ghost use Rattle.office_files.specs.ItemLines.{room_line};

    ghost reading = { room_line };

    fn read(_counts: Counts, _before: &[Room], line: &[u8]) -> Result<Room, FaultKind> {
        let mut fields = Fields::new(line);
        let capacity = fields.next_number(MAX_AMOUNT)?;
        let penalty = fields.next_number(MAX_AMOUNT)?;
        end_of_fields(fields)?;
        Ok(Room { capacity, penalty })
    }
}

impl LineItem for PeriodRule {
    ghost use Rattle.office_files.specs.ItemLines.{period_rule_line};

    ghost reading = { period_rule_line };

    fn read(counts: Counts, before: &[PeriodRule], line: &[u8]) -> Result<PeriodRule, FaultKind> {
        if before.len() >= MAX_RULES as usize {
            return Err(FaultKind::OutOfRange);
        }
        let mut fields = Fields::new(line);
        let last = counts.exams.saturating_sub(1);
        let one = fields.next_number(last)?;
        let word = rule_word(fields.next())?;
        let other = fields.next_number(last)?;
        end_of_fields(fields)?;
        Ok(rule_by(word, one, other))
    }
}

impl LineItem for RoomRule {
    ghost use Rattle.office_files.specs.ItemLines.{room_rule_line};

    ghost reading = { room_rule_line };

    fn read(counts: Counts, before: &[RoomRule], line: &[u8]) -> Result<RoomRule, FaultKind> {
        if before.len() >= MAX_RULES as usize {
            return Err(FaultKind::OutOfRange);
        }
        let mut fields = Fields::new(line);
        let exam = fields.next_number(counts.exams.saturating_sub(1))?;
        if !same_word(fields.next(), b"ROOM_EXCLUSIVE") {
            return Err(FaultKind::BadWord);
        }
        end_of_fields(fields)?;
        Ok(RoomRule(ExamNo::new(exam)))
    }
}

impl LineItem for Place {
    ghost use Rattle.office_files.specs.ItemLines.{place_line};

    ghost reading = { place_line };

    fn read(counts: Counts, before: &[Place], line: &[u8]) -> Result<Place, FaultKind> {
        if before.len() >= counts.exams as usize {
            return Err(FaultKind::CountMismatch);
        }
        let mut fields = Fields::new(line);
        let period = fields.next_number(counts.periods.saturating_sub(1))?;
        let room = fields.next_number(counts.rooms.saturating_sub(1))?;
        end_of_fields(fields)?;
        Ok(Place {
            period: PeriodNo::new(period),
            room: RoomNo::new(room),
        })
    }
}
