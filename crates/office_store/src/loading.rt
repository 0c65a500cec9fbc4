// Loading the session, once.
ghost use Rattle.std.specs.Prelude.{◌≡◌, ◌++◌, IfErr, IfOk, IsPermutation, OnOk, map};
ghost use Rattle.exam_model.specs.Enrolments.{AreEnrolments};
ghost use Rattle.exam_model.specs.Instance.{IsInstance};
ghost use Rattle.exam_model.specs.Pairs.{pairs_at, pairs_of};
ghost use Rattle.office_model.specs.Loading.{NamesFirstFault, SpellsSession, session_counts, load_session};
ghost use Rattle.office_store.specs.Leaving.{LeavesNext};
ghost use Rattle.office_store.specs.Running.{CommandRan};
ghost use Rattle.office_records.specs.TableRows.{enrol_row};

use crate::memory::OfficeMemory;
use crate::office::Office;
use crate::transactions::put;
use exam_model::{Enrolments, ExamNo, Instance, StudentNo};
use office_files::read_instance;
use office_model::{Loaded, StoreFault};
use office_records::text_of;
use office_tables::Both;
use office_tables::tables::{DeleteMeta, EnrolRow, InsertEnrol, InsertEnrols, InsertMeta};
use sqlite::Alter;
use std::alloc::{AllocError, Global};

impl<S: Alter> Office<S> {
    /// Loads the session of an instance file with its enrolments, once. `Refused`: the file is
    /// faulty; then `Loaded`: there is a session already.
    pub fn load(&mut self, alloc: Global, text: &[u8]) -> Result<Loaded, StoreFault>
        ensures runs { CommandRan S.Store (load_session text.now) self.old self.new result }
        // On any disk: returns the counts of the session in the text.
        ensures counts { IfOk result (SpellsSession text.now) }
        // On any disk: `Refused` names the first fault of the text.
        ensures first { IfErr result (NamesFirstFault text.now) }
        // Whatever the refusal, the tables are as they were. On `Ok` the database is open, and the
        // change is committed.
        ensures leaves { LeavesNext S.Store (load_session text.now) self.old self.new result }
    {
        let (instance, enrolments) = match read_instance(alloc, text) {
            Ok(read) => read,
            Err(fault) => return Err(StoreFault::of_file(fault)),
        };
        self.check_open()?;
        if self.memory.kept.is_some() {
            return Err(StoreFault::Loaded);
        }
        let loaded = counts_of(&instance, &enrolments);
        let stored = text_of(alloc, &instance)?;
        let rows = enrol_rows(alloc, &enrolments)?;
        let meta = Both {
            first: DeleteMeta,
            second: InsertMeta {
                published: false,
                instance: &stored,
            },
        };
        let pairs = InsertEnrols { rows: &rows };
        put(
            &mut self.conn,
            &Both {
                first: meta,
                second: pairs,
            },
        )?;
        self.memory = OfficeMemory::of_session(instance, enrolments);
        Ok(loaded)
    }
}

fn counts_of(instance: &Instance, enrolments: &Enrolments) -> Loaded
    ensures counts { result ≡ session_counts (instance.now, enrolments.now) }
    ensures instance { IsInstance instance.now }
    ensures enrolments { AreEnrolments enrolments.now }
{
    Loaded {
        exams: instance.exams(),
        pairs: enrolments.pairs(),
        periods: instance.periods(),
        rooms: instance.rooms(),
    }
}

// Returns the rows of the pairs, by student and then by exam, the order of the table in the file.
fn enrol_rows(alloc: Global, enrolments: &Enrolments) -> Result<Vec<InsertEnrol>, AllocError>
    ensures { IfOk result (λ rows. IsPermutation (map (λ it. it.row) rows.items)
        (map enrol_row (pairs_of enrolments.now))) }
{
    let mut rows = Vec::new(alloc);
    for number in 0..enrolments.exams() {
        let students = enrolments.students(ExamNo::new(number));
        add_rows(&mut rows, number, students)?;
    }
    rows.sort_by_key(|it| it.row.student)?; // stable, so that exams stay in order
    Ok(rows)
}

fn add_rows(
    rows: &mut Vec<InsertEnrol>,
    exam: u32,
    students: &[StudentNo],
) -> Result<(), AllocError>
    ensures { OnOk result (map (λ it. it.row) rows.new.items
        ≡ map (λ it. it.row) rows.old.items ++ map enrol_row (pairs_at exam students.now)) }
{
    for student in students {
        let row = EnrolRow {
            student: student.get(),
            exam,
        };
        rows.push(InsertEnrol { row })?;
    }
    Ok(())
}
