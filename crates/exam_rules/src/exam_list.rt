// Lists of exams, for example one for each period, or for each room and period.
ghost use Rattle.std.specs.Prelude.{◌≡◌, ◌++◌, ◌∷◌, [], replicate, IfOk, OnErr, OnOk};

use exam_model::ExamNo;
use std::alloc::{AllocError, Global};
use std::marker::Model;

/// Exams, in the order in which they were added.
#[derive(Drop)]
pub struct ExamList {
    exams: Vec<ExamNo>,
}

impl Model for ExamList {
    ghost use Rattle.std.specs.Prelude.{ℕ, List};

    ghost Value = { List ℕ };

    ghost view = { λ a. a.exams.items };
}

impl ExamList {
    fn new(alloc: Global) -> ExamList
        ensures { result ≡ [] }
    {
        ExamList {
            exams: Vec::new(alloc),
        }
    }

    pub fn as_slice(&self) -> &[ExamNo]
        ensures { result.now ≡ self.now }
    {
        &self.exams
    }

    /// Adds an exam.
    pub fn push(&mut self, exam: ExamNo) -> Result<(), AllocError>
        ensures added { OnOk result (self.new ≡ self.old ++ exam ∷ []) }
        ensures err { OnErr result (self.new ≡ self.old) }
    {
        self.exams.push(exam)?;
        Ok(())
    }
}

/// Returns this many empty lists.
pub fn empty_lists(alloc: Global, count: usize) -> Result<Vec<ExamList>, AllocError>
    ensures { IfOk result (λ lists. lists.items ≡ replicate count []) }
{
    let mut lists: Vec<ExamList> = Vec::with_capacity(alloc, count)?;
    'lists: for _ in 0..count {
        lists.push(ExamList::new(alloc))?;
    }
    Ok(lists)
}
