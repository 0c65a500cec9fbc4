// A row: a student's exam in a period. The parts are sums over pairs of rows.
use exam_model::{PeriodNo, StudentNo};

#[derive(Clone, Copy)]
pub(crate) struct Row {
    pub student: StudentNo,
    pub period: PeriodNo,
}
