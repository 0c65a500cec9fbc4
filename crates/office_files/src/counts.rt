// The numbers of things that a line may name.

/// The numbers of exams, periods and rooms.
#[derive(Clone, Copy)]
pub(crate) struct Counts {
    pub exams: u32,
    pub periods: u32,
    pub rooms: u32,
}
