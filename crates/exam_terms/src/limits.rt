// The limits of numbers, counts and texts: each once, for code, contracts and definitions.

/// The most digits of a number in a caller's name or in a path.
pub const NUMBER_DIGITS: usize = 9;

/// The greatest number with that many digits: of an exam, a period, a room or a draft in a request,
/// whether it exists or not.
pub const MAX_NUMBER: u32 = 999_999_999;

/// The greatest number of a student; the least is 0.
pub const MAX_STUDENT: u32 = 999_999_999;

/// The greatest number of a department; the least is 1.
pub const MAX_DEPARTMENT: u32 = 999;

/// The most exams of an instance; the least is 1.
pub const MAX_EXAMS: u32 = 2000;

/// The most periods of an instance; the least is 1.
pub const MAX_PERIODS: u32 = 200;

/// The most rooms of an instance; the least is 1.
pub const MAX_ROOMS: u32 = 200;

/// The most rules on periods of an instance, and the most on rooms.
pub const MAX_RULES: u32 = 5000;

/// The most pairs of a student and an exam.
pub const MAX_PAIRS: u32 = 200_000;

/// The longest duration of an exam or a period, in minutes: a day.
pub const MAX_MINUTES: u32 = 1440;

/// The greatest capacity, penalty or weight, and the greatest of the other numbers of a weighting.
pub const MAX_AMOUNT: u32 = 100_000;

/// The greatest number of a draft; the least is 1.
pub const MAX_DRAFTS: u32 = 8;

/// The greatest number of a batch; the least is 0.
pub const MAX_BATCH: u32 = 999_999_999;

/// The most batches that an office keeps.
pub const MAX_BATCHES: u32 = 10_000;

/// The longest text of an instance, in bytes.
pub const INSTANCE_BYTES: usize = 4_194_304;

/// The longest text of any other file and of a request's body, in bytes.
pub const TEXT_BYTES: usize = 1_048_576;
