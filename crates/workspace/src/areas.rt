// The areas of the work buffer, one behind the other: records, steps and letters of the lines, and the ring of waiting entries.

use layout::{STEP_WIDTH, TABLE_WIDTH};

// The bytes of a work buffer.
pub const WORK_ROOM: usize = 65536;

// The most lines, as many as a table has; the most steps of all lines; the most entries that wait.
pub const MOST_LINES: usize = layout::MOST_LINES;

pub const MOST_STEPS: usize = 8192;

pub(crate) const MOST_WAITING: usize = 2048;

// Where the areas behind the records start: a record has 8 bytes, a step 4, and a line's words up to 64.
pub(crate) const STEPS_START: usize = TABLE_WIDTH * MOST_LINES;

pub(crate) const LETTERS_START: usize = STEPS_START + STEP_WIDTH * MOST_STEPS;

pub(crate) const RING_START: usize = LETTERS_START + 64 * MOST_LINES;
