// Where the parts of the heading stand, as specs/Parts.antt has them.
pub const LEVELS_AT: usize = 4;

pub const ORDER_AT: usize = 12;

pub const SPARSE_AT: usize = 20;

pub const DIAGONAL_AT: usize = 21;

pub const PROGRESS_AT: usize = 22;

pub const STEPS_LEFT_AT: usize = 23;

pub const STAGES_AT: usize = 24;

pub const MOST_TARGETS: usize = 45;

pub const UNUSED_AT: usize = 69;

pub const UNUSED_NUMBERS: usize = 59;

pub const HEADING_LENGTH: usize = 128;
