// The lengths of the search's tables on a small site, on most others, on a wide one, and on every site.
#![tactic(auto)]

use search_sizes::{
    BLOCK_WORDS, MIDDLE_MOTIONS, MIDDLE_ROWS, MIDDLE_STATES, MOTION_SIZE, MOTIONS, ROW_WORDS, ROWS,
    SMALL_MOTIONS, SMALL_ROWS, SMALL_STATES, STATE_SIZE, STATES, WIDE_MOTIONS, WIDE_ROWS,
    WIDE_STATES, WINDOW_WORDS,
};

// Numbers of the states and of the motions.
pub const SMALL_STATE_NUMBERS: usize = SMALL_STATES * STATE_SIZE;

pub const MIDDLE_STATE_NUMBERS: usize = MIDDLE_STATES * STATE_SIZE;

pub const WIDE_STATE_NUMBERS: usize = WIDE_STATES * STATE_SIZE;

pub const MOST_STATE_NUMBERS: usize = STATES * STATE_SIZE;

pub const SMALL_MOTION_NUMBERS: usize = SMALL_MOTIONS * MOTION_SIZE;

pub const MIDDLE_MOTION_NUMBERS: usize = MIDDLE_MOTIONS * MOTION_SIZE;

pub const WIDE_MOTION_NUMBERS: usize = WIDE_MOTIONS * MOTION_SIZE;

pub const MOST_MOTION_NUMBERS: usize = MOTIONS * MOTION_SIZE;

// Links of the lists of motions.
pub const SMALL_LINKS: usize = SMALL_MOTIONS + SMALL_STATES;

pub const MIDDLE_LINKS: usize = MIDDLE_MOTIONS + MIDDLE_STATES;

pub const WIDE_LINKS: usize = WIDE_MOTIONS + WIDE_STATES;

pub const MOST_LINKS: usize = MOTIONS + STATES;

// Words of the ticks of a block at which motions may end.
pub const SMALL_ALLOWED_WORDS: usize = SMALL_MOTIONS * BLOCK_WORDS;

pub const MIDDLE_ALLOWED_WORDS: usize = MIDDLE_MOTIONS * BLOCK_WORDS;

pub const WIDE_ALLOWED_WORDS: usize = WIDE_MOTIONS * BLOCK_WORDS;

pub const MOST_ALLOWED_WORDS: usize = MOTIONS * BLOCK_WORDS;

// Words of the reached pairs.
pub const SMALL_REACHED_WORDS: usize = SMALL_STATES * ROW_WORDS;

pub const MIDDLE_REACHED_WORDS: usize = MIDDLE_STATES * ROW_WORDS;

pub const WIDE_REACHED_WORDS: usize = WIDE_STATES * ROW_WORDS;

pub const MOST_REACHED_WORDS: usize = STATES * ROW_WORDS;

// Words of the tables of runs: one more than the rows have, which a shift by nothing reads.
pub const SMALL_TABLE_WORDS: usize = SMALL_ROWS * WINDOW_WORDS + 1;

pub const MIDDLE_TABLE_WORDS: usize = MIDDLE_ROWS * WINDOW_WORDS + 1;

pub const WIDE_TABLE_WORDS: usize = WIDE_ROWS * WINDOW_WORDS + 1;

pub const MOST_TABLE_WORDS: usize = ROWS * WINDOW_WORDS + 1;
