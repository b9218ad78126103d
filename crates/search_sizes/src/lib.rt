// The sizes of the search's tables, by what they count: those of a site file give all others.
#![tactic(auto)]

// Words of 64 ticks in a block, its ticks, and the blocks from tick 0 on that have every tick.
pub const BLOCK_WORDS: usize = 4;

pub const BLOCK_TICKS: usize = BLOCK_WORDS * 64;

pub const BLOCKS: usize = 4;

// Words of a block and the one before it: a shift by at most 255 ticks reads no others.
pub const WINDOW_WORDS: usize = BLOCK_WORDS * 2;

// Words of a state's reached ticks: a block that stays empty, and all blocks.
pub const ROW_WORDS: usize = BLOCK_WORDS * (BLOCKS + 1);

// Ticks of all blocks.
pub const TICKS: usize = BLOCK_TICKS * BLOCKS;

// Numbers of a state and of a motion.
pub const STATE_SIZE: usize = 2;

pub const MOTION_SIZE: usize = 5;

// Tables of runs, by their length.
pub const RUN_TABLES: usize = 9;

// States, motions and rows of the tables of runs that a search has room for: on a small site, on most others, on a wide one, and on every
// site. A search clears its tables, and a site is not to pay for much larger ones than its own.
pub const SMALL_STATES: usize = 32;

pub const SMALL_MOTIONS: usize = 64;

pub const SMALL_ROWS: usize = 64;

pub const MIDDLE_STATES: usize = 256;

pub const MIDDLE_MOTIONS: usize = 1024;

pub const MIDDLE_ROWS: usize = 1024;

pub const WIDE_STATES: usize = 512;

pub const WIDE_MOTIONS: usize = 2048;

pub const WIDE_ROWS: usize = 4096;

pub const STATES: usize = site_layout::STATE_LIMIT;

pub const MOTIONS: usize = site_layout::MOTION_LIMIT;

pub const ROWS: usize = RUN_TABLES * site_layout::CELL_LIMIT;
