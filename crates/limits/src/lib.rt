// How many words a sheet, its rows and its results have, and how long a sheet's file may be: the limits of 01 and 02, each under one name for all crates. Those that
// follow from others are worked out from them. specs/SheetSize.antt has the same for the definitions.
#![tactic(auto)]

// The least and the most facts that a sheet has.
pub const FACTS_LEAST: usize = 4;

pub const FACTS_MOST: usize = 7;

// The most pool rows, and the words of one.
pub const ROWS_MOST: usize = 1000;

pub const ROW_SIZE: usize = 4;

// The pool rows of a block, and the most blocks of a pool.
pub const BLOCK_SIZE: usize = 50;

pub const BLOCKS_MOST: usize = 20;

// The most tranches, and the words of a tranche's row.
pub const TRANCHES_MOST: usize = 32;

pub const TRANCHE_SIZE: usize = 7;

// The rows of the IRB section, and the words of one.
pub const IRB_ROWS: usize = 1;

pub const IRB_SIZE: usize = 6;

// The words of a tranche's line in the results.
pub const LINE_SIZE: usize = 7;

// The most words that a sheet has: four counts, facts, pool rows, tranches and the IRB section.
pub const WORD_LIMIT: usize = 4
    + FACTS_MOST
    + ROW_SIZE * ROWS_MOST
    + TRANCHE_SIZE * TRANCHES_MOST
    + IRB_SIZE * IRB_ROWS;

// The most bytes that a sheet's file has, eight for each word.
pub const BYTE_LIMIT: usize = 8 * WORD_LIMIT;

// Result words that hold the lines of every sheet.
pub const RESULT_ROOM: usize = LINE_SIZE * TRANCHES_MOST;
