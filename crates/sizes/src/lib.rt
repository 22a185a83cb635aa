// Every count, size and place of the board's block, each by one name: those of specs/Sizes.antt, for the
// code.
#![tactic(auto)]

pub const HART_COUNT: usize = 4;

pub const HART_FILES: usize = 5;

pub const FIRST_GUEST: usize = 2;

pub const FILE_COUNT: usize = HART_COUNT * HART_FILES;

pub const DOMAIN_COUNT: usize = 2;

pub const IDENTITIES: u32 = 255;

pub const SOURCE_COUNT: usize = 63;

pub const SLOT_COUNT: usize = 64;

// a file
pub const FILE_SET_SIZE: usize = 8;

pub const THRESHOLD_PLACE: usize = 1;

pub const PENDING_PLACE: usize = 2;

pub const ENABLE_PLACE: usize = PENDING_PLACE + FILE_SET_SIZE;

pub const FILE_SIZE: usize = ENABLE_PLACE + FILE_SET_SIZE;

pub const FILES_SIZE: usize = FILE_COUNT * FILE_SIZE;

// a domain
pub const SOURCE_SET_SIZE: usize = 2;

pub const STRUCTURE_SIZE: usize = 3;

pub const TARGETS_PLACE: usize = SLOT_COUNT;

pub const PENDINGS_PLACE: usize = TARGETS_PLACE + SLOT_COUNT;

pub const ENABLES_PLACE: usize = PENDINGS_PLACE + SOURCE_SET_SIZE;

pub const STRUCTURES_PLACE: usize = ENABLES_PLACE + SOURCE_SET_SIZE;

pub const DOMAIN_SIZE: usize = STRUCTURES_PLACE + HART_COUNT * STRUCTURE_SIZE;

// the wired controller
pub const MACHINE_PLACE: usize = SOURCE_SET_SIZE;

pub const CHILD_PLACE: usize = MACHINE_PLACE + DOMAIN_SIZE;

pub const WIRED_SIZE: usize = CHILD_PLACE + DOMAIN_SIZE;

// the board, and what is lent beside it
pub const WIRED_PLACE: usize = FILES_SIZE;

pub const WIRED_END: usize = WIRED_PLACE + WIRED_SIZE;

pub const BLOCK_SIZE: usize = WIRED_END;

pub const LOG_SIZE: usize = 63;

pub const SAVED_SIZE: usize = 10;
