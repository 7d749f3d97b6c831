// The endpoint table's words: a row has one for each field of Endpoint, in the order of the fields.
pub const DEVICE: usize = 0;

pub const ADDRESS: usize = 1;

pub const PHASE: usize = 2;

pub const STATE: usize = 3;

pub const TRANSACTIONS: usize = 4;

pub const GROUPS: usize = 5;

pub const TOTAL: usize = 6;

pub const FIRST: usize = 7;

pub const DONE: usize = 8;

pub const LAST: usize = 9;

pub const SUCCESS: usize = 10;

pub const READY: usize = 11;

pub const SETUP: usize = 12;

pub const PAYLOAD: usize = 13;

pub const PENDING: usize = 14;

pub const PENDINGLENGTH: usize = 15;

pub const PENDINGLINK: usize = 16;

// How many words a row has.
pub const WIDTH: usize = 17;

// Behind the 128 rows: the first number of each log, log k's at FIRSTS + k.
pub const FIRSTS: usize = 2176;

// The whole table: the rows, 16 first numbers and, for those of its T, G, D and E rows, four words for each endpoint.
pub const TABLE: usize = 2704;

// The phase word: any other number is read as NONE.
pub const NONE: u64 = 0;

pub const EARLY: u64 = 1;

pub const ACTIVE: u64 = 2;

pub const ENDED: u64 = 3;

// The state word (EndpointState of the Rust): any other number counts as IDLE.
pub const IDLE: u8 = 0;

pub const STARTING: u8 = 1;

pub const ONGOING: u8 = 2;

pub const ENDING: u8 = 3;
