// The endpoint table: an entry for each endpoint, the search for one, and the loops over all of them.
#![tactic(auto)]

pub mod entry;
pub mod find;
pub mod link;
pub mod phases;
pub mod states;
pub mod word;

// The endpoint table, as it is lent.
pub type Table = [u64; word::TABLE];

// Where the last group of an endpoint stands. The groups before it are closed. The variants stand in the order of the phase words (word.rt).
#[derive(Clone, Copy, Default, PartialEq, Eq)]
pub enum Phase {
    // There is none, or an item has closed it.
    #[default]
    None,
    // Started by a packet whose transaction has not yet ended (early_start).
    Early,
    // Transactions are added to it (active).
    Active,
    // Over, and waiting for the item that closes it (ended).
    Ended,
}

// An endpoint (EndpointData of the Rust): what a call needs to know of it. No byte or flag stands alone before a word (docs/DECISIONS.md, 102).
#[derive(Clone, Copy, Default)]
pub struct Endpoint {
    // The row of its device, and its number, with 128 more where its direction is In.
    pub device: u64,
    pub address: u8,
    // Its last group, and its state in the last state row.
    pub phase: Phase,
    pub state: u8,
    // How many T and G rows it has.
    pub transactions: u64,
    pub groups: u64,
    // total_data: the payload bytes counted.
    pub total: u64,
    // The active group: the token that it began with and, where done, the last one that went well.
    pub first: u8,
    pub done: bool,
    pub last: u8,
    // last_success: whether the last complete IN or OUT went well.
    pub success: bool,
    // The setup bytes, first byte lowest, where ready.
    pub ready: bool,
    // pending_payload: where it waits, the length of the payload and the T row of its transaction, below.
    pub pending: bool,
    pub setup: u64,
    // The length of the control payload so far.
    pub payload: u64,
    pub pendinglength: u64,
    pub pendinglink: u64,
}
