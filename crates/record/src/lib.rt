// The decoder's record: what it holds, when it is well formed, and whether its counts fit the lent logs.
#![tactic(auto)]

pub mod formed;
pub mod fresh;
pub mod room;

use rules::{EventState, Slot};
use transaction::Transaction;

// A number for each log, by the Rust's names: those of the next rows, how many rows the lent logs hold, or how many they have room for. A packet or state byte is a row.
#[derive(Clone, Copy)]
pub struct Counts {
    // packet_data.
    pub bytes: usize,
    // devices.
    pub devices: usize,
    // endpoints.
    pub endpoints: usize,
    // packet_index and packet_times.
    pub packets: usize,
    // event_index and event_codes.
    pub events: usize,
    // transaction_index.
    pub transactions: usize,
    // group_index.
    pub groups: usize,
    // endpoint_states.
    pub statebytes: usize,
    // endpoint_state_index.
    pub states: usize,
    // item_index.
    pub items: usize,
    // Of every endpoint, in one log: transaction_ids (T), group_index (G), data_transactions with data_byte_counts (D), end_index (E).
    pub links: usize,
    // A row where the Rust calls decode_request.
    pub requests: usize,
}

// The last item's endpoint where there is no item.
pub const NO_ITEM: usize = 128;

// Decoder of the Rust. Beside it stand the devices, and the endpoint table with endpoint_data and last_endpoint_state.
#[derive(Clone, Copy)]
pub struct Decoder {
    pub counts: Counts,
    pub transaction: Transaction,
    // last_item_endpoint; NO_ITEM where there is none.
    pub last: usize,
    // How many endpoints have an ended group that no item has closed.
    pub waiting: usize,
    // The time of the last packet row; where there is none it is not read.
    pub time: u64,
    // transaction_state or suspended_transaction, as the slot says; in an empty slot it is not read.
    pub slot: Slot,
    // event_state.
    pub event: EventState,
    // ls_keepalive_item: whether there is one.
    pub keepalive: bool,
    // Whether finish was called.
    pub finished: bool,
    // The mode for high-bandwidth isochronous data, chosen at the fresh decoder; no call changes it.
    pub high: bool,
}
