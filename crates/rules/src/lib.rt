// The grouping as rules on a world (specs/): only the types that the crates above share.
#![tactic(auto)]

// The one transaction that a decoder may hold: transaction_state or suspended_transaction of the Rust, never both.
#[derive(Clone, Copy)]
pub enum Slot {
    Empty,
    Current,
    // An LS keepalive suspended it.
    Suspended,
}

// EventState of the Rust.
#[derive(Clone, Copy)]
pub enum EventState {
    Idle,
    LsKeepaliveGroup,
    AwaitDeviceChirp,
    PartialDeviceChirp,
    ValidDeviceChirp,
    AwaitHostChirp,
    PartialHostChirp,
    ValidHostChirp,
}

// What the call that is running brings: the number of its packet row, its time, and the reason that the packet is malformed; 0 where it is valid, or an event.
#[derive(Clone, Copy)]
pub struct Stamp {
    pub packet: u64,
    pub time: u64,
    pub reason: u64,
}
