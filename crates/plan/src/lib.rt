// A call as a few steps, decided from values alone before anything is written: the types. What they mean on a world is in specs/.
#![tactic(auto)]

use details::Detail;
use endpoints::Endpoint;
use group::Effect;
use rules::Slot;
use transaction::Transaction;
use update::Update;

// A transaction begins, is resumed, or goes on (transaction_start; transaction_update, 714 to 724; transaction_append).
#[derive(Clone, Copy)]
pub struct Begin {
    // A transaction row.
    pub row: bool,
    // A device row, of the address `owner`.
    pub device: bool,
    // An endpoint row on device `place`, of the address `number`.
    pub endpoint: bool,
    // The split's type, `kind`, is stored there.
    pub types: bool,
    pub owner: u8,
    pub place: usize,
    pub number: u8,
    pub kind: u8,
    // The transaction then.
    pub transaction: Transaction,
    // What is done to its endpoint.
    pub update: Update,
}

// A transaction ends (group_update).
#[derive(Clone, Copy)]
pub struct End {
    // Its endpoint's entry as group_status leaves it.
    pub entry: Endpoint,
    pub update: Update,
    pub effect: Effect,
}

// The endpoint of a packet (packet_endpoint).
#[derive(Clone, Copy)]
pub struct Place {
    // Its number, and whether it is new.
    pub x: usize,
    pub new: bool,
    // Whether its device is new, and that device.
    pub device: bool,
    pub place: usize,
    // Its address, its details, and its entry when the packet's transaction begins.
    pub number: u8,
    pub detail: Detail,
    pub entry: Endpoint,
}

// The step of a packet's transaction, with the entry and the details of its endpoint then, by which its end is decided.
#[derive(Clone, Copy)]
pub struct Middle {
    pub begin: Begin,
    pub entry: Endpoint,
    pub detail: Detail,
}

// The steps of a packet, in this order.
#[derive(Clone, Copy)]
pub struct Plan {
    // A suspended transaction is resumed.
    pub resumes: bool,
    pub resume: Begin,
    // The old transaction ends, on endpoint `old`, with what the packet brought to it; where not, `end` does nothing.
    pub ends: bool,
    pub old: usize,
    pub brought: Transaction,
    pub end: End,
    // A new one begins, or the old one goes on.
    pub begin: Begin,
    // It ends, too; where not, `close` does nothing.
    pub closes: bool,
    pub close: End,
    // What the slot is then.
    pub slot: Slot,
    // Why the packet is malformed; 0 where it is not.
    pub reason: u8,
}

// The end of the current transaction, on endpoint `old`, where there is one (transaction_end, by an event or by finish).
#[derive(Clone, Copy)]
pub struct Ending {
    pub ends: bool,
    pub old: usize,
    pub end: End,
}
