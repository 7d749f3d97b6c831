// What the end of a transaction means for the groups of its endpoint (document 000, group_status).
#![tactic(auto)]

mod control;
mod data;
mod setup;
pub mod step;

ghost use Rattle.std.specs.Prelude.{◌≡◌};
ghost use Rattle.group.specs.Group.{group_at, group_status};

use crate::step::Step;
use details::Detail;
use endpoints::Endpoint;
use transaction::Transaction;
use usb::pid::SETUP;
use usb::types::CONTROL;

// GroupStatus of the Rust.
#[derive(Clone, Copy)]
pub enum GroupStatus {
    Single,
    New,
    Continue,
    Retry,
    Done,
    Invalid,
}

// TransactionSideEffect of the Rust.
#[derive(Clone, Copy)]
pub enum Effect {
    NoEffect,
    // A device at this address.
    NewDevice(u8),
    // A request with a payload of this length, where the Rust calls decode_request.
    Request(u64),
    // A payload of this length waits.
    PendingData(u64),
    // A payload of this length is counted; where it had waited, under this T row.
    IndexData(u64, bool, u64),
}

#[derive(Clone, Copy)]
pub struct Grouped {
    pub status: GroupStatus,
    pub effect: Effect,
    // The endpoint after it; the effect and the status are for the caller to act on.
    pub endpoint: Endpoint,
}

// By the endpoint with no payload that waits; active says whether it has an active group.
fn group_at(active: bool, e: Endpoint, t: Transaction, s: Step) -> Grouped
    ensures { result ≡ group_at active e t s }
{
    if s.kind == CONTROL && s.next == SETUP {
        control::setup_group(e, t, s)
    } else if s.kind == CONTROL && active && e.done {
        control::control_group(e, s)
    } else {
        data::other_group(active, e, s)
    }
}

// The status of the group that a transaction t on the endpoint e ends in, its effect, and the endpoint after it.
pub fn group_status(
    e: Endpoint,
    t: Transaction,
    detail: Detail,
    success: bool,
    complete: bool,
) -> Grouped
    ensures { result ≡ group_status e t detail success complete }
{
    let s = step::step_of(e, t, detail, success, complete);
    let active = step::is_active(e.phase);
    let taken = step::take_pending(e);
    group_at(active, taken, t, s)
}
