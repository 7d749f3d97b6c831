// The groups of IN and OUT transactions, and of SOFs.
ghost use Rattle.std.specs.Prelude.{◌≡◌, true, false};
ghost use Rattle.group.specs.Step.{grouped};
ghost use Rattle.group.specs.Data.{begin_status, repeat_status, begin_group, repeat_group, other_group, with_success};

use crate::step::{Step, closes, effect_of};
use crate::{Effect, GroupStatus, Grouped};
use details::kind::FRAMING;
use endpoints::Endpoint;
use usb::pid::{IN, OUT, PING, SOF};

// A new transfer or polling group, which a short packet ends at once.
fn begin_status(closes: bool, success: bool) -> GroupStatus
    ensures { result ≡ begin_status closes success }
{
    if success && closes {
        GroupStatus::Single
    } else {
        GroupStatus::New
    }
}

// A transaction like the one before: before says whether that one went well.
fn repeat_status(closes: bool, success: bool, before: bool) -> GroupStatus
    ensures { result ≡ repeat_status closes success before }
{
    if success {
        if before {
            if closes {
                GroupStatus::Done
            } else {
                GroupStatus::Continue
            }
        } else {
            begin_status(closes, true)
        }
    } else {
        if before {
            GroupStatus::New
        } else {
            GroupStatus::Retry
        }
    }
}

fn with_success(e: Endpoint, success: bool) -> Endpoint
    ensures { result ≡ with_success e success }
{
    Endpoint { success, ..e }
}

// IN or OUT with no group active.
fn begin_group(e: Endpoint, s: Step) -> Grouped
    ensures { result ≡ begin_group e s }
{
    let effect = effect_of(s, true);
    let ends = closes(s);
    if s.complete {
        Grouped {
            status: begin_status(ends, s.success),
            effect,
            endpoint: with_success(e, s.success),
        }
    } else {
        Grouped {
            status: GroupStatus::New,
            effect,
            endpoint: e,
        }
    }
}

// IN or OUT in a group of its own kind.
fn repeat_group(e: Endpoint, s: Step) -> Grouped
    ensures { result ≡ repeat_group e s }
{
    let effect = effect_of(s, s.complete);
    let ends = closes(s);
    if s.complete {
        Grouped {
            status: repeat_status(ends, s.success, e.success),
            effect,
            endpoint: with_success(e, s.success),
        }
    } else {
        Grouped {
            status: GroupStatus::Retry,
            effect,
            endpoint: e,
        }
    }
}

// A status with no effect.
pub fn plain(status: GroupStatus, e: Endpoint) -> Grouped
    ensures { result ≡ grouped status Effect.NoEffect e }
{
    Grouped {
        status,
        effect: Effect::NoEffect,
        endpoint: e,
    }
}

// Where no group is active.
fn idle_group(e: Endpoint, s: Step) -> Grouped
    ensures { result ≡ other_group false e s }
{
    let next = s.next;
    let kind = s.kind;
    match next {
        IN | OUT => begin_group(e, s),
        SOF => match kind {
            FRAMING => plain(GroupStatus::New, e),
            _ => plain(GroupStatus::Invalid, e),
        },
        _ => plain(GroupStatus::Invalid, e),
    }
}

// Where a group is active, of which first is the token.
fn active_group(e: Endpoint, s: Step) -> Grouped
    ensures { result ≡ other_group true e s }
{
    let first = e.first;
    let next = s.next;
    let kind = s.kind;
    match next {
        IN => match first {
            IN => repeat_group(e, s),
            _ => plain(GroupStatus::Invalid, e),
        },
        OUT => match first {
            OUT => repeat_group(e, s),
            _ => plain(GroupStatus::Invalid, e),
        },
        PING => match first {
            OUT => plain(GroupStatus::Retry, e),
            _ => plain(GroupStatus::Invalid, e),
        },
        SOF => match kind {
            FRAMING => plain(GroupStatus::Continue, e),
            _ => plain(GroupStatus::Invalid, e),
        },
        _ => plain(GroupStatus::Invalid, e),
    }
}

// Any transaction that belongs to no control transfer.
pub fn other_group(active: bool, e: Endpoint, s: Step) -> Grouped
    ensures { result ≡ other_group active e s }
{
    if active {
        active_group(e, s)
    } else {
        idle_group(e, s)
    }
}
