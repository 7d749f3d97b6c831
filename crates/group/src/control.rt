// The groups of a control endpoint: control transfers (USB 2.0, 8.5.3).
ghost use Rattle.std.specs.Prelude.{◌≡◌};
ghost use Rattle.group.specs.Control.{setup_group, stage_of, outcome_of, counted_of, data_stage, status_stage, at_stage, control_group};

use crate::data::plain;
use crate::setup::{address, with_data};
use crate::step::{Step, data_effect};
use crate::{Effect, GroupStatus, Grouped};
use endpoints::Endpoint;
use transaction::Transaction;
use usb::fields::{direction, request, request_type};
use usb::pid::{IN, OUT, PING, SETUP};
use usb::types::COMPLETE;

// b_request of SET_ADDRESS (USB 2.0, table 9-4).
const SET_ADDRESS: u8 = 5;

// Which part of a control transfer a token is.
#[derive(Clone, Copy)]
pub enum Stage {
    Data,
    Status,
    Ping,
    Wrong,
}

// SETUP: the setup bytes are kept, unless it is the end of a split.
pub fn setup_group(e: Endpoint, t: Transaction, s: Step) -> Grouped
    ensures { result ≡ setup_group e t s }
{
    if s.sc == COMPLETE {
        return plain(GroupStatus::Continue, e);
    }
    let mut e = e;
    e.ready = t.ready;
    e.setup = t.setup;
    plain(GroupStatus::New, e)
}

// A request towards the host.
fn in_stage(size: u8, last: u8, next: u8) -> Stage
    ensures { result ≡ stage_of 1 size last next }
{
    match size {
        1 => match last {
            SETUP => match next {
                IN => Stage::Data,
                _ => Stage::Wrong,
            },
            IN => match next {
                IN => Stage::Data,
                OUT => Stage::Status,
                PING => Stage::Ping,
                _ => Stage::Wrong,
            },
            _ => Stage::Wrong,
        },
        0 => match last {
            SETUP => match next {
                OUT => Stage::Status,
                PING => Stage::Ping,
                _ => Stage::Wrong,
            },
            _ => Stage::Wrong,
        },
        _ => Stage::Wrong,
    }
}

// A request towards the device.
fn out_stage(size: u8, last: u8, next: u8) -> Stage
    ensures { result ≡ stage_of 0 size last next }
{
    match size {
        1 => match last {
            SETUP => match next {
                OUT => Stage::Data,
                PING => Stage::Ping,
                _ => Stage::Wrong,
            },
            OUT => match next {
                OUT => Stage::Data,
                IN => Stage::Status,
                PING => Stage::Ping,
                _ => Stage::Wrong,
            },
            _ => Stage::Wrong,
        },
        0 => match last {
            SETUP => match next {
                IN => Stage::Status,
                _ => Stage::Wrong,
            },
            _ => Stage::Wrong,
        },
        _ => Stage::Wrong,
    }
}

fn stage_of(dir: u8, size: u8, last: u8, next: u8) -> Stage
    ensures { result ≡ stage_of dir size last next }
{
    match dir {
        1 => in_stage(size, last, next),
        0 => out_stage(size, last, next),
        _ => Stage::Wrong,
    }
}

// What a request that went well comes to: SET_ADDRESS makes a device.
fn outcome(e: Endpoint) -> Effect
    ensures { result ≡ outcome_of e }
{
    if request_type(e.setup) == 0 && request(e.setup) == SET_ADDRESS {
        Effect::NewDevice(address(e.setup))
    } else {
        Effect::Request(e.payload)
    }
}

// The length that an effect counts.
fn counted(effect: Effect) -> u64
    ensures { result ≡ counted_of effect }
{
    match effect {
        Effect::IndexData(len, _, _) => len,
        _ => 0,
    }
}

fn data_stage(e: Endpoint, s: Step) -> Grouped
    ensures { result ≡ data_stage e s }
{
    if s.success {
        let effect = data_effect(s, true);
        let more = counted(effect);
        let mut e = e;
        e.payload = std::num::wrapping_add_u64(e.payload, more);
        Grouped {
            status: GroupStatus::Continue,
            effect,
            endpoint: e,
        }
    } else {
        plain(GroupStatus::Retry, e)
    }
}

fn status_stage(e: Endpoint, s: Step) -> Grouped
    ensures { result ≡ status_stage e s }
{
    if s.success && s.complete {
        Grouped {
            status: GroupStatus::Done,
            effect: outcome(e),
            endpoint: e,
        }
    } else {
        plain(GroupStatus::Retry, e)
    }
}

fn at_stage(found: Stage, e: Endpoint, s: Step) -> Grouped
    ensures { result ≡ at_stage found e s }
{
    match found {
        Stage::Data => data_stage(e, s),
        Stage::Status => status_stage(e, s),
        Stage::Ping => plain(GroupStatus::Retry, e),
        Stage::Wrong => plain(GroupStatus::Invalid, e),
    }
}

// A transaction after one of the control transfer.
pub fn control_group(e: Endpoint, s: Step) -> Grouped
    ensures { result ≡ control_group e s }
{
    if e.ready {
        let dir = direction(e.setup);
        let size = with_data(e.setup);
        let found = stage_of(dir, size, e.last, s.next);
        at_stage(found, e, s)
    } else {
        plain(GroupStatus::Invalid, e)
    }
}
