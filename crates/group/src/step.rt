// What the rules of a group go by: the locals of the Rust's group_status.
ghost use Rattle.std.specs.Prelude.{◌≡◌};
ghost use Rattle.group.specs.Step.{is_active, split_sc, payload_of, is_short, step_of, closes_of, waits_of, data_effect, effect_of, taken};

use crate::Effect;
use details::Detail;
use endpoints::{Endpoint, Phase};
use transaction::payload::start_pid;
use transaction::{Style, Transaction};
use usb::pid::OUT;
use usb::types::{ISOCHRONOUS, START};

// A payload: of len bytes, where known; where it had waited, of the T row id.
#[derive(Clone, Copy)]
pub struct Payload {
    pub known: bool,
    pub len: u64,
    pub waited: bool,
    pub id: u64,
}

#[derive(Clone, Copy)]
pub struct Step {
    // ep_type.
    pub kind: u8,
    // split_sc: SC, and 2 where the transaction is no split.
    pub sc: u8,
    // next: the token.
    pub next: u8,
    // payload, length and id, as in Payload.
    pub known: bool,
    pub len: u64,
    pub waited: bool,
    pub id: u64,
    pub short: bool,
    pub success: bool,
    pub complete: bool,
}

pub fn is_active(phase: Phase) -> bool
    ensures { result ≡ is_active phase }
{
    matches!(phase, Phase::Active)
}

fn split_sc(style: Style) -> u8
    ensures { result ≡ split_sc style }
{
    match style {
        Style::Nothing | Style::Simple(_) => 2,
        Style::Split(sc, _) | Style::Token(sc, _, _) => sc,
    }
}

// The transaction's own payload, or else the one that waits on the endpoint.
fn payload_of(e: Endpoint, t: Transaction) -> Payload
    ensures { result ≡ payload_of e t }
{
    if t.filled {
        Payload {
            known: true,
            len: t.payload,
            waited: false,
            id: 0,
        }
    } else if e.pending {
        Payload {
            known: true,
            len: e.pendinglength,
            waited: true,
            id: e.pendinglink,
        }
    } else {
        Payload {
            known: false,
            len: 0,
            waited: false,
            id: 0,
        }
    }
}

// Short: payload known, max known (not 0), length below max.
fn is_short(known: bool, len: u64, max: u16) -> bool
    ensures { result ≡ is_short known len max }
{
    known && max != 0 && len < max as u64
}

pub fn step_of(e: Endpoint, t: Transaction, detail: Detail, success: bool, complete: bool) -> Step
    ensures { result ≡ step_of e t detail success complete }
{
    let p = payload_of(e, t);
    let short = is_short(p.known, p.len, detail.max);
    Step {
        kind: detail.kind,
        sc: split_sc(t.style),
        next: start_pid(t.style),
        known: p.known,
        len: p.len,
        waited: p.waited,
        id: p.id,
        short,
        success,
        complete,
    }
}

// The endpoint with no payload that waits.
pub fn take_pending(e: Endpoint) -> Endpoint
    ensures { result ≡ taken e }
{
    Endpoint {
        pending: false,
        ..e
    }
}

// A short packet closes a group, but on an isochronous endpoint.
pub fn closes(s: Step) -> bool
    ensures { result ≡ closes_of s }
{
    s.short && s.kind != ISOCHRONOUS
}

// A start-split OUT's payload waits for the complete split.
fn payload_waits(s: Step) -> bool
    ensures { result ≡ waits_of s }
{
    s.sc == START && s.next == OUT
}

// What a payload comes to: it waits or, where it counts, it is counted.
pub fn data_effect(s: Step, counts: bool) -> Effect
    ensures { result ≡ data_effect s counts }
{
    let waits = payload_waits(s);
    if s.known {
        if waits {
            Effect::PendingData(s.len)
        } else if counts {
            Effect::IndexData(s.len, s.waited, s.id)
        } else {
            Effect::NoEffect
        }
    } else {
        Effect::NoEffect
    }
}

// The same where the transaction went well, and nothing where it did not.
pub fn effect_of(s: Step, counts: bool) -> Effect
    ensures { result ≡ effect_of s counts }
{
    if s.success {
        data_effect(s, counts)
    } else {
        Effect::NoEffect
    }
}
