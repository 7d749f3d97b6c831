// An invariant of the decoder that every call keeps, and its test. Well formed alone (01) is not kept by every call on every record: payloads
// that are each within the packet bytes logged may pass them once they are added up.
#![tactic(auto)]

ghost use Rattle.std.specs.Prelude.{◌+◌, ◌<◌, ◌≤◌, leb, ◌≡◌};
ghost use Rattle.transaction.specs.Table.{pick};
ghost use Rattle.record.specs.Formed.{every, holds};
ghost use Rattle.sound.specs.Fit.{brings};
ghost use Rattle.sound.specs.Sound.{is_paid, sound_in};

use call::is_ill;
use details::Device;
use endpoints::entry::load;
use endpoints::{Endpoint, Table};
use record::{Counts, Decoder};
use rules::Slot;
use transaction::Transaction;

// Whether the slot holds a transaction.
fn is_held(slot: Slot) -> bool
    ensures { result ≡ holds slot }
{
    !matches!(slot, Slot::Empty)
}

// The payload that waits at an endpoint.
fn waiting(e: Endpoint) -> u64
    ensures { result ≡ pick e.pending e.pendinglength 0 }
{
    if e.pending { e.pendinglength } else { 0 }
}

// What the transaction, where it is held, may bring to endpoint i.
fn brought(slot: Slot, t: Transaction, i: usize) -> u64
    ensures { result ≡ brings slot t i }
{
    let x = t.endpoint;
    let mine = (x == 0) | (x == i);
    if is_held(slot) & (t.filled & mine) {
        t.payload
    } else {
        0
    }
}

// Whether three numbers together do not pass `most`. They are taken from it one by one: their sum may be no word.
fn together_within(a: u64, b: u64, c: u64, most: u64) -> bool
    ensures { result ≡ leb (a + b + c) most }
{
    if a > most {
        return false;
    }
    let left = most - a;
    if b > left {
        return false;
    }
    if c > left - b {
        return false;
    }
    true
}

// What an endpoint has in hand, its control payload and one that waits, and what may be brought to it: together they do not pass the packet bytes.
fn endpoint_paid(d: Decoder, table: &Table, i: usize) -> bool
    requires { i < 128 }
    ensures { result ≡ is_paid d table.now i }
{
    let e = load(table, i);
    together_within(
        e.payload,
        waiting(e),
        brought(d.slot, d.transaction, i),
        d.counts.bytes as u64,
    )
}

fn endpoints_paid(d: Decoder, table: &Table) -> bool
    requires { d.counts.endpoints ≤ 128 }
    ensures { result ≡ every (is_paid d table.now) 0 d.counts.endpoints }
{
    for i in 0..d.counts.endpoints {
        if !endpoint_paid(d, table, i) {
            return false;
        }
    }
    true
}

// Whether the record is sound with its devices and its table, on logs with that room.
pub fn is_sound(d: Decoder, devices: [Device; 64], table: &Table, room: Counts) -> bool
    ensures { result ≡ sound_in d devices table.now room }
{
    if is_ill(d, devices, table, room) {
        false
    } else {
        endpoints_paid(d, table)
    }
}
