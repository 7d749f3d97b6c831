// Whether a record is well formed (document 01, "Answer numbers"). `&` and `|` take both sides, so that no test is a branch.
ghost use Rattle.std.specs.Prelude.{◌≡◌, ◌<◌, ◌≤◌};
ghost use Rattle.record.specs.Formed.{every, implies, standing, words_stored, entry_formed, endpoint_formed, held_style, may_lack, held_formed, holds, special, specials_stand, event_rests, last_names, well_formed};
ghost use Rattle.endpoints.specs.Table.{entry_at};

use crate::room::has_room;
use crate::{Counts, Decoder, NO_ITEM};
use details::{Device, EVENT_EP_NUM, FRAMING_EP_NUM, INVALID_EP_NUM};
use endpoints::entry::load;
use endpoints::phases::count_waiting;
use endpoints::{Endpoint, Phase, Table, word};
use rules::Slot;
use transaction::{Style, Transaction};
use usb::pid::{IN, OUT};

// Whether the last group is early, active or ended.
fn stands(phase: Phase) -> bool
    ensures { result ≡ standing phase }
{
    !matches!(phase, Phase::None)
}

// What an endpoint's entry holds fits the counts.
fn entry_formed(counts: Counts, e: Endpoint) -> bool
    ensures { result ≡ entry_formed counts e }
{
    let links = counts.links as u64;
    let devices = counts.devices as u64;
    let bytes = counts.bytes as u64;
    let fit = (e.transactions <= links) & (e.groups <= links);
    let names = (e.device < devices) & (!e.pending | (e.pendinglink < e.transactions));
    let payloads = (e.payload <= bytes) & (!e.pending | (e.pendinglength <= bytes));
    let groups = !stands(e.phase) | (0 < e.groups);
    fit & names & payloads & groups
}

// The words of endpoint i are ones that `store` writes.
fn words_stored(table: &Table, i: usize) -> bool
    requires { i < 128 }
    ensures { result ≡ words_stored table.now i }
{
    let at = i * word::WIDTH;
    (table[at + word::ADDRESS] < 256)
        & (table[at + word::PHASE] <= word::ENDED)
        & (table[at + word::STATE] < 256)
        & (table[at + word::FIRST] < 256)
        & (table[at + word::DONE] < 2)
        & (table[at + word::LAST] < 256)
        & (table[at + word::SUCCESS] < 2)
        & (table[at + word::READY] < 2)
        & (table[at + word::PENDING] < 2)
}

fn endpoint_formed(counts: Counts, table: &Table, i: usize) -> bool
    requires { i < 128 }
    ensures { result ≡ endpoint_formed counts table.now i }
{
    entry_formed(counts, load(table, i)) & words_stored(table, i)
}

fn endpoints_formed(counts: Counts, table: &Table) -> bool
    requires { counts.endpoints ≤ 128 }
    ensures { result ≡ every (endpoint_formed counts table.now) 0 counts.endpoints }
{
    for i in 0..counts.endpoints {
        if !endpoint_formed(counts, table, i) {
            return false;
        }
    }
    true
}

// A transaction lacks an endpoint exactly if it is a split without its token.
fn style_formed(style: Style, endpoint: usize) -> bool
    ensures { result ≡ held_style style endpoint }
{
    match style {
        Style::Nothing => false,
        Style::Split(..) => endpoint == 0,
        Style::Simple(_) | Style::Token(..) => 0 < endpoint,
    }
}

// Whether a transaction may lack its T link, by its endpoint's group.
fn may_lack(phase: Phase, first: u8) -> bool
    ensures { result ≡ may_lack phase first }
{
    match phase {
        Phase::None | Phase::Ended => true,
        Phase::Early => false,
        Phase::Active => (first == IN) | (first == OUT),
    }
}

// What a transaction holds fits the counts and the entry of its endpoint.
fn transaction_formed(counts: Counts, t: Transaction, e: Endpoint) -> bool
    ensures { result ≡ held_formed counts t e }
{
    let x = t.endpoint;
    let rows = (x < counts.endpoints) & (t.id < counts.transactions as u64);
    let names = rows & (!t.linked | ((0 < x) & (t.link < e.transactions)));
    let payload = !t.filled | (t.payload <= counts.bytes as u64);
    let linked = (x == 0) | t.linked | may_lack(e.phase, e.first);
    names & payload & style_formed(t.style, x) & linked
}

fn held_formed(counts: Counts, t: Transaction, table: &Table) -> bool
    requires { counts.endpoints ≤ 128 }
    ensures { result ≡ held_formed counts t (entry_at table.now t.endpoint) }
{
    t.endpoint < counts.endpoints && transaction_formed(counts, t, load(table, t.endpoint))
}

fn slot_formed(slot: Slot, counts: Counts, t: Transaction, table: &Table) -> bool
    requires { counts.endpoints ≤ 128 }
    ensures { result ≡ implies (holds slot) (held_formed counts t (entry_at table.now t.endpoint)) }
{
    match slot {
        Slot::Empty => true,
        Slot::Current | Slot::Suspended => held_formed(counts, t, table),
    }
}

fn is_special(e: Endpoint, number: u8) -> bool
    ensures { result ≡ special e number }
{
    (e.device == 0) & (e.address == number)
}

// The first device and the three special endpoints stand.
fn specials_stand(counts: Counts, devices: [Device; 64], table: &Table) -> bool
    ensures { result ≡ specials_stand counts devices table.now }
{
    let first = devices[0];
    let event = load(table, 0);
    let invalid = load(table, 1);
    let framing = load(table, 2);
    (0 < counts.devices)
        & (first.address == 0)
        & (3 <= counts.endpoints)
        & is_special(event, EVENT_EP_NUM)
        & is_special(invalid, INVALID_EP_NUM)
        & is_special(framing, FRAMING_EP_NUM)
}

// The event endpoint has no group that is early, active or ended.
fn event_rests(table: &Table) -> bool
    ensures { result ≡ event_rests table.now }
{
    !stands(load(table, 0).phase)
}

fn last_formed(counts: Counts, last: usize) -> bool
    ensures { result ≡ last_names counts last }
{
    (last == NO_ITEM) | ((last < counts.endpoints) & (0 < counts.items))
}

// Whether the record is well formed with its devices and its table, on logs with that room.
pub fn well_formed(d: Decoder, devices: [Device; 64], table: &Table, room: Counts) -> bool
    ensures { result ≡ well_formed d devices table.now room }
{
    let counts = d.counts;
    if has_room(counts, table, room) {
        specials_stand(counts, devices, table)
            & event_rests(table)
            & endpoints_formed(counts, table)
            & slot_formed(d.slot, counts, d.transaction, table)
            & last_formed(counts, d.last)
            & (d.waiting == count_waiting(table, counts.endpoints))
    } else {
        false
    }
}
