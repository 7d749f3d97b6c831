// What every call shares: the answer's type, the room of the lent logs, the first tests, and where it begins to write. What a call may leave is in specs/.
#![tactic(auto)]

ghost use Rattle.std.specs.Prelude.{◌≡◌, not, ◌||◌};
ghost use Rattle.rules.specs.World.{stamp};
ghost use Rattle.record.specs.Formed.{well_formed};
ghost use Rattle.record.specs.Room.{long};
ghost use Rattle.call.specs.Share.{first_tests, last_stamp, firsts_of, written_of, tied};
ghost use Rattle.call.specs.State.{room_by};

use details::Device;
use endpoints::Table;
use record::formed::well_formed;
use record::room::{first, too_long};
use record::{Counts, Decoder};
use rows::{number, width};
use rules::Stamp;
use transaction::Transaction;
use write::leaf::last;
use write::{Firsts, Written};

// What a call gives back; the endpoint table and the logs are lent.
#[derive(Clone, Copy)]
pub struct Called {
    // The answer of 01's table.
    pub answer: u8,
    pub decoder: Decoder,
    pub devices: [Device; 64],
}

// How many rows there is room for, by the lengths of the twelve logs in their order.
pub fn room_of(
    bytes: usize,
    devices: usize,
    endpoints: usize,
    packets: usize,
    events: usize,
    transactions: usize,
    groups: usize,
    statebytes: usize,
    states: usize,
    items: usize,
    links: usize,
    requests: usize,
) -> Counts
    ensures { result ≡ room_by bytes devices endpoints packets events transactions groups statebytes states items links requests }
{
    Counts {
        bytes,
        devices,
        endpoints: endpoints / width::ENDPOINT,
        packets: packets / width::PACKET,
        events: events / width::EVENT,
        transactions: transactions / width::TRANSACTION,
        groups: groups / width::GROUP,
        statebytes,
        states,
        items,
        links: links / width::LINK,
        requests: requests / width::REQUEST,
    }
}

// Answer 1: a lent log is too long, or the record is not well formed on logs with that room.
pub fn is_ill(d: Decoder, devices: [Device; 64], table: &Table, room: Counts) -> bool
    ensures { result ≡ (long room || not (well_formed d devices table.now room)) }
{
    too_long(room) | !well_formed(d, devices, table, room)
}

// Answers 1 and 2, then `number` where n passes `most`, and 0 where none of them is given.
pub fn first_tests(
    d: Decoder,
    devices: [Device; 64],
    table: &Table,
    room: Counts,
    n: usize,
    most: usize,
    number: u8,
) -> u8
    ensures { result ≡ first_tests d devices table.now room n most number }
{
    if is_ill(d, devices, table, room) {
        return 1;
    }
    if d.finished {
        return 2;
    }
    if most < n {
        return number;
    }
    0
}

// What a call with a packet row brings: that row is the next one.
pub fn stamp_of(n: Counts, time: u64, reason: u8) -> Stamp
    ensures { result ≡ stamp n.packets time reason }
{
    Stamp {
        packet: n.packets as u64,
        time,
        reason: reason as u64,
    }
}

// What finish brings: the last packet row, or zeros where there is none.
pub fn last_stamp(d: Decoder) -> Stamp
    ensures { result ≡ last_stamp d }
{
    let n = d.counts;
    let packets = n.packets as u64;
    if packets == 0 {
        return Stamp {
            packet: 0,
            time: 0,
            reason: 0,
        };
    }
    Stamp {
        packet: last(packets),
        time: d.time,
        reason: 0,
    }
}

// The first numbers of the logs whose rows other rows name.
fn firsts_of(table: &Table) -> Firsts
    ensures { result ≡ firsts_of table.now }
{
    Firsts {
        groups: first(table, number::GROUPS) as u64,
        statebytes: first(table, number::STATEBYTES) as u64,
        items: first(table, number::ITEMS) as u64,
    }
}

// Where a call begins to write, and what it brings: n rows are held.
pub fn written_of(stamp: Stamp, n: Counts, d: Decoder, table: &Table) -> Written
    ensures { result ≡ written_of stamp n d table.now }
{
    let t = d.transaction;
    let firsts = firsts_of(table);
    Written {
        stamp,
        firsts,
        groups: n.groups,
        statebytes: n.statebytes,
        states: n.states,
        items: n.items,
        links: n.links,
        last: d.last,
        linked: t.linked,
        link: t.link,
    }
}

// The transaction with the T row that it has by now.
pub fn tie(t: Transaction, d: Written) -> Transaction
    ensures { result ≡ tied t d }
{
    let mut t = t;
    t.linked = d.linked;
    t.link = d.link;
    t
}
