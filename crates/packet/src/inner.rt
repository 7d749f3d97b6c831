// The packet call on a record and logs that are known to be right: it requires what the public call tests.
ghost use Rattle.std.specs.Prelude.{false, [], ◌∷◌, ◌≡◌, ◌+◌, ◌*◌, ◌≤◌, length};
ghost use Rattle.std.proofs.lemmas.List.Edits.{sets};
ghost use Rattle.rows.specs.Widths.{packet_width};
ghost use Rattle.rules.specs.Transactions.{is_dropped};
ghost use Rattle.call.specs.State.{state, logs};
ghost use Rattle.packet.specs.Call.{PacketCall};
ghost use Rattle.tally.specs.Tallies.{Countable};
ghost use Rattle.packet.specs.After.{hand_of, dropped_decoder, decoder_by, changed, shelved, requested, Placed};
ghost use Rattle.packet.specs.Dropped.{Drops, refused};
ghost use Rattle.packet.specs.Lent.{SomeLent, ForLent};

use crate::change::{Change, change_of, no_change};
use crate::sum::{Refusal, Sum, sum_dropped, sum_plan};
use call::{room_of, stamp_of, tie, written_of};
use decide::near::Near;
use decide::plan_near;
use endpoints::Table;
use plan::Plan;
use record::room::held_of;
use record::{Counts, Decoder};
use rows::width;
use rules::{EventState, Slot};
use transaction::Transaction;
use transaction::payload::start_pid;
use write_packet::{Hand, perform};

// What the call leaves; the devices, the shelf and the log of requests are the caller's, who makes the change.
#[derive(Clone, Copy)]
pub struct Inner {
    pub answer: u8,
    pub decoder: Decoder,
    pub change: Change,
}

// 01, answer 8: the suspended transaction has no endpoint.
fn is_dropped(slot: Slot, t: Transaction) -> bool
    ensures { result ≡ is_dropped slot t }
{
    matches!(slot, Slot::Suspended) && t.endpoint == 0
}

// Where the call begins to write, behind the rows held, and what it brings.
pub fn hand_of(d: Decoder, held: Counts, time: u64, reason: u8, table: &Table) -> Hand
    ensures { result ≡ hand_of time reason d held table.now }
{
    Hand {
        written: written_of(stamp_of(d.counts, time, reason), held, d, table),
        transactions: held.transactions,
        devices: held.devices,
        endpoints: held.endpoints,
    }
}

// The record after a packet that dropped the suspended transaction.
fn dropped_decoder(d: Decoder, time: u64, sum: Sum) -> Decoder
    ensures { result ≡ dropped_decoder d time sum }
{
    Decoder {
        counts: sum.counts,
        slot: Slot::Empty,
        event: EventState::Idle,
        waiting: sum.waiting,
        time,
        ..d
    }
}

// The record after any other that is accepted.
fn decoder_by(d: Decoder, plan: Plan, sum: Sum, h: Hand) -> Decoder
    ensures { result ≡ decoder_by d plan sum h }
{
    let written = h.written;
    Decoder {
        counts: sum.counts,
        slot: plan.slot,
        transaction: tie(plan.begin.transaction, written),
        last: written.last,
        event: EventState::Idle,
        waiting: sum.waiting,
        time: written.stamp.time,
        ..d
    }
}

// The packet's bytes, and its row, which names the first of them; behind the rows held.
pub fn put_packet(
    start: usize,
    held: Counts,
    packet: &[u8],
    time: u64,
    bytes: &mut [u8],
    packets: &mut [u64],
)
    requires packet_in_bounds { held.bytes + length packet.now ≤ length bytes.old }
    requires packet_width_in_bounds { (held.packets + 1) * packet_width ≤ length packets.old }
    ensures bytes_after { bytes.new ≡ sets bytes.old held.bytes packet.now }
    ensures packets_after { packets.new ≡ sets packets.old (held.packets * packet_width) (start ∷ time ∷ []) }
{
    let b = held.bytes;
    let p = held.packets;
    rows::put(bytes, b, packet);
    rows::put(packets, p * width::PACKET, &[start as u64, time]);
}

// A packet that is refused leaves all as it was.
fn refused(refusal: Refusal, d: Decoder, none: Change) -> Inner
    ensures { result ≡ refused refusal d none }
{
    Inner {
        answer: refusal as u8,
        decoder: d,
        change: none,
    }
}

// The packet drops the suspended transaction: its own rows are all that is written.
fn drop_packet(
    d: Decoder,
    held: Counts,
    none: Change,
    packet: &[u8],
    time: u64,
    room: Counts,
    bytes: &mut [u8],
    packets: &mut [u64],
) -> Inner
    requires packet_len_bound { length packet.now ≤ 4096 }
    requires waiting_bound { d.waiting ≤ 128 }
    requires countable { Countable held d.counts }
    requires bytes_in_bounds { room.bytes ≤ length bytes.old }
    requires packet_width_in_bounds { room.packets * packet_width ≤ length packets.old }
    ensures { Drops d held none packet.now time room bytes.old packets.old result bytes.new packets.new }
{
    let sum = match sum_dropped(d, held, packet.len(), room) {
        Ok(sum) => sum,
        Err(refusal) => return refused(refusal, d, none),
    };
    put_packet(d.counts.bytes, held, packet, time, bytes, packets);
    Inner {
        answer: 8,
        decoder: dropped_decoder(d, time, sum),
        change: none,
    }
}

// The packet of these bytes at this time; of the devices it is given what it goes by. The log of requests is not written here: its row has a note of what the
// caller, who has the shelf, takes from it.
pub fn packet_in(
    d: Decoder,
    near: Near,
    packet: &[u8],
    time: u64,
    table: &mut Table,
    bytes: &mut [u8],
    device_rows: &mut [u64],
    endpoint_rows: &mut [u64],
    packets: &mut [u64],
    events: &[u64],
    transactions: &mut [u64],
    groups: &mut [u64],
    statebytes: &mut [u8],
    states: &mut [u64],
    items: &mut [u64],
    links: &mut [u64],
    requests: &[u64],
) -> Inner
    requires some_lent { SomeLent near packet.now d table.old (logs bytes.old device_rows.old endpoint_rows.old packets.old events.now transactions.old groups.old statebytes.old states.old items.old links.old requests.now) }
    requires finished_value { d.finished ≡ false }
    requires packet_len_bound { length packet.now ≤ 4096 }
    ensures placed { Placed result.change packet.now requests.now }
    ensures for_lent { ForLent near packet.now d table.old (logs bytes.old device_rows.old endpoint_rows.old packets.old events.now transactions.old groups.old statebytes.old states.old items.old links.old requests.now) (λ v h. PacketCall packet.now time (state d v table.old (logs bytes.old device_rows.old endpoint_rows.old packets.old events.now transactions.old groups.old statebytes.old states.old items.old links.old requests.now)) h result.answer (state result.decoder (changed result.change packet.now h v) table.new (logs bytes.new device_rows.new endpoint_rows.new packets.new events.now transactions.new groups.new statebytes.new states.new items.new links.new (requested result.change packet.now h v requests.now))) (shelved result.change packet.now h v)) }
{
    let room = room_of(
        bytes.len(),
        device_rows.len(),
        endpoint_rows.len(),
        packets.len(),
        events.len(),
        transactions.len(),
        groups.len(),
        statebytes.len(),
        states.len(),
        items.len(),
        links.len(),
        requests.len(),
    );
    let n = d.counts;
    // What the proof learns here: the old transaction's token is a byte.
    let _token = start_pid(d.transaction.style);
    let none = no_change();
    let rows = held_of(n, table);
    if is_dropped(d.slot, d.transaction) {
        return drop_packet(d, rows, none, packet, time, room, bytes, packets);
    }
    let plan = plan_near(d, near, table, packet);
    let sum = match sum_plan(d, rows, plan, packet.len(), room) {
        Ok(sum) => sum,
        Err(refusal) => return refused(refusal, d, none),
    };
    let change = change_of(d.high, plan, n.devices, rows.requests);
    put_packet(n.bytes, rows, packet, time, bytes, packets);
    let hand = perform(
        plan,
        hand_of(d, rows, time, plan.reason, table),
        table,
        device_rows,
        endpoint_rows,
        transactions,
        groups,
        statebytes,
        states,
        items,
        links,
    );
    Inner {
        answer: 0,
        decoder: decoder_by(d, plan, sum, hand),
        change,
    }
}
