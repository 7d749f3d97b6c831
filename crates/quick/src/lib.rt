// Two shapes of packet that are taken without a plan, since their plan has one step: the commonest packets (specs/Begin.antt, specs/Close.antt). Most handshakes are close-only with a light end, which has a way of its own (specs/Light.antt).
#![tactic(auto)]

mod begin;
mod close;
mod light;
mod room;
mod shape;

ghost use Rattle.std.specs.Prelude.{false, ◌≡◌, ◌≤◌, length};
ghost use Rattle.call.specs.State.{state, logs};
ghost use Rattle.packet.specs.Call.{PacketCall};
ghost use Rattle.packet.specs.After.{Placed, changed, requested, shelved};
ghost use Rattle.packet.specs.Lent.{SomeLent, ForLent};

use crate::begin::{begin_fits, begin_only};
use crate::close::{close_of, close_only, end_by};
use crate::light::{light_fits, light_only};
use crate::shape::shape_of;
use call::room_of;
use decide::near::Near;
use endpoints::Table;
use packet::change::no_change;
use packet::inner::{Inner, packet_in};
use record::Decoder;
use record::room::held_of;
use transaction::payload::start_pid;

// As packet_in (packet), with the same contract: a packet of neither shape, or without room, goes there, and so does one whose payload is laid by and one that
// completes a request.
pub fn quick_in(
    d: Decoder,
    near: Near,
    packet: &[u8],
    time: u64,
    table: &mut Table,
    bytes: &mut [u8],
    device_rows: &mut [u64],
    endpoint_rows: &mut [u64],
    packets: &mut [u64],
    events: &[u64],
    transactions: &mut [u64],
    groups: &mut [u64],
    statebytes: &mut [u8],
    states: &mut [u64],
    items: &mut [u64],
    links: &mut [u64],
    requests: &[u64],
) -> Inner
    requires some_lent { SomeLent near packet.now d table.old (logs bytes.old device_rows.old endpoint_rows.old packets.old events.now transactions.old groups.old statebytes.old states.old items.old links.old requests.now) }
    requires finished_value { d.finished ≡ false }
    requires packet_len_bound { length packet.now ≤ 4096 }
    ensures placed { Placed result.change packet.now requests.now }
    ensures for_lent { ForLent near packet.now d table.old (logs bytes.old device_rows.old endpoint_rows.old packets.old events.now transactions.old groups.old statebytes.old states.old items.old links.old requests.now) (λ v h. PacketCall packet.now time (state d v table.old (logs bytes.old device_rows.old endpoint_rows.old packets.old events.now transactions.old groups.old statebytes.old states.old items.old links.old requests.now)) h result.answer (state result.decoder (changed result.change packet.now h v) table.new (logs bytes.new device_rows.new endpoint_rows.new packets.new events.now transactions.new groups.new statebytes.new states.new items.new links.new (requested result.change packet.now h v requests.now))) (shelved result.change packet.now h v)) }
{
    let room = room_of(
        bytes.len(),
        device_rows.len(),
        endpoint_rows.len(),
        packets.len(),
        events.len(),
        transactions.len(),
        groups.len(),
        statebytes.len(),
        states.len(),
        items.len(),
        links.len(),
        requests.len(),
    );
    // What the proof learns here: the old transaction's token is a byte.
    let _token = start_pid(d.transaction.style);
    let none = no_change();
    let rows = held_of(d.counts, table);
    let q = shape_of(d, near, table, packet);
    if q.begins & begin_fits(q.row, q.link, packet.len(), rows, d.counts, room) {
        let decoder = begin_only(
            q.row,
            q.transaction,
            q.link,
            rows,
            d,
            packet,
            time,
            table,
            bytes,
            packets,
            transactions,
            links,
        );
        return Inner {
            answer: 0,
            decoder,
            change: none,
        };
    }
    let end = end_by(q, d, near.old, table);
    if q.closes & light_fits(end, packet.len(), rows, d.counts, room) {
        let decoder = light_only(
            q.transaction,
            end,
            rows,
            d,
            packet,
            time,
            table,
            bytes,
            packets,
            links,
        );
        return Inner {
            answer: 0,
            decoder,
            change: none,
        };
    }
    if let Some(tally) = close_of(q.closes, end, d, rows, packet.len(), room) {
        let decoder = close_only(
            q.transaction,
            end,
            tally,
            rows,
            d,
            packet,
            time,
            table,
            bytes,
            device_rows,
            packets,
            groups,
            statebytes,
            states,
            items,
            links,
        );
        return Inner {
            answer: 0,
            decoder,
            change: none,
        };
    }
    // Copies for the long way, whose result is taken apart likewise: what is handed to a call, or comes from one, lies in memory on every way, and the record
    // of the quick ways with it (docs/SPEED.md).
    let whole = d;
    let seen = near;
    let long = packet;
    let r = packet_in(
        whole,
        seen,
        long,
        time,
        table,
        bytes,
        device_rows,
        endpoint_rows,
        packets,
        events,
        transactions,
        groups,
        statebytes,
        states,
        items,
        links,
        requests,
    );
    let decoder = r.decoder;
    let change = r.change;
    Inner {
        answer: r.answer,
        decoder,
        change,
    }
}
