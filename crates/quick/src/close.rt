// What a close-only packet comes to, and what it writes: its own rows, and the end of the transaction that is held.
ghost use Rattle.std.specs.Prelude.{true, [], ◌≡◌, ◌+◌, ◌*◌, ◌^◌, ◌≤◌, length};
ghost use Rattle.rows.specs.Widths.{packet_width};
ghost use Rattle.transaction.specs.Payload.{start_pid};
ghost use Rattle.tally.specs.Tallies.{Countable, Sums};
ghost use Rattle.decide.specs.Ready.{Ready};
ghost use Rattle.write_packet.specs.Asked.{EndsIf};
ghost use Rattle.write_packet.specs.Desk.{desk};
ghost use Rattle.quick.specs.Close.{end_by, close_tally, close_of, holding, close_hand, closed_decoder, OnClose};

use crate::shape::Shape;
use call::tie;
use decide::end::{end_of, resting_end};
use decide::slot::old_endpoint;
use details::Detail;
use endpoints::Table;
use endpoints::entry::load;
use packet::change::adds_device;
use packet::inner::{hand_of, put_packet};
use plan::End;
use record::{Counts, Decoder};
use rules::{EventState, Slot};
use shelving::is_request;
use tally::add::{Tally, tally_none};
use tally::{add_counts, has_room_for, tally_end};
use transaction::Transaction;
use transaction::payload::start_pid;
use update::effect::total_passes;
use usb::reason::NONE;
use write_packet::{Hand, end_if};

// The end of the transaction that is held, where the packet is of that shape; old is what is known of its endpoint.
pub fn end_by(q: Shape, d: Decoder, old: Detail, table: &Table) -> End
    requires { Ready d table.now }
    ensures { result ≡ end_by q d old table.now }
{
    let x = old_endpoint(d.slot, d.transaction);
    let e = load(table, x);
    if q.closes {
        end_of(x, e, q.transaction, old, d.last, q.success, true)
    } else {
        resting_end(e)
    }
}

// The rows of a packet of so many bytes with this end.
fn close_tally(end: End, len: usize, d: Decoder) -> Tally
    requires len_bound { len ≤ 4096 }
    requires waiting_bound { d.waiting ≤ 128 }
    requires endpoints_bound { d.counts.endpoints ≤ 128 }
    ensures { result ≡ close_tally end len d }
{
    let mut t = tally_none(d.waiting);
    t.add_packet(len);
    tally_end(end, d.counts.endpoints, t)
}

// The rows that the packet adds, where it is taken: it ends the transaction, there is room, no byte total passes 2^64 - 1, no device is added, and no request
// completes. Reckoned before anything is written; the logs hold the rows `held`.
pub fn close_of(
    closes: bool,
    end: End,
    d: Decoder,
    held: Counts,
    len: usize,
    room: Counts,
) -> Option<Tally>
    requires len_bound { len ≤ 4096 }
    requires waiting_bound { d.waiting ≤ 128 }
    requires endpoints_bound { d.counts.endpoints ≤ 128 }
    requires countable { Countable held d.counts }
    ensures { result ≡ close_of closes end d held len room }
{
    let tally = close_tally(end, len, d);
    let over = total_passes(end.effect, end.entry.total);
    let adds = adds_device(end.effect);
    let asks = is_request(end.effect);
    let fits = has_room_for(held, d.counts, tally, room);
    if closes & (fits & (!over & (!adds & !asks))) {
        Some(tally)
    } else {
        None
    }
}

// The record with another transaction.
fn holding(t: Transaction, d: Decoder) -> Decoder
    ensures { result ≡ holding t d }
{
    Decoder {
        transaction: t,
        ..d
    }
}

fn closed_decoder(t: Transaction, tally: Tally, d: Decoder, h: Hand) -> Decoder
    requires { Sums d.counts tally }
    ensures { result ≡ closed_decoder t tally h.written d }
{
    let written = h.written;
    Decoder {
        counts: add_counts(d.counts, tally),
        slot: Slot::Empty,
        transaction: tie(t, written),
        last: written.last,
        event: EventState::Idle,
        waiting: tally.waiting,
        time: written.stamp.time,
        ..d
    }
}

// The packet of these bytes at this time, behind the rows held; t is the transaction that ends.
pub fn close_only(
    t: Transaction,
    end: End,
    tally: Tally,
    held: Counts,
    d: Decoder,
    packet: &[u8],
    time: u64,
    table: &mut Table,
    bytes: &mut [u8],
    device_rows: &mut [u64],
    packets: &mut [u64],
    groups: &mut [u64],
    statebytes: &mut [u8],
    states: &mut [u64],
    items: &mut [u64],
    links: &mut [u64],
) -> Decoder
    requires sums { Sums d.counts tally }
    requires packet_in_bounds { held.bytes + length packet.now ≤ length bytes.old }
    requires packet_width_in_bounds { (held.packets + 1) * packet_width ≤ length packets.old }
    requires ends_if { EndsIf true t.endpoint t.id (start_pid t.style) end (desk (close_hand t time d held table.old) table.old device_rows.old [] [] groups.old statebytes.old states.old items.old links.old) }
    ensures { OnClose t end tally held packet.now time d table.old bytes.old device_rows.old packets.old groups.old statebytes.old states.old items.old links.old result table.new bytes.new device_rows.new packets.new groups.new statebytes.new states.new items.new links.new }
{
    put_packet(d.counts.bytes, held, packet, time, bytes, packets);
    let pid = start_pid(t.style);
    let hand = hand_of(holding(t, d), held, time, NONE, table);
    let hand = end_if(
        true,
        t.endpoint,
        t.id,
        pid,
        end,
        hand,
        table,
        device_rows,
        groups,
        statebytes,
        states,
        items,
        links,
    );
    closed_decoder(t, tally, d, hand)
}
