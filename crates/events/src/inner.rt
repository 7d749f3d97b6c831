// The two calls on a record and logs that are known to be right: they require what the public calls test.
ghost use Rattle.std.specs.Prelude.{false, [], ◌∷◌, ◌≡◌, ◌+◌, ◌*◌, ◌≤◌, length};
ghost use Rattle.std.proofs.lemmas.List.Edits.{sets};
ghost use Rattle.rows.specs.Widths.{event_width, packet_width, transaction_width};
ghost use Rattle.rules.specs.Rows.{naming, transaction_words};
ghost use Rattle.rows.specs.Sets.{opt};
ghost use Rattle.event.specs.Event.{told};
ghost use Rattle.call.specs.Outcome.{is_ill};
ghost use Rattle.call.specs.State.{state, logs};
ghost use Rattle.events.specs.After.{finished_decoder, event_decoder};
ghost use Rattle.events.specs.Call.{EventCall, FinishCall};

use crate::decided::{decide, keepalive_after, slot_after, starts_group};
use crate::ending::{end_here, settle, slot_ended};
use crate::sum::{Sum, sum_finish};
use call::{last_stamp, room_of, stamp_of, tie, written_of};
use decide::plan_ending;
use details::Device;
use endpoints::Table;
use event::{Turn, adds_group, adds_row};
use record::room::held_of;
use record::{Counts, Decoder};
use rows::width;
use rules::Stamp;
use transaction::payload::start_pid;
use usb::reason::NONE;
use write::Written;
use write::leaf::put_transaction;
use write_event::event_rows;

// The answer of 01's table where there is no room.
const NO_ROOM: u8 = 7;

// What a call leaves; the devices are the caller's, and stay.
#[derive(Clone, Copy)]
pub struct Inner {
    pub answer: u8,
    pub decoder: Decoder,
}

// The record after finish.
fn finished_decoder(d: Decoder, sum: Sum, written: Written) -> Decoder
    ensures { result ≡ finished_decoder d sum written }
{
    Decoder {
        counts: sum.counts,
        slot: slot_ended(d.slot),
        transaction: tie(d.transaction, written),
        last: written.last,
        waiting: sum.waiting,
        finished: true,
        time: written.stamp.time,
        ..d
    }
}

// Finish: the current transaction ends.
pub fn finish_in(
    d: Decoder,
    devices: [Device; 64],
    table: &mut Table,
    bytes: &[u8],
    device_rows: &[u64],
    endpoint_rows: &[u64],
    packets: &[u64],
    events: &[u64],
    transactions: &[u64],
    groups: &mut [u64],
    statebytes: &mut [u8],
    states: &mut [u64],
    items: &mut [u64],
    links: &mut [u64],
    requests: &[u64],
) -> Inner
    requires requests_value { is_ill (state d devices table.old (logs bytes.now device_rows.now endpoint_rows.now packets.now events.now transactions.now groups.old statebytes.old states.old items.old links.old requests.now)) ≡ false }
    requires finished_value { d.finished ≡ false }
    ensures { FinishCall (state d devices table.old (logs bytes.now device_rows.now endpoint_rows.now packets.now events.now transactions.now groups.old statebytes.old states.old items.old links.old requests.now)) result.answer (state result.decoder devices table.new (logs bytes.now device_rows.now endpoint_rows.now packets.now events.now transactions.now groups.new statebytes.new states.new items.new links.new requests.now)) }
{
    let room = room_of(
        bytes.len(),
        device_rows.len(),
        endpoint_rows.len(),
        packets.len(),
        events.len(),
        transactions.len(),
        groups.len(),
        statebytes.len(),
        states.len(),
        items.len(),
        links.len(),
        requests.len(),
    );
    let n = d.counts;
    let held = d.transaction;
    let rows = held_of(n, table);
    let e = plan_ending(d, devices, table);
    let Some(sum) = sum_finish(d, rows, e, room) else {
        return Inner {
            answer: NO_ROOM,
            decoder: d,
        };
    };
    let written = end_here(
        e,
        held.id,
        start_pid(held.style),
        written_of(last_stamp(d), rows, d, table),
        n.endpoints,
        table,
        groups,
        statebytes,
        states,
        items,
        links,
    );
    Inner {
        answer: 0,
        decoder: finished_decoder(d, sum, written),
    }
}

// The event's packet row, which names the next packet byte, its event row, and where `row` a transaction row; behind the rows held.
fn put_event(
    start: usize,
    held: Counts,
    stamp: Stamp,
    row: bool,
    code: u8,
    packets: &mut [u64],
    events: &mut [u64],
    transactions: &mut [u64],
)
    requires packet_width_in_bounds { (held.packets + 1) * packet_width ≤ length packets.old }
    requires event_width_in_bounds { (held.events + 1) * event_width ≤ length events.old }
    requires reason_in_bounds { held.transactions * transaction_width + length (opt row (transaction_words (naming stamp.packet stamp.reason))) ≤ length transactions.old }
    ensures packets_after { packets.new ≡ sets packets.old (held.packets * packet_width) (start ∷ stamp.time ∷ []) }
    ensures events_after { events.new ≡ sets events.old (held.events * event_width) (stamp.packet ∷ code ∷ []) }
    ensures transactions_after { transactions.new ≡ sets transactions.old (held.transactions * transaction_width) (opt row (transaction_words (naming stamp.packet stamp.reason))) }
{
    let p = held.packets;
    let e = held.events;
    rows::put(packets, p * width::PACKET, &[start as u64, stamp.time]);
    rows::put(events, e * width::EVENT, &[stamp.packet, code as u64]);
    put_transaction(row, transactions, held.transactions, stamp);
}

// The record after an event.
fn event_decoder(d: Decoder, resets: bool, turn: Turn, sum: Sum, written: Written) -> Decoder
    ensures { result ≡ event_decoder d resets (told turn) sum written }
{
    Decoder {
        counts: sum.counts,
        slot: slot_after(resets, d.slot),
        transaction: tie(d.transaction, written),
        last: written.last,
        event: turn.next,
        keepalive: keepalive_after(turn.act, d.keepalive & !resets),
        waiting: sum.waiting,
        time: written.stamp.time,
        ..d
    }
}

// An event of this kind, at most 7, with this code at this time.
pub fn event_in(
    d: Decoder,
    devices: [Device; 64],
    kind: u8,
    code: u8,
    time: u64,
    table: &mut Table,
    bytes: &[u8],
    device_rows: &[u64],
    endpoint_rows: &[u64],
    packets: &mut [u64],
    events: &mut [u64],
    transactions: &mut [u64],
    groups: &mut [u64],
    statebytes: &mut [u8],
    states: &mut [u64],
    items: &mut [u64],
    links: &mut [u64],
    requests: &[u64],
) -> Inner
    requires requests_value { is_ill (state d devices table.old (logs bytes.now device_rows.now endpoint_rows.now packets.old events.old transactions.old groups.old statebytes.old states.old items.old links.old requests.now)) ≡ false }
    requires finished_value { d.finished ≡ false }
    requires kind_bound { kind ≤ 7 }
    ensures { EventCall kind code time (state d devices table.old (logs bytes.now device_rows.now endpoint_rows.now packets.old events.old transactions.old groups.old statebytes.old states.old items.old links.old requests.now)) result.answer (state result.decoder devices table.new (logs bytes.now device_rows.now endpoint_rows.now packets.new events.new transactions.new groups.new statebytes.new states.new items.new links.new requests.now)) }
{
    let room = room_of(
        bytes.len(),
        device_rows.len(),
        endpoint_rows.len(),
        packets.len(),
        events.len(),
        transactions.len(),
        groups.len(),
        statebytes.len(),
        states.len(),
        items.len(),
        links.len(),
        requests.len(),
    );
    let n = d.counts;
    let held = d.transaction;
    let stamp = stamp_of(n, time, NONE);
    let rows = held_of(n, table);
    let c = decide(d, devices, kind, table, rows, room);
    let Some(sum) = c.sum else {
        return Inner {
            answer: NO_ROOM,
            decoder: d,
        };
    };
    let end = c.end;
    let turn = c.turn;
    let act = turn.act;
    let row = adds_row(act);
    let group = adds_group(act, d.keepalive & !c.resets);
    let start = starts_group(act);
    let written = settle(
        c.resets,
        end,
        held.id,
        start_pid(held.style),
        written_of(stamp, rows, d, table),
        n.endpoints,
        table,
        groups,
        statebytes,
        states,
        items,
        links,
    );
    put_event(
        n.bytes,
        rows,
        stamp,
        row,
        code,
        packets,
        events,
        transactions,
    );
    let written = event_rows(
        row,
        group,
        start,
        written,
        n.endpoints,
        n.transactions as u64,
        table,
        groups,
        statebytes,
        states,
        items,
        links,
    );
    Inner {
        answer: 0,
        decoder: event_decoder(d, c.resets, turn, sum, written),
    }
}
