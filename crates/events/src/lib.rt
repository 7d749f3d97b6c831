// The event call and finish (handle_event and finish of decoder.rs). Everything is decided first: a refused call returns before the first write.
#![tactic(auto)]

mod decided;
pub mod ending;
pub mod inner;
mod sum;

ghost use Rattle.std.specs.Prelude.{◌≡◌};
ghost use Rattle.call.specs.State.{state, logs};
ghost use Rattle.events.specs.Call.{EventCall, FinishCall};

use crate::inner::{event_in, finish_in};
use call::{Called, first_tests, room_of};
use details::Device;
use endpoints::Table;
use record::Decoder;

// The last event kind (01, Rules of a group), and the answer to one above it.
const LAST_KIND: usize = 7;

const NO_KIND: u8 = 4;

// An event of this kind, with this code at this time. The devices are the caller's, in and out; the logs come in the order of their numbers (rules, Rows).
pub fn event(
    d: Decoder,
    devices: [Device; 64],
    kind: u8,
    code: u8,
    time: u64,
    table: &mut Table,
    bytes: &[u8],
    device_rows: &[u64],
    endpoint_rows: &[u64],
    packets: &mut [u64],
    events: &mut [u64],
    transactions: &mut [u64],
    groups: &mut [u64],
    statebytes: &mut [u8],
    states: &mut [u64],
    items: &mut [u64],
    links: &mut [u64],
    requests: &[u64],
) -> Called
    ensures { EventCall kind code time (state d devices table.old (logs bytes.now device_rows.now endpoint_rows.now packets.old events.old transactions.old groups.old statebytes.old states.old items.old links.old requests.now)) result.answer (state result.decoder result.devices table.new (logs bytes.now device_rows.now endpoint_rows.now packets.new events.new transactions.new groups.new statebytes.new states.new items.new links.new requests.now)) }
{
    let room = room_of(
        bytes.len(),
        device_rows.len(),
        endpoint_rows.len(),
        packets.len(),
        events.len(),
        transactions.len(),
        groups.len(),
        statebytes.len(),
        states.len(),
        items.len(),
        links.len(),
        requests.len(),
    );
    let answer = first_tests(d, devices, table, room, kind as usize, LAST_KIND, NO_KIND);
    if answer != 0 {
        return Called {
            answer,
            decoder: d,
            devices,
        };
    }
    let r = event_in(
        d,
        devices,
        kind,
        code,
        time,
        table,
        bytes,
        device_rows,
        endpoint_rows,
        packets,
        events,
        transactions,
        groups,
        statebytes,
        states,
        items,
        links,
        requests,
    );
    let decoder = r.decoder;
    Called {
        answer: r.answer,
        decoder,
        devices,
    }
}

// Finish, with devices and logs likewise.
pub fn finish(
    d: Decoder,
    devices: [Device; 64],
    table: &mut Table,
    bytes: &[u8],
    device_rows: &[u64],
    endpoint_rows: &[u64],
    packets: &[u64],
    events: &[u64],
    transactions: &[u64],
    groups: &mut [u64],
    statebytes: &mut [u8],
    states: &mut [u64],
    items: &mut [u64],
    links: &mut [u64],
    requests: &[u64],
) -> Called
    ensures { FinishCall (state d devices table.old (logs bytes.now device_rows.now endpoint_rows.now packets.now events.now transactions.now groups.old statebytes.old states.old items.old links.old requests.now)) result.answer (state result.decoder result.devices table.new (logs bytes.now device_rows.now endpoint_rows.now packets.now events.now transactions.now groups.new statebytes.new states.new items.new links.new requests.now)) }
{
    let room = room_of(
        bytes.len(),
        device_rows.len(),
        endpoint_rows.len(),
        packets.len(),
        events.len(),
        transactions.len(),
        groups.len(),
        statebytes.len(),
        states.len(),
        items.len(),
        links.len(),
        requests.len(),
    );
    // It has no kind, so it is never answered 4.
    let answer = first_tests(d, devices, table, room, 0, LAST_KIND, NO_KIND);
    if answer != 0 {
        return Called {
            answer,
            decoder: d,
            devices,
        };
    }
    let r = finish_in(
        d,
        devices,
        table,
        bytes,
        device_rows,
        endpoint_rows,
        packets,
        events,
        transactions,
        groups,
        statebytes,
        states,
        items,
        links,
        requests,
    );
    let decoder = r.decoder;
    Called {
        answer: r.answer,
        decoder,
        devices,
    }
}
