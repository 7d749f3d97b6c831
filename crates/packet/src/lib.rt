// The packet call (handle_raw_packet of decoder.rs). Everything is decided first: a refused call returns before the first write.
#![tactic(auto)]

pub mod change;
pub mod inner;
mod sum;

ghost use Rattle.std.specs.Prelude.{◌≡◌};
ghost use Rattle.call.specs.State.{state, logs};
ghost use Rattle.packet.specs.Call.{PacketCall};

use crate::change::{is_change, make_change};
use crate::inner::packet_in;
use call::{Called, first_tests, room_of};
use decide::near::look;
use details::Device;
use endpoints::Table;
use record::Decoder;
use shelving::Shelf;

// The longest packet (01, Sizes), and the answer to a longer one.
const MOST: usize = 4096;

const TOO_LONG: u8 = 3;

// The packet of these bytes at this time. The devices are the caller's, in and out; the logs come in the order of their numbers (rules, Rows). The shelf may hold
// anything: what it holds is read only where `devices` says that it was kept.
pub fn packet(
    d: Decoder,
    devices: [Device; 64],
    packet: &[u8],
    time: u64,
    table: &mut Table,
    bytes: &mut [u8],
    device_rows: &mut [u64],
    endpoint_rows: &mut [u64],
    packets: &mut [u64],
    events: &[u64],
    transactions: &mut [u64],
    groups: &mut [u64],
    statebytes: &mut [u8],
    states: &mut [u64],
    items: &mut [u64],
    links: &mut [u64],
    requests: &mut [u64],
    shelf: &mut Shelf,
) -> Called
    ensures { PacketCall packet.now time (state d devices table.old (logs bytes.old device_rows.old endpoint_rows.old packets.old events.now transactions.old groups.old statebytes.old states.old items.old links.old requests.old)) shelf.old result.answer (state result.decoder result.devices table.new (logs bytes.new device_rows.new endpoint_rows.new packets.new events.now transactions.new groups.new statebytes.new states.new items.new links.new requests.new)) shelf.new }
{
    let room = room_of(
        bytes.len(),
        device_rows.len(),
        endpoint_rows.len(),
        packets.len(),
        events.len(),
        transactions.len(),
        groups.len(),
        statebytes.len(),
        states.len(),
        items.len(),
        links.len(),
        requests.len(),
    );
    let answer = first_tests(d, devices, table, room, packet.len(), MOST, TOO_LONG);
    if answer != 0 {
        return Called {
            answer,
            decoder: d,
            devices,
        };
    }
    let near = look(d, devices, table, packet);
    let r = packet_in(
        d,
        near,
        packet,
        time,
        table,
        bytes,
        device_rows,
        endpoint_rows,
        packets,
        events,
        transactions,
        groups,
        statebytes,
        states,
        items,
        links,
        requests,
    );
    let decoder = r.decoder;
    let c = r.change;
    if !is_change(c) {
        return Called {
            answer: r.answer,
            decoder,
            devices,
        };
    }
    let devices = make_change(c, devices, packet, shelf, requests);
    Called {
        answer: r.answer,
        decoder,
        devices,
    }
}
