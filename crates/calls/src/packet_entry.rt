// What C and Rust programs call with a packet. The record may hold anything; where the call is refused it is left as it is.
ghost use Rattle.std.specs.Prelude.{◌≡◌};
ghost use Rattle.call.specs.State.{logs};
ghost use Rattle.calls.specs.Calls.{PacketKept};

use crate::keep::keep;
use endpoints::Table;
use handle::{Record, load_record};
use shelving::Shelf;

// The packet of these bytes at this time.
#[unsafe(no_mangle)]
pub extern "C" fn pivotspark_packet(
    record: &mut Record,
    packet: &[u8],
    time: u64,
    table: &mut Table,
    bytes: &mut [u8],
    device_rows: &mut [u64],
    endpoint_rows: &mut [u64],
    packets: &mut [u64],
    events: &[u64],
    transactions: &mut [u64],
    groups: &mut [u64],
    statebytes: &mut [u8],
    states: &mut [u64],
    items: &mut [u64],
    links: &mut [u64],
    requests: &mut [u64],
    shelf: &mut Shelf,
) -> u8
    ensures { PacketKept packet.now time «record».old table.old (logs bytes.old device_rows.old endpoint_rows.old packets.old events.now transactions.old groups.old statebytes.old states.old items.old links.old requests.old) shelf.old result «record».new table.new (logs bytes.new device_rows.new endpoint_rows.new packets.new events.now transactions.new groups.new statebytes.new states.new items.new links.new requests.new) shelf.new }
{
    let s = load_record(record);
    let devices = s.devices;
    let r = packet::packet(
        s.decoder,
        devices,
        packet,
        time,
        table,
        bytes,
        device_rows,
        endpoint_rows,
        packets,
        events,
        transactions,
        groups,
        statebytes,
        states,
        items,
        links,
        requests,
        shelf,
    );
    keep(record, r);
    r.answer
}
