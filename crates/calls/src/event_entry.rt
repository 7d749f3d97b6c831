// What C and Rust programs call with an event. The record may hold anything; where the call is refused it is left as it is.
ghost use Rattle.std.specs.Prelude.{◌≡◌};
ghost use Rattle.call.specs.State.{logs};
ghost use Rattle.calls.specs.Calls.{EventKept};

use crate::keep::keep;
use endpoints::Table;
use handle::{Record, load_record};

// An event of this kind, with this code at this time.
#[unsafe(no_mangle)]
pub extern "C" fn pivotspark_event(
    record: &mut Record,
    kind: u8,
    code: u8,
    time: u64,
    table: &mut Table,
    bytes: &[u8],
    device_rows: &[u64],
    endpoint_rows: &[u64],
    packets: &mut [u64],
    events: &mut [u64],
    transactions: &mut [u64],
    groups: &mut [u64],
    statebytes: &mut [u8],
    states: &mut [u64],
    items: &mut [u64],
    links: &mut [u64],
    requests: &[u64],
) -> u8
    ensures { EventKept kind code time «record».old table.old (logs bytes.now device_rows.now endpoint_rows.now packets.old events.old transactions.old groups.old statebytes.old states.old items.old links.old requests.now) result «record».new table.new (logs bytes.now device_rows.now endpoint_rows.now packets.new events.new transactions.new groups.new statebytes.new states.new items.new links.new requests.now) }
{
    let s = load_record(record);
    let devices = s.devices;
    let r = events::event(
        s.decoder,
        devices,
        kind,
        code,
        time,
        table,
        bytes,
        device_rows,
        endpoint_rows,
        packets,
        events,
        transactions,
        groups,
        statebytes,
        states,
        items,
        links,
        requests,
    );
    keep(record, r);
    r.answer
}
