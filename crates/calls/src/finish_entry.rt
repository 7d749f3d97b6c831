// What C and Rust programs call at the end. The record may hold anything; where the call is refused it is left as it is.
ghost use Rattle.std.specs.Prelude.{◌≡◌};
ghost use Rattle.call.specs.State.{logs};
ghost use Rattle.calls.specs.Calls.{FinishKept};

use crate::keep::keep;
use endpoints::Table;
use handle::{Record, load_record};

// The end.
#[unsafe(no_mangle)]
pub extern "C" fn pivotspark_finish(
    record: &mut Record,
    table: &mut Table,
    bytes: &[u8],
    device_rows: &[u64],
    endpoint_rows: &[u64],
    packets: &[u64],
    events: &[u64],
    transactions: &[u64],
    groups: &mut [u64],
    statebytes: &mut [u8],
    states: &mut [u64],
    items: &mut [u64],
    links: &mut [u64],
    requests: &[u64],
) -> u8
    ensures { FinishKept «record».old table.old (logs bytes.now device_rows.now endpoint_rows.now packets.now events.now transactions.now groups.old statebytes.old states.old items.old links.old requests.now) result «record».new table.new (logs bytes.now device_rows.now endpoint_rows.now packets.now events.now transactions.now groups.new statebytes.new states.new items.new links.new requests.now) }
{
    let s = load_record(record);
    let devices = s.devices;
    let r = events::finish(
        s.decoder,
        devices,
        table,
        bytes,
        device_rows,
        endpoint_rows,
        packets,
        events,
        transactions,
        groups,
        statebytes,
        states,
        items,
        links,
        requests,
    );
    keep(record, r);
    r.answer
}
