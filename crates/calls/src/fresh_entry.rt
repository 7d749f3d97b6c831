// What C and Rust programs call to make a decoder. The record may hold anything; where the decoder is refused it becomes one that every call answers 1.
ghost use Rattle.std.specs.Prelude.{◌≡◌};
ghost use Rattle.endpoints.specs.Table.{flag_of};
ghost use Rattle.call.specs.State.{logs};
ghost use Rattle.calls.specs.Calls.{FreshKept};

use details::fresh_device;
use endpoints::Table;
use handle::{Record, store_record};

// A fresh decoder; in the mode for high-bandwidth isochronous data where `mode` is not 0.
#[unsafe(no_mangle)]
pub extern "C" fn pivotspark_fresh(
    mode: u8,
    record: &mut Record,
    table: &mut Table,
    bytes: &[u8],
    device_rows: &mut [u64],
    endpoint_rows: &mut [u64],
    packets: &[u64],
    events: &[u64],
    transactions: &[u64],
    groups: &[u64],
    statebytes: &[u8],
    states: &[u64],
    items: &[u64],
    links: &[u64],
    requests: &[u64],
) -> u8
    ensures { FreshKept (flag_of mode) «record».old table.old (logs bytes.now device_rows.old endpoint_rows.old packets.now events.now transactions.now groups.now statebytes.now states.now items.now links.now requests.now) result «record».new table.new (logs bytes.now device_rows.new endpoint_rows.new packets.now events.now transactions.now groups.now statebytes.now states.now items.now links.now requests.now) }
{
    let blank = fresh_device(0);
    let devices = [blank; 64];
    let r = start::fresh::fresh(
        mode != 0,
        devices,
        table,
        bytes,
        device_rows,
        endpoint_rows,
        packets,
        events,
        transactions,
        groups,
        statebytes,
        states,
        items,
        links,
        requests,
    );
    let decoder = r.decoder;
    let devices = r.devices;
    store_record(record, decoder, devices);
    r.answer
}
