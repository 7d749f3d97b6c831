// What C and Rust programs call to know how much room a record's packets take as a pcap file (02, change request 4).
ghost use Rattle.std.specs.Prelude.{◌≡◌};
ghost use Rattle.call.specs.State.{logs};
ghost use Rattle.calls.specs.Calls.{state_in};
ghost use Rattle.calls.specs.Pcap.{SizeTold};

use crate::blocks::Told;
use crate::keep_pcap::tell_export;
use endpoints::Table;
use export::size_record;
use handle::{Record, load_record};

// How long the file is that pivotspark_pcap_export would write.
#[unsafe(no_mangle)]
pub extern "C" fn pivotspark_pcap_size(
    record: &Record,
    table: &Table,
    bytes: &[u8],
    device_rows: &[u64],
    endpoint_rows: &[u64],
    packets: &[u64],
    events: &[u64],
    transactions: &[u64],
    groups: &[u64],
    statebytes: &[u8],
    states: &[u64],
    items: &[u64],
    links: &[u64],
    requests: &[u64],
    told: &mut Told,
) -> u8
    ensures { SizeTold (state_in «record».now table.now (logs bytes.now device_rows.now endpoint_rows.now packets.now events.now transactions.now groups.now statebytes.now states.now items.now links.now requests.now)) told.old result told.new }
{
    let s = load_record(record);
    let devices = s.devices;
    let r = size_record(
        s.decoder,
        devices,
        table,
        bytes,
        device_rows,
        endpoint_rows,
        packets,
        events,
        transactions,
        groups,
        statebytes,
        states,
        items,
        links,
        requests,
    );
    tell_export(told, r);
    r.answer
}
