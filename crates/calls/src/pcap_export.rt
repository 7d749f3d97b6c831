// What C and Rust programs call to write a record's packets as a pcap file (02, change request 4).
ghost use Rattle.std.specs.Prelude.{◌≡◌};
ghost use Rattle.call.specs.State.{logs};
ghost use Rattle.calls.specs.Calls.{state_in};
ghost use Rattle.calls.specs.Pcap.{ExportTold};

use crate::blocks::Told;
use crate::keep_pcap::tell_export;
use endpoints::Table;
use export::export_record;
use handle::{Record, load_record};

// The packets as a file, from the start of `out`; refused, nothing is written.
#[unsafe(no_mangle)]
pub extern "C" fn pivotspark_pcap_export(
    record: &Record,
    table: &Table,
    bytes: &[u8],
    device_rows: &[u64],
    endpoint_rows: &[u64],
    packets: &[u64],
    events: &[u64],
    transactions: &[u64],
    groups: &[u64],
    statebytes: &[u8],
    states: &[u64],
    items: &[u64],
    links: &[u64],
    requests: &[u64],
    out: &mut [u8],
    told: &mut Told,
) -> u8
    ensures { ExportTold (state_in «record».now table.now (logs bytes.now device_rows.now endpoint_rows.now packets.now events.now transactions.now groups.now statebytes.now states.now items.now links.now requests.now)) out.old told.old result out.new told.new }
{
    let s = load_record(record);
    let devices = s.devices;
    let r = export_record(
        s.decoder,
        devices,
        table,
        bytes,
        device_rows,
        endpoint_rows,
        packets,
        events,
        transactions,
        groups,
        statebytes,
        states,
        items,
        links,
        requests,
        out,
    );
    tell_export(told, r);
    r.answer
}
