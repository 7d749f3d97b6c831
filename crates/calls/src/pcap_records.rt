// What C and Rust programs call with the records of a pcap file, without its head (02, change request 4).
ghost use Rattle.std.specs.Prelude.{◌≡◌};
ghost use Rattle.call.specs.State.{logs};
ghost use Rattle.calls.specs.Pcap.{format_in, ImportKept};

use crate::blocks::Told;
use crate::keep_pcap::keep_import;
use crate::pcap_head::{PcapFormat, load_format};
use endpoints::Table;
use handle::{Record, load_record};
use import::import_from;
use shelving::Shelf;

// The records from the first byte on, each a packet call, in the format that the head gave.
#[unsafe(no_mangle)]
pub extern "C" fn pivotspark_pcap_records(
    record: &mut Record,
    format: &PcapFormat,
    records: &[u8],
    table: &mut Table,
    bytes: &mut [u8],
    device_rows: &mut [u64],
    endpoint_rows: &mut [u64],
    packets: &mut [u64],
    events: &[u64],
    transactions: &mut [u64],
    groups: &mut [u64],
    statebytes: &mut [u8],
    states: &mut [u64],
    items: &mut [u64],
    links: &mut [u64],
    requests: &mut [u64],
    shelf: &mut Shelf,
    told: &mut Told,
) -> u8
    ensures { ImportKept (format_in format.now) records.now «record».old table.old (logs bytes.old device_rows.old endpoint_rows.old packets.old events.now transactions.old groups.old statebytes.old states.old items.old links.old requests.old) shelf.old told.old result «record».new table.new (logs bytes.new device_rows.new endpoint_rows.new packets.new events.now transactions.new groups.new statebytes.new states.new items.new links.new requests.new) shelf.new told.new }
{
    let s = load_record(record);
    let devices = s.devices;
    let f = load_format(format);
    let r = import_from(
        f,
        s.decoder,
        devices,
        records,
        0,
        table,
        bytes,
        device_rows,
        endpoint_rows,
        packets,
        events,
        transactions,
        groups,
        statebytes,
        states,
        items,
        links,
        requests,
        shelf,
    );
    keep_import(record, told, r);
    r.answer
}
