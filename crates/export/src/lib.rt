// The packets of a record's logs as a pcap file (02, 4), where the record is not ill: which counts an export goes by, and answer 1.
#![tactic(auto)]

ghost use Rattle.std.specs.Prelude.{◌≡◌};
ghost use Rattle.pcap.specs.Export.{refusal};
ghost use Rattle.call.specs.State.{state, logs};
ghost use Rattle.export.specs.Record.{ExportsIn, size_in};

use call::{is_ill, room_of};
use details::Device;
use endpoints::Table;
use pcap::{Exported, export, export_size};
use record::Decoder;

// A log is too long, or the record is not well formed.
fn ill() -> Exported
    ensures { result ≡ refusal 1 }
{
    Exported {
        answer: 1,
        length: 0,
        packets: 0,
        events: 0,
    }
}

// How long a file `export_record` would write.
pub fn size_record(
    d: Decoder,
    devices: [Device; 64],
    table: &Table,
    bytes: &[u8],
    device_rows: &[u64],
    endpoint_rows: &[u64],
    packets: &[u64],
    events: &[u64],
    transactions: &[u64],
    groups: &[u64],
    statebytes: &[u8],
    states: &[u64],
    items: &[u64],
    links: &[u64],
    requests: &[u64],
) -> Exported
    ensures { result ≡ size_in (state d devices table.now (logs bytes.now device_rows.now endpoint_rows.now packets.now events.now transactions.now groups.now statebytes.now states.now items.now links.now requests.now)) }
{
    let room = room_of(
        bytes.len(),
        device_rows.len(),
        endpoint_rows.len(),
        packets.len(),
        events.len(),
        transactions.len(),
        groups.len(),
        statebytes.len(),
        states.len(),
        items.len(),
        links.len(),
        requests.len(),
    );
    if is_ill(d, devices, table, room) {
        return ill();
    }
    let n = d.counts;
    export_size(n.bytes, bytes, n.packets, packets, n.events, events)
}

// The file, from the start of a lent buffer. A finished decoder is exported as any other.
pub fn export_record(
    d: Decoder,
    devices: [Device; 64],
    table: &Table,
    bytes: &[u8],
    device_rows: &[u64],
    endpoint_rows: &[u64],
    packets: &[u64],
    events: &[u64],
    transactions: &[u64],
    groups: &[u64],
    statebytes: &[u8],
    states: &[u64],
    items: &[u64],
    links: &[u64],
    requests: &[u64],
    out: &mut [u8],
) -> Exported
    ensures { ExportsIn (state d devices table.now (logs bytes.now device_rows.now endpoint_rows.now packets.now events.now transactions.now groups.now statebytes.now states.now items.now links.now requests.now)) out.old out.new result }
{
    let room = room_of(
        bytes.len(),
        device_rows.len(),
        endpoint_rows.len(),
        packets.len(),
        events.len(),
        transactions.len(),
        groups.len(),
        statebytes.len(),
        states.len(),
        items.len(),
        links.len(),
        requests.len(),
    );
    if is_ill(d, devices, table, room) {
        return ill();
    }
    let n = d.counts;
    export(n.bytes, bytes, n.packets, packets, n.events, events, out)
}
