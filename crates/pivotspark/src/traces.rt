// What C and Rust programs call to run a whole trace.
ghost use Rattle.std.specs.Prelude.{◌≡◌};
ghost use Rattle.call.specs.State.{logs};
ghost use Rattle.pivotspark.specs.Told.{is_on, told, counted, Told};

use endpoints::Table;
use record::Decoder;
use run::run;
use shelving::Shelf;

// Where the top byte of a word begins.
const TOP: u64 = 1 << 56;

// The answer in the top byte, the place below it.
fn tell(answer: u8, place: usize) -> u64
    ensures { result ≡ told answer place }
{
    TOP * (answer as u64) + place as u64 % TOP
}

// Twelve counts, one behind the other, where there are words for all of them.
fn put_counts(counts: &mut [u64], d: Decoder)
    ensures { counts.new ≡ counted counts.old d.counts }
{
    if counts.len() < 12 {
        return;
    }
    let n = d.counts;
    counts[..12].copy_from_slice(&[
        n.bytes as u64,
        n.devices as u64,
        n.endpoints as u64,
        n.packets as u64,
        n.events as u64,
        n.transactions as u64,
        n.groups as u64,
        n.statebytes as u64,
        n.states as u64,
        n.items as u64,
        n.links as u64,
        n.requests as u64,
    ]);
}

// The trace on the lent table, logs and shelf, which may hold anything; in the mode for high-bandwidth isochronous data where `mode` is not 0. The record's counts are stored in `counts`; if it has fewer than twelve words it is left as it is.
#[unsafe(no_mangle)]
pub extern "C" fn pivotspark_trace(
    mode: u8,
    trace: &[u8],
    table: &mut Table,
    bytes: &mut [u8],
    device_rows: &mut [u64],
    endpoint_rows: &mut [u64],
    packets: &mut [u64],
    events: &mut [u64],
    transactions: &mut [u64],
    groups: &mut [u64],
    statebytes: &mut [u8],
    states: &mut [u64],
    items: &mut [u64],
    links: &mut [u64],
    requests: &mut [u64],
    shelf: &mut Shelf,
    counts: &mut [u64],
) -> u64
    ensures { Told (is_on mode) trace.now table.old (logs bytes.old device_rows.old endpoint_rows.old packets.old events.old transactions.old groups.old statebytes.old states.old items.old links.old requests.old) shelf.old counts.old result table.new (logs bytes.new device_rows.new endpoint_rows.new packets.new events.new transactions.new groups.new statebytes.new states.new items.new links.new requests.new) shelf.new counts.new }
{
    let r = run(
        mode != 0,
        trace,
        table,
        bytes,
        device_rows,
        endpoint_rows,
        packets,
        events,
        transactions,
        groups,
        statebytes,
        states,
        items,
        links,
        requests,
        shelf,
    );
    put_counts(counts, r.decoder);
    tell(r.answer, r.place)
}
