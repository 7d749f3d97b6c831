// What C and Rust programs call with a block of records, without header (02, change request 3).
ghost use Rattle.std.specs.Prelude.{◌≡◌};
ghost use Rattle.endpoints.specs.Table.{flag_of};
ghost use Rattle.call.specs.State.{logs};
ghost use Rattle.calls.specs.Block.{BlockKept};

use crate::keep::{keep_block, load_ticks};
use endpoints::Table;
use handle::{Record, load_record};
use shelving::Shelf;

// The tick state: whether there was a tick, the last counter, and its time.
pub type Ticks = [u64; 3];

// How many records were taken, how many of them were answered 8, and the place where it stopped.
pub type Told = [u64; 3];

// The records from the first byte on. A detail is obeyed where `typed` is not 0, as in a trace, and else refused.
#[unsafe(no_mangle)]
pub extern "C" fn pivotspark_block(
    typed: u8,
    record: &mut Record,
    clock: &mut Ticks,
    records: &[u8],
    table: &mut Table,
    bytes: &mut [u8],
    device_rows: &mut [u64],
    endpoint_rows: &mut [u64],
    packets: &mut [u64],
    events: &mut [u64],
    transactions: &mut [u64],
    groups: &mut [u64],
    statebytes: &mut [u8],
    states: &mut [u64],
    items: &mut [u64],
    links: &mut [u64],
    requests: &mut [u64],
    shelf: &mut Shelf,
    told: &mut Told,
) -> u8
    ensures { BlockKept (flag_of typed) records.now «record».old clock.old table.old (logs bytes.old device_rows.old endpoint_rows.old packets.old events.old transactions.old groups.old statebytes.old states.old items.old links.old requests.old) shelf.old told.old result «record».new clock.new table.new (logs bytes.new device_rows.new endpoint_rows.new packets.new events.new transactions.new groups.new statebytes.new states.new items.new links.new requests.new) shelf.new told.new }
{
    let s = load_record(record);
    let devices = s.devices;
    let ticks = load_ticks(clock);
    let r = block::records(
        typed != 0,
        s.decoder,
        devices,
        ticks,
        records,
        0,
        table,
        bytes,
        device_rows,
        endpoint_rows,
        packets,
        events,
        transactions,
        groups,
        statebytes,
        states,
        items,
        links,
        requests,
        shelf,
    );
    keep_block(record, clock, told, r);
    r.answer
}
