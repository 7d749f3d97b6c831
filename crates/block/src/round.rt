// One round of a block's loop: packets by the inner call, and the record behind them by its public call.
ghost use Rattle.std.specs.Prelude.{◌≡◌};
ghost use Rattle.call.specs.State.{state, logs};
ghost use Rattle.step.specs.Block.{stand};
ghost use Rattle.stream.specs.Led.{Fits};
ghost use Rattle.block.specs.Round.{taken_of, Rounds};

use crate::Taken;
use endpoints::Table;
use shelving::Shelf;
use single::single_step;
use stream::part::Reader;
use stream::rounds::with_step;
use stream::{Run, run_packets};
use trace::reader::record_at;

// What the block gives back.
pub fn taken_of(run: Run) -> Taken
    ensures { result ≡ taken_of run }
{
    let clock = run.clock;
    let decoder = run.decoder;
    let devices = run.devices;
    Taken {
        answer: run.answer,
        taken: run.taken,
        eights: run.eights,
        place: run.place,
        clock,
        decoder,
        devices,
    }
}

// The packets from where `run` ends, and the record behind them. Where `ready` is false, that record alone. `typed` says whether a detail is obeyed.
pub fn round(
    typed: bool,
    ready: bool,
    run: Run,
    records: &[u8],
    table: &mut Table,
    bytes: &mut [u8],
    device_rows: &mut [u64],
    endpoint_rows: &mut [u64],
    packets: &mut [u64],
    events: &mut [u64],
    transactions: &mut [u64],
    groups: &mut [u64],
    statebytes: &mut [u8],
    states: &mut [u64],
    items: &mut [u64],
    links: &mut [u64],
    requests: &mut [u64],
    shelf: &mut Shelf,
) -> Run
    requires { Fits ready (state run.decoder run.devices table.old (logs bytes.old device_rows.old endpoint_rows.old packets.old events.old transactions.old groups.old statebytes.old states.old items.old links.old requests.old)) }
    ensures { Rounds typed records.now run.place run.clock (stand (state run.decoder run.devices table.old (logs bytes.old device_rows.old endpoint_rows.old packets.old events.old transactions.old groups.old statebytes.old states.old items.old links.old requests.old)) shelf.old) result table.new (logs bytes.new device_rows.new endpoint_rows.new packets.new events.new transactions.new groups.new statebytes.new states.new items.new links.new requests.new) shelf.new }
{
    let devices = run.devices;
    let p = run_packets(
        Reader::Trace,
        ready,
        run.decoder,
        devices,
        run.clock,
        records,
        run.place,
        table,
        bytes,
        device_rows,
        endpoint_rows,
        packets,
        events,
        transactions,
        groups,
        statebytes,
        states,
        items,
        links,
        requests,
        shelf,
    );
    if !p.going {
        return p;
    }
    let kept = p.devices;
    let q = single_step(
        typed,
        record_at(records, p.place),
        records,
        p.place,
        p.clock,
        p.decoder,
        kept,
        table,
        bytes,
        device_rows,
        endpoint_rows,
        packets,
        events,
        transactions,
        groups,
        statebytes,
        states,
        items,
        links,
        requests,
        shelf,
    );
    with_step(p, q)
}
