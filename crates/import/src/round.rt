// One round of an import: packets by the inner call, and the record behind them by the public one; and what the rounds come to.
ghost use Rattle.std.specs.Prelude.{◌≡◌};
ghost use Rattle.call.specs.State.{state, logs};
ghost use Rattle.step.specs.Block.{stand};
ghost use Rattle.stream.specs.Led.{Fits};
ghost use Rattle.stream.specs.Rounds.{Few, with_step};
ghost use Rattle.import.specs.Steps.{stopped_at, called_by, imported_of, Rounds};

use crate::Imported;
use call::Called;
use endpoints::Table;
use packet::packet;
use pcap::{Format, next_record};
use shelving::Shelf;
use step::went;
use stream::part::Reader;
use stream::piece::piece_of;
use stream::rounds::with_step;
use stream::{Run, run_packets};
use trace::Cursor;

// No packet stands there: the end, or a record that is refused.
fn stopped_at(run: Run, answer: u8) -> Run
    ensures { result ≡ stopped_at run answer }
{
    let mut run = run;
    run.going = false;
    run.answer = answer;
    run
}

// The packets so far, and the one that ends at `end`; or, where it is refused, without it.
fn after_call(run: Run, end: usize, r: Called) -> Run
    requires { Few run (called_by run end r) }
    ensures { result ≡ with_step run (called_by run end r) }
{
    let clock = run.clock;
    let decoder = r.decoder;
    let devices = r.devices;
    with_step(
        run,
        went(r.answer, Cursor { at: end }, clock, decoder, devices),
    )
}

// What the import gives back.
pub fn imported_of(run: Run) -> Imported
    ensures { result ≡ imported_of run }
{
    let decoder = run.decoder;
    let devices = run.devices;
    Imported {
        answer: run.answer,
        taken: run.taken,
        eights: run.eights,
        place: run.place,
        decoder,
        devices,
    }
}

// The packets from where `run` ends, and the record behind them. Where `ready` is false, that record alone.
pub fn round(
    f: Format,
    ready: bool,
    run: Run,
    file: &[u8],
    table: &mut Table,
    bytes: &mut [u8],
    device_rows: &mut [u64],
    endpoint_rows: &mut [u64],
    packets: &mut [u64],
    events: &[u64],
    transactions: &mut [u64],
    groups: &mut [u64],
    statebytes: &mut [u8],
    states: &mut [u64],
    items: &mut [u64],
    links: &mut [u64],
    requests: &mut [u64],
    shelf: &mut Shelf,
) -> Run
    requires { Fits ready (state run.decoder run.devices table.old (logs bytes.old device_rows.old endpoint_rows.old packets.old events.now transactions.old groups.old statebytes.old states.old items.old links.old requests.old)) }
    ensures { Rounds f file.now run.place (stand (state run.decoder run.devices table.old (logs bytes.old device_rows.old endpoint_rows.old packets.old events.now transactions.old groups.old statebytes.old states.old items.old links.old requests.old)) shelf.old) result table.new (logs bytes.new device_rows.new endpoint_rows.new packets.new events.now transactions.new groups.new statebytes.new states.new items.new links.new requests.new) shelf.new }
{
    let devices = run.devices;
    let p = run_packets(
        Reader::Pcap(f),
        ready,
        run.decoder,
        devices,
        run.clock,
        file,
        run.place,
        table,
        bytes,
        device_rows,
        endpoint_rows,
        packets,
        events,
        transactions,
        groups,
        statebytes,
        states,
        items,
        links,
        requests,
        shelf,
    );
    if !p.going {
        return p;
    }
    let part = match piece_of(f, next_record(file, p.place, f)) {
        Ok(part) => part,
        Err(answer) => return stopped_at(p, answer),
    };
    let kept = p.devices;
    let begin = part.start;
    let end = part.end;
    let r = packet(
        p.decoder,
        kept,
        &file[begin..end],
        part.time,
        table,
        bytes,
        device_rows,
        endpoint_rows,
        packets,
        events,
        transactions,
        groups,
        statebytes,
        states,
        items,
        links,
        requests,
        shelf,
    );
    after_call(p, end, r)
}
