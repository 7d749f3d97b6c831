// A whole trace through the calls (01, "Trace and listing"): its header, a fresh decoder, its records as one block, and finish.
#![tactic(auto)]

ghost use Rattle.std.specs.Prelude.{◌≡◌};
ghost use Rattle.trace.specs.Clock.{stopped};
ghost use Rattle.call.specs.State.{state, logs};
ghost use Rattle.step.specs.Block.{stand};
ghost use Rattle.run.specs.NotMade.{not_made};
ghost use Rattle.run.specs.Run.{Runs, Ran};

use details::{Device, fresh_device};
use endpoints::Table;
use events::finish;
use record::Decoder;
use record::fresh::refused_decoder;
use shelving::Shelf;
use start::fresh::fresh;
use trace::{check_header, first, header_answer, header_place};

// A run's end: the answer (0: finished), its place in the trace, and the decoder.
#[derive(Clone, Copy)]
pub struct Done {
    pub answer: u8,
    pub place: usize,
    pub decoder: Decoder,
    pub devices: [Device; 64],
}

// The records behind the header as one block, in which typed-in details are obeyed, and finish where none is refused.
fn records(
    trace: &[u8],
    decoder: Decoder,
    devices: [Device; 64],
    table: &mut Table,
    bytes: &mut [u8],
    device_rows: &mut [u64],
    endpoint_rows: &mut [u64],
    packets: &mut [u64],
    events: &mut [u64],
    transactions: &mut [u64],
    groups: &mut [u64],
    statebytes: &mut [u8],
    states: &mut [u64],
    items: &mut [u64],
    links: &mut [u64],
    requests: &mut [u64],
    shelf: &mut Shelf,
) -> Done
    ensures { Runs trace.now 5 stopped (stand (state decoder devices table.old (logs bytes.old device_rows.old endpoint_rows.old packets.old events.old transactions.old groups.old statebytes.old states.old items.old links.old requests.old)) shelf.old) result.answer result.place (stand (state result.decoder result.devices table.new (logs bytes.new device_rows.new endpoint_rows.new packets.new events.new transactions.new groups.new statebytes.new states.new items.new links.new requests.new)) shelf.new) }
{
    let start = first();
    let r = block::records(
        true,
        decoder,
        devices,
        trace::clock::fresh(),
        trace,
        start.at,
        table,
        bytes,
        device_rows,
        endpoint_rows,
        packets,
        events,
        transactions,
        groups,
        statebytes,
        states,
        items,
        links,
        requests,
        shelf,
    );
    let answer = r.answer;
    let decoder = r.decoder;
    let devices = r.devices;
    if answer != 0 {
        return Done {
            answer,
            place: r.place,
            decoder,
            devices,
        };
    }
    let r = finish(
        decoder,
        devices,
        table,
        bytes,
        device_rows,
        endpoint_rows,
        packets,
        events,
        transactions,
        groups,
        statebytes,
        states,
        items,
        links,
        requests,
    );
    let answer = r.answer;
    let decoder = r.decoder;
    let devices = r.devices;
    Done {
        answer,
        place: trace.len(),
        decoder,
        devices,
    }
}

// A decoder that can't be made is told at 0.
fn not_made(answer: u8, decoder: Decoder, devices: [Device; 64]) -> Done
    ensures { result ≡ not_made answer decoder devices }
{
    Done {
        answer,
        place: 0,
        decoder,
        devices,
    }
}

// The trace on the lent table, logs and shelf, by a decoder in this mode: 10 or 11 for its header, what a decoder that can't be made answers, or what its records come to.
pub fn run(
    high: bool,
    trace: &[u8],
    table: &mut Table,
    bytes: &mut [u8],
    device_rows: &mut [u64],
    endpoint_rows: &mut [u64],
    packets: &mut [u64],
    events: &mut [u64],
    transactions: &mut [u64],
    groups: &mut [u64],
    statebytes: &mut [u8],
    states: &mut [u64],
    items: &mut [u64],
    links: &mut [u64],
    requests: &mut [u64],
    shelf: &mut Shelf,
) -> Done
    ensures { Ran high trace.now table.old (logs bytes.old device_rows.old endpoint_rows.old packets.old events.old transactions.old groups.old statebytes.old states.old items.old links.old requests.old) shelf.old result.answer result.place (stand (state result.decoder result.devices table.new (logs bytes.new device_rows.new endpoint_rows.new packets.new events.new transactions.new groups.new statebytes.new states.new items.new links.new requests.new)) shelf.new) }
{
    let blank = fresh_device(0);
    let devices = [blank; 64];
    let header = check_header(trace);
    let answer = header_answer(header);
    if answer != 0 {
        let decoder = refused_decoder();
        return Done {
            answer,
            place: header_place(header),
            decoder,
            devices,
        };
    }
    let made = fresh(
        high,
        devices,
        table,
        bytes,
        device_rows,
        endpoint_rows,
        packets,
        events,
        transactions,
        groups,
        statebytes,
        states,
        items,
        links,
        requests,
    );
    let answer = made.answer;
    let devices = made.devices;
    if answer != 0 {
        return not_made(answer, made.decoder, devices);
    }
    records(
        trace,
        made.decoder,
        devices,
        table,
        bytes,
        device_rows,
        endpoint_rows,
        packets,
        events,
        transactions,
        groups,
        statebytes,
        states,
        items,
        links,
        requests,
        shelf,
    )
}
