// A block of records in one call (02, change request 3): what the records give one by one, with the record tested once.
#![tactic(auto)]

mod round;

ghost use Rattle.std.specs.Prelude.{false, ◌≡◌};
ghost use Rattle.call.specs.State.{state, logs};
ghost use Rattle.step.specs.Block.{stand, Takes};

use crate::round::{round, taken_of};
use call::room_of;
use details::Device;
use endpoints::Table;
use record::Decoder;
use shelving::Shelf;
use sound::is_sound;
use stream::rounds::{none_yet, with_round};
use trace::clock::Clock;

#[derive(Clone, Copy)]
pub struct Taken {
    // 0, or the answer of the record that stopped it.
    pub answer: u8,
    // The records before that one, each answered 0 or 8, and the 8s among them.
    pub taken: usize,
    pub eights: usize,
    // Where it stopped: the start of that record, or the end.
    pub place: usize,
    // The tick state after the records taken.
    pub clock: Clock,
    pub decoder: Decoder,
    pub devices: [Device; 64],
}

// The records from the place `at` on, up to the first that is refused or to the end. Whether the record is sound is tested once, and calls keep it so: packets then
// go by the inner call. All else goes by a call of its own: other records, packets that are refused before they are looked at, and a record that is not sound.
// `typed` says whether a detail is obeyed, as in a trace, or refused with 20, as in a block (02, 13).
pub fn records(
    typed: bool,
    d: Decoder,
    devices: [Device; 64],
    clock: Clock,
    records: &[u8],
    at: usize,
    table: &mut Table,
    bytes: &mut [u8],
    device_rows: &mut [u64],
    endpoint_rows: &mut [u64],
    packets: &mut [u64],
    events: &mut [u64],
    transactions: &mut [u64],
    groups: &mut [u64],
    statebytes: &mut [u8],
    states: &mut [u64],
    items: &mut [u64],
    links: &mut [u64],
    requests: &mut [u64],
    shelf: &mut Shelf,
) -> Taken
    ensures { Takes typed records.now at clock (stand (state d devices table.old (logs bytes.old device_rows.old endpoint_rows.old packets.old events.old transactions.old groups.old statebytes.old states.old items.old links.old requests.old)) shelf.old) result.taken result.eights result.answer result.place result.clock (stand (state result.decoder result.devices table.new (logs bytes.new device_rows.new endpoint_rows.new packets.new events.new transactions.new groups.new statebytes.new states.new items.new links.new requests.new)) shelf.new) }
{
    let room = room_of(
        bytes.len(),
        device_rows.len(),
        endpoint_rows.len(),
        packets.len(),
        events.len(),
        transactions.len(),
        groups.len(),
        statebytes.len(),
        states.len(),
        items.len(),
        links.len(),
        requests.len(),
    );
    let sound = is_sound(d, devices, table, room);
    let ready = sound & !d.finished;
    let mut run = none_yet(d, devices, clock, at);
    loop {
        let more = round(
            typed,
            ready,
            run,
            records,
            table,
            bytes,
            device_rows,
            endpoint_rows,
            packets,
            events,
            transactions,
            groups,
            statebytes,
            states,
            items,
            links,
            requests,
            shelf,
        );
        run = with_round(run, more);
        if !run.going {
            return taken_of(run);
        }
    }
}

// A block of records without header, from its first byte on; the tick state before it is passed in. A detail in it is refused.
pub fn block(
    d: Decoder,
    devices: [Device; 64],
    clock: Clock,
    block: &[u8],
    table: &mut Table,
    bytes: &mut [u8],
    device_rows: &mut [u64],
    endpoint_rows: &mut [u64],
    packets: &mut [u64],
    events: &mut [u64],
    transactions: &mut [u64],
    groups: &mut [u64],
    statebytes: &mut [u8],
    states: &mut [u64],
    items: &mut [u64],
    links: &mut [u64],
    requests: &mut [u64],
    shelf: &mut Shelf,
) -> Taken
    ensures { Takes false block.now 0 clock (stand (state d devices table.old (logs bytes.old device_rows.old endpoint_rows.old packets.old events.old transactions.old groups.old statebytes.old states.old items.old links.old requests.old)) shelf.old) result.taken result.eights result.answer result.place result.clock (stand (state result.decoder result.devices table.new (logs bytes.new device_rows.new endpoint_rows.new packets.new events.new transactions.new groups.new statebytes.new states.new items.new links.new requests.new)) shelf.new) }
{
    records(
        false,
        d,
        devices,
        clock,
        block,
        0,
        table,
        bytes,
        device_rows,
        endpoint_rows,
        packets,
        events,
        transactions,
        groups,
        statebytes,
        states,
        items,
        links,
        requests,
        shelf,
    )
}
