// The packets that a block or an import takes by the inner call, one after the other, in a loop that owns the devices and is lent the shelf.
#![tactic(auto)]

mod address;
pub mod part;
pub mod piece;
pub mod rounds;
mod sight;

ghost use Rattle.call.specs.State.{state, logs};
ghost use Rattle.step.specs.Block.{stand};
ghost use Rattle.stream.specs.Led.{Fits, Runs};

use crate::address::addresses_of;
use crate::part::{Reader, part_at};
use crate::sight::{near_by, sight_of};
use details::Device;
use endpoints::Table;
use packet::change::{added_by, is_change, row_by};
use quick::quick_in;
use record::Decoder;
use shelving::{Shelf, put_request, shelve};
use step::{eight, goes_on};
use trace::clock::Clock;

// Where it ends: at a record that it doesn't take, so its caller goes on there; or at a packet that was refused, with that answer.
#[derive(Clone, Copy)]
pub struct Run {
    pub going: bool,
    pub answer: u8,
    pub taken: usize,
    pub eights: usize,
    pub place: usize,
    pub clock: Clock,
    pub decoder: Decoder,
    pub devices: [Device; 64],
}

// The packets from the place `at` on, as the reader finds them, up to one that is refused or to another record. Where `ready` is false, none.
pub fn run_packets(
    reader: Reader,
    ready: bool,
    d: Decoder,
    devices: [Device; 64],
    clock: Clock,
    records: &[u8],
    at: usize,
    table: &mut Table,
    bytes: &mut [u8],
    device_rows: &mut [u64],
    endpoint_rows: &mut [u64],
    packets: &mut [u64],
    events: &[u64],
    transactions: &mut [u64],
    groups: &mut [u64],
    statebytes: &mut [u8],
    states: &mut [u64],
    items: &mut [u64],
    links: &mut [u64],
    requests: &mut [u64],
    shelf: &mut Shelf,
) -> Run
    requires { Fits ready (state d devices table.old (logs bytes.old device_rows.old endpoint_rows.old packets.old events.now transactions.old groups.old statebytes.old states.old items.old links.old requests.old)) }
    ensures { Runs reader records.now at clock (stand (state d devices table.old (logs bytes.old device_rows.old endpoint_rows.old packets.old events.now transactions.old groups.old statebytes.old states.old items.old links.old requests.old)) shelf.old) result table.new (logs bytes.new device_rows.new endpoint_rows.new packets.new events.now transactions.new groups.new statebytes.new states.new items.new links.new requests.new) shelf.new }
{
    let mut decoder = d;
    let mut addresses = addresses_of(devices);
    let mut devices = devices;
    let mut clock = clock;
    let mut at = at;
    let mut taken: usize = 0;
    let mut eights: usize = 0;
    loop {
        let part = part_at(reader, ready, clock, records, at);
        if !part.taken {
            return Run {
                going: true,
                answer: 0,
                taken,
                eights,
                place: at,
                clock,
                decoder,
                devices,
            };
        }
        let begin = part.start;
        let end = part.end;
        let packet = &records[begin..end];
        let sight = sight_of(addresses, decoder, table, packet);
        let place = sight.place;
        let owner = sight.owner;
        let row = devices[place];
        let held = devices[owner];
        let near = near_by(sight, row, held);
        let r = quick_in(
            decoder,
            near,
            packet,
            part.time,
            table,
            bytes,
            device_rows,
            endpoint_rows,
            packets,
            events,
            transactions,
            groups,
            statebytes,
            states,
            items,
            links,
            requests,
        );
        let left = r.decoder;
        if !goes_on(r.answer) {
            return Run {
                going: false,
                answer: r.answer,
                taken,
                eights,
                place: at,
                clock,
                decoder: left,
                devices,
            };
        }
        decoder = left;
        clock = Clock {
            started: true,
            last: part.ticks,
            time: part.time,
        };
        at = part.next;
        taken += 1;
        eights += eight(r.answer);
        let c = r.change;
        // Row by row, as make_change (packet) does it: handed to that, all devices would be copied in and out, and all addresses taken anew (docs/SPEED.md).
        if is_change(c) {
            let t = c.reading;
            let place = c.place;
            let row = row_by(c, devices[place]);
            devices[place] = row;
            addresses[place] = row.address;
            let place = t.place;
            // A slice of its own: lent `packet`, which is not inlined there, the loop would keep that in memory (docs/SPEED.md).
            let s = shelve(shelf, t, devices[place], &records[begin..end]);
            let kept = s.row;
            devices[place] = kept;
            addresses[place] = kept.address;
            put_request(requests, c.row, t, s.note);
            let place = c.at;
            let added = added_by(c, devices[place]);
            devices[place] = added;
            addresses[place] = added.address;
        }
    }
}
