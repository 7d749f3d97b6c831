// The packets of a pcap file as packet calls, in the file's order (02, 4), on the record that is given, like a block.
#![tactic(auto)]

mod round;

ghost use Rattle.std.specs.Prelude.{◌≡◌, Err};
ghost use Rattle.call.specs.State.{state, logs};
ghost use Rattle.step.specs.Block.{stand};
ghost use Rattle.import.specs.Import.{Imports, ImportsFile};
ghost use Rattle.import.specs.Steps.{unread};

use crate::round::{imported_of, round};
use call::room_of;
use details::Device;
use endpoints::Table;
use pcap::{Format, HeadError, check_head, head_answer, head_place};
use record::Decoder;
use shelving::Shelf;
use sound::is_sound;
use stream::rounds::{none_yet, with_round};
use trace::clock::fresh;

#[derive(Clone, Copy)]
pub struct Imported {
    // 0, or the answer that stopped it: the head's, a record's, or its call's.
    pub answer: u8,
    // The records before that one, each answered 0 or 8, and the 8s among them.
    pub taken: usize,
    pub eights: usize,
    // Where it stopped: the start of that record, the place of the head's fault, or the end.
    pub place: usize,
    pub decoder: Decoder,
    pub devices: [Device; 64],
}

// The records from the place `at` on, up to the first that is refused or to the end. Of a file that is lent in parts a part may end within a record: it is refused with 16, and
// the caller goes on from its place with more. Whether the record is sound is tested once, as by a block (block::records).
pub fn import_from(
    f: Format,
    d: Decoder,
    devices: [Device; 64],
    file: &[u8],
    at: usize,
    table: &mut Table,
    bytes: &mut [u8],
    device_rows: &mut [u64],
    endpoint_rows: &mut [u64],
    packets: &mut [u64],
    events: &[u64],
    transactions: &mut [u64],
    groups: &mut [u64],
    statebytes: &mut [u8],
    states: &mut [u64],
    items: &mut [u64],
    links: &mut [u64],
    requests: &mut [u64],
    shelf: &mut Shelf,
) -> Imported
    ensures { Imports f file.now at (stand (state d devices table.old (logs bytes.old device_rows.old endpoint_rows.old packets.old events.now transactions.old groups.old statebytes.old states.old items.old links.old requests.old)) shelf.old) result.taken result.eights result.answer result.place (stand (state result.decoder result.devices table.new (logs bytes.new device_rows.new endpoint_rows.new packets.new events.now transactions.new groups.new statebytes.new states.new items.new links.new requests.new)) shelf.new) }
{
    let room = room_of(
        bytes.len(),
        device_rows.len(),
        endpoint_rows.len(),
        packets.len(),
        events.len(),
        transactions.len(),
        groups.len(),
        statebytes.len(),
        states.len(),
        items.len(),
        links.len(),
        requests.len(),
    );
    let sound = is_sound(d, devices, table, room);
    let ready = sound & !d.finished;
    let mut run = none_yet(d, devices, fresh(), at);
    loop {
        let more = round(
            f,
            ready,
            run,
            file,
            table,
            bytes,
            device_rows,
            endpoint_rows,
            packets,
            events,
            transactions,
            groups,
            statebytes,
            states,
            items,
            links,
            requests,
            shelf,
        );
        run = with_round(run, more);
        if !run.going {
            return imported_of(run);
        }
    }
}

// A head that is refused.
fn unread_head(error: HeadError, d: Decoder, devices: [Device; 64]) -> Imported
    ensures { result ≡ unread (Err error) d devices }
{
    Imported {
        answer: head_answer(Err(error)),
        taken: 0,
        eights: 0,
        place: head_place(Err(error)),
        decoder: d,
        devices,
    }
}

// A whole file: its head, then the records behind it.
pub fn import(
    d: Decoder,
    devices: [Device; 64],
    file: &[u8],
    table: &mut Table,
    bytes: &mut [u8],
    device_rows: &mut [u64],
    endpoint_rows: &mut [u64],
    packets: &mut [u64],
    events: &[u64],
    transactions: &mut [u64],
    groups: &mut [u64],
    statebytes: &mut [u8],
    states: &mut [u64],
    items: &mut [u64],
    links: &mut [u64],
    requests: &mut [u64],
    shelf: &mut Shelf,
) -> Imported
    ensures { ImportsFile file.now (stand (state d devices table.old (logs bytes.old device_rows.old endpoint_rows.old packets.old events.now transactions.old groups.old statebytes.old states.old items.old links.old requests.old)) shelf.old) result.taken result.eights result.answer result.place (stand (state result.decoder result.devices table.new (logs bytes.new device_rows.new endpoint_rows.new packets.new events.now transactions.new groups.new statebytes.new states.new items.new links.new requests.new)) shelf.new) }
{
    match check_head(file) {
        Ok(f) => import_from(
            f,
            d,
            devices,
            file,
            24,
            table,
            bytes,
            device_rows,
            endpoint_rows,
            packets,
            events,
            transactions,
            groups,
            statebytes,
            states,
            items,
            links,
            requests,
            shelf,
        ),
        Err(error) => unread_head(error, d, devices),
    }
}
