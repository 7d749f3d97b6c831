// Making a fresh decoder (fn new of decoder.rs; 01, "Making a fresh decoder").
ghost use Rattle.std.specs.Prelude.{◌≡◌, ◌≤◌, length};
ghost use Rattle.std.proofs.lemmas.List.Edits.{sets};
ghost use Rattle.rules.specs.Decoder.{fresh};
ghost use Rattle.rules.specs.Rows.{log};
ghost use Rattle.record.specs.Fresh.{clear_table, fresh_table};
ghost use Rattle.call.specs.State.{logs, state};
ghost use Rattle.start.specs.Fresh.{fresh_answer, Makes};

use call::{Called, room_of};
use details::{Device, EVENT_EP_NUM, FRAMING_EP_NUM, INVALID_EP_NUM, fresh_device};
use endpoints::Table;
use endpoints::entry::{new_endpoint, store};
use record::Counts;
use record::fresh::{fresh_decoder, refused_decoder};
use record::room::{fits, too_long};

// 1 before 7, else 0.
// Stays: the answer is a number of 01 that `Called` holds; a Result would be turned into it at once.
fn fresh_answer(room: Counts) -> u8
    ensures { result ≡ fresh_answer room }
{
    if too_long(room) {
        return 1;
    }
    if fits(fresh_decoder(false).counts, room) {
        0
    } else {
        7
    }
}

// Every word 0: of what a caller left in the table no call of a fresh decoder sees anything.
fn clear_table(table: &mut Table)
    ensures { table.new ≡ clear_table table.old }
{
    table.fill(0);
}

// The entries of the three special endpoints, in a cleared table.
fn store_specials(table: &mut Table)
    ensures { table.new ≡ fresh_table table.old }
{
    clear_table(table);
    let event = new_endpoint(0, EVENT_EP_NUM);
    store(table, 0, event);
    let invalid = new_endpoint(0, INVALID_EP_NUM);
    store(table, 1, invalid);
    let framing = new_endpoint(0, FRAMING_EP_NUM);
    store(table, 2, framing);
}

// One device row, at address 0.
fn put_device(device_rows: &mut [u64])
    requires { 1 ≤ length device_rows.old }
    ensures { device_rows.new ≡ sets device_rows.old 0 (log 1 fresh.journal) }
{
    rows::put(device_rows, 0, &[0]);
}

// Three endpoint rows, of rows::width::ENDPOINT words each: the device, the number, and direction 0.
fn put_specials(endpoint_rows: &mut [u64])
    requires { 9 ≤ length endpoint_rows.old }
    ensures { endpoint_rows.new ≡ sets endpoint_rows.old 0 (log 2 fresh.journal) }
{
    rows::put(endpoint_rows, 0, &[0, EVENT_EP_NUM as u64, 0]);
    rows::put(endpoint_rows, 3, &[0, INVALID_EP_NUM as u64, 0]);
    rows::put(endpoint_rows, 6, &[0, FRAMING_EP_NUM as u64, 0]);
}

// A fresh decoder on the lent table and logs, of which it writes the first rows of two; high is the mode for high-bandwidth isochronous data.
pub fn fresh(
    high: bool,
    devices: [Device; 64],
    table: &mut Table,
    bytes: &[u8],
    device_rows: &mut [u64],
    endpoint_rows: &mut [u64],
    packets: &[u64],
    events: &[u64],
    transactions: &[u64],
    groups: &[u64],
    statebytes: &[u8],
    states: &[u64],
    items: &[u64],
    links: &[u64],
    requests: &[u64],
) -> Called
    ensures { Makes high devices table.old (logs bytes.now device_rows.old endpoint_rows.old packets.now events.now transactions.now groups.now statebytes.now states.now items.now links.now requests.now) result.answer (state result.decoder result.devices table.new (logs bytes.now device_rows.new endpoint_rows.new packets.now events.now transactions.now groups.now statebytes.now states.now items.now links.now requests.now)) }
{
    let room = room_of(
        bytes.len(),
        device_rows.len(),
        endpoint_rows.len(),
        packets.len(),
        events.len(),
        transactions.len(),
        groups.len(),
        statebytes.len(),
        states.len(),
        items.len(),
        links.len(),
        requests.len(),
    );
    let answer = fresh_answer(room);
    if answer != 0 {
        let decoder = refused_decoder();
        return Called {
            answer,
            decoder,
            devices,
        };
    }
    put_device(device_rows);
    put_specials(endpoint_rows);
    store_specials(table);
    let mut devices = devices;
    devices[0] = fresh_device(0);
    let decoder = fresh_decoder(high);
    Called {
        answer,
        decoder,
        devices,
    }
}
