// The parts of a step: the rows that it begins with, and the effect that it ends with.
ghost use Rattle.std.specs.Prelude.{false, ◌∷◌, [], ◌≡◌, ◌+◌, ◌*◌, ◌^◌, ◌<◌, ◌≤◌, length};
ghost use Rattle.std.proofs.lemmas.List.Edits.{sets};
ghost use Rattle.rows.specs.Widths.{link_width};
ghost use Rattle.endpoints.specs.Table.{entry_at, store_at};
ghost use Rattle.group.specs.declared.Effect.TheVariants.{NewDevice, IndexData};
ghost use Rattle.transaction.specs.Table.{pick};
ghost use Rattle.update.specs.Effect.{passes, effect_entry};
ghost use Rattle.update.specs.Update.{when};
ghost use Rattle.write_packet.specs.Desk.{desk, with_written, tied_to, plus, opened_hand, new_entry, opened_desk, effect_hand, effect_desk, effect_table, total_words};
ghost use Rattle.write_packet.specs.Asked.{RoomRows, RoomEffect, OnRows, OnEffect};

use crate::Hand;
use endpoints::entry::new_endpoint;
use endpoints::{Table, entry, link};
use group::Effect;
use plan::Begin;
use rows::width;
use transaction::Transaction;
use update::effect::entry_effect;
use write::Written;
use write::leaf::{link_row, put_transaction};

// The transaction's T row.
fn tied_to(t: Transaction, d: Written) -> Written
    ensures { result ≡ tied_to t d }
{
    Written {
        linked: t.linked,
        link: t.link,
        ..d
    }
}

pub fn with_written(h: Hand, d: Written) -> Hand
    ensures { result ≡ with_written d h }
{
    Hand { written: d, ..h }
}

// The counts after the rows of a step that begins, and its transaction's T row.
fn opened_hand(s: Begin, h: Hand) -> Hand
    requires transactions_bound { plus s.row h.transactions < 2 ^ 64 }
    requires devices_bound { plus s.device h.devices < 2 ^ 64 }
    requires endpoints_bound { plus s.endpoint h.endpoints < 2 ^ 64 }
    ensures { result ≡ opened_hand s h }
{
    Hand {
        written: tied_to(s.transaction, h.written),
        transactions: h.transactions + usize::from(s.row),
        devices: h.devices + usize::from(s.device),
        endpoints: h.endpoints + usize::from(s.endpoint),
    }
}

// The entry of a new endpoint, behind n others.
fn entry_if(on: bool, n: usize, place: usize, number: u8, table: &mut Table)
    requires { plus on n ≤ 128 }
    ensures { table.new ≡ when on (new_entry n place number) table.old }
{
    if on {
        entry::store(table, n, new_endpoint(place as u64, number));
    }
}

// The rows of a step that begins, by the call's own packet: a transaction, a device, an endpoint.
pub fn open_rows(
    s: Begin,
    h: Hand,
    table: &mut Table,
    devices: &mut [u64],
    endpoints: &mut [u64],
    transactions: &mut [u64],
) -> Hand
    requires endpoints_bound { plus s.endpoint h.endpoints ≤ 128 }
    requires room_rows { RoomRows (opened_desk s (desk h table.old devices.old endpoints.old transactions.old [] [] [] [] [])) }
    ensures { OnRows (opened_desk s) h table.old devices.old endpoints.old transactions.old result table.new devices.new endpoints.new transactions.new }
{
    let r = opened_hand(s, h);
    let n = h.endpoints;
    let number = s.number;
    put_transaction(s.row, transactions, h.transactions, h.written.stamp);
    rows::put_if(s.device, devices, h.devices, &[s.owner as u64]);
    rows::put_if(
        s.endpoint,
        endpoints,
        n * width::ENDPOINT,
        &[s.place as u64, (number % 128) as u64, (number / 128) as u64],
    );
    entry_if(s.endpoint, n, s.place, number, table);
    r
}

// A device row.
fn device_row(address: u8, h: Hand, devices: &mut [u64]) -> Hand
    requires { h.devices + 1 ≤ length devices.old }
    ensures value { result ≡ effect_hand (NewDevice address) h }
    ensures devices_after { devices.new ≡ sets devices.old h.devices (address ∷ []) }
{
    let n = h.devices;
    rows::put(devices, n, &[address as u64]);
    let mut h = h;
    h.devices = n + 1;
    h
}

// The entry of endpoint x after the effect; link is the T row of the transaction.
fn note(effect: Effect, x: usize, link: u64, table: &mut Table)
    requires x_bound { x < 128 }
    requires x_value { passes effect (entry_at table.old x).total ≡ false }
    ensures { table.new ≡ store_at table.old x (effect_entry effect (entry_at table.old x) link) }
{
    let e = entry_effect(effect, entry::load(table, x), link);
    entry::store(table, x, e);
}

// The T row that a payload is counted under.
fn row_of(waited: bool, i: u64, link: u64) -> u64
    ensures { result ≡ pick waited i link }
{
    if waited { i } else { link }
}

// A D row of endpoint x, with the total before, to which n is added then.
fn total_row(
    n: u64,
    waited: bool,
    i: u64,
    x: usize,
    h: Hand,
    table: &mut Table,
    links: &mut [u64],
) -> Hand
    requires x_bound { x < 128 }
    requires x_value { passes (IndexData n waited i) (entry_at table.old x).total ≡ false }
    requires link_width_in_bounds { (h.written.links + 1) * link_width ≤ length links.old }
    ensures value { result ≡ effect_hand (IndexData n waited i) h }
    ensures table_after { table.new ≡ effect_table (IndexData n waited i) x h.written.link table.old }
    ensures links_after { links.new ≡ sets links.old (h.written.links * link_width) (total_words (IndexData n waited i) x (entry_at table.old x) h.written.link) }
{
    let d = h.written;
    let e = entry::load(table, x);
    let row = row_of(waited, i, d.link);
    note(Effect::IndexData(n, waited, i), x, d.link, table);
    with_written(h, link_row(d, link::D, x, row, e.total, links))
}

// The effect of a transaction's end on endpoint x. A request that completes is read by the caller, who has the shelf and the devices (shelving).
pub fn take_effect(
    effect: Effect,
    x: usize,
    h: Hand,
    table: &mut Table,
    devices: &mut [u64],
    links: &mut [u64],
) -> Hand
    requires x_bound { x < 128 }
    requires x_value { passes effect (entry_at table.old x).total ≡ false }
    requires room_effect { RoomEffect (effect_desk effect x (desk h table.old devices.old [] [] [] [] [] [] links.old)) }
    ensures { OnEffect (effect_desk effect x) h table.old devices.old links.old result table.new devices.new links.new }
{
    match effect {
        Effect::NoEffect | Effect::Request(_) => h,
        Effect::NewDevice(address) => device_row(address, h, devices),
        Effect::PendingData(n) => {
            note(Effect::PendingData(n), x, h.written.link, table);
            h
        }
        Effect::IndexData(n, waited, i) => total_row(n, waited, i, x, h, table, links),
    }
}
