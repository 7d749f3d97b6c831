// The entries that a device keeps of its configurations, in a lent store: 7 bytes for each endpoint that a configuration has.
ghost use Rattle.std.specs.Prelude.{◌≡◌, ◌+◌, ◌≤◌, length, take, drop};
ghost use Rattle.std.proofs.lemmas.List.Edits.{sets};
ghost use Rattle.descriptors.specs.Whole.{whole};
ghost use Rattle.descriptors.specs.Entries.{entry_of, unset, entries_in, entries_of};
ghost use Rattle.descriptors.specs.Steps.{Keeps, Forgets, Reads};

use crate::walk::{Setting, read_step, read_value, whole_at};

// What a read left: how many entries the device has, and how many of them the read added.
#[derive(Clone, Copy)]
pub struct Kept {
    pub count: usize,
    pub added: usize,
}

// Entries that a device keeps, of 7 bytes each.
pub const LIMIT: usize = 585;

// An entry's 7 bytes.
fn put_entry(store: &mut [u8], at: usize, value: u8, s: Setting, d: &[u8])
    requires in_bounds { 7 ≤ length d.now }
    requires at_in_bounds { at + 7 ≤ length store.old }
    ensures { store.new ≡ sets store.old at (entry_of value s d.now) }
{
    let row = [value, s.interface, s.alternate, d[2], d[3], d[4], d[5]];
    rows::put(store, at, &row);
}

// The entries of the descriptors from a place on, behind the `kept` that the store has from `base` on; how many it has then.
fn keep_behind(
    store: &mut [u8],
    base: usize,
    kept: usize,
    payload: &[u8],
    from: usize,
    value: u8,
) -> usize
    requires kept_bound { kept ≤ 585 }
    requires base_in_bounds { base + 4095 ≤ length store.old }
    ensures { Keeps base kept (entries_in value unset (whole (drop from payload.now))) store.old store.new result }
{
    let mut n = kept;
    let mut at = from;
    let mut setting = None;
    while let Some(step) = read_step(payload, at, setting) {
        // Stays: one `if` in the other; of one `if` with both tests that fails, a proof does not learn which did.
        if let Some(s) = step.gives {
            if n < LIMIT {
                put_entry(store, base + n * 7, value, s, &payload[at..step.end]);
                n += 1;
            }
        }
        setting = step.setting;
        at = step.end;
    }
    n
}

// The entries of a configuration read, behind the `kept` that the store has from `base` on; how many it has then.
fn keep(store: &mut [u8], base: usize, kept: usize, payload: &[u8]) -> usize
    requires kept_bound { kept ≤ 585 }
    requires base_in_bounds { base + 4095 ≤ length store.old }
    ensures { Keeps base kept (entries_of payload.now) store.old store.new result }
{
    let Some(value) = read_value(payload) else {
        return kept;
    };
    match whole_at(payload, 0) {
        Some(from) => keep_behind(store, base, kept, payload, from, value),
        None => kept,
    }
}

// The 7 bytes of an entry, moved down.
fn move_entry(store: &mut [u8], to: usize, from: usize)
    requires to_in_bounds { to + 7 ≤ length store.old }
    requires from_in_bounds { from + 7 ≤ length store.old }
    ensures { store.new ≡ sets store.old to (take 7 (drop from store.old)) }
{
    let row = [
        store[from],
        store[from + 1],
        store[from + 2],
        store[from + 3],
        store[from + 4],
        store[from + 5],
        store[from + 6],
    ];
    rows::put(store, to, &row);
}

// The entries of a configuration are forgotten, and the others moved together; how many these are.
fn forget(store: &mut [u8], base: usize, kept: usize, value: u8) -> usize
    requires kept_bound { kept ≤ 585 }
    requires base_in_bounds { base + 4095 ≤ length store.old }
    ensures { Forgets base kept value store.old store.new result }
{
    let mut n = 0;
    for i in 0..kept {
        let from = base + i * 7;
        let to = base + n * 7;
        if store[from] != value {
            move_entry(store, to, from);
            n += 1;
        }
    }
    n
}

// A configuration read: its entries in place of those that the store has of its value.
fn keep_read(store: &mut [u8], base: usize, kept: usize, payload: &[u8]) -> Kept
    requires kept_bound { kept ≤ 585 }
    requires base_in_bounds { base + 4095 ≤ length store.old }
    ensures { Reads base kept payload.now store.old store.new result.count result.added }
{
    let Some(value) = read_value(payload) else {
        return Kept {
            count: kept,
            added: 0,
        };
    };
    let left = forget(store, base, kept, value);
    let count = keep(store, base, left, payload);
    let added = count - left;
    Kept { count, added }
}

// The same where the payload stands in the store itself, `count` bytes from `start` on, with the entries 4,096 bytes further.
// The payload is copied first, so that it is not read where entries are written.
pub fn keep_own(shelf: &mut [u8], start: usize, count: usize, kept: usize) -> Kept
    requires count_bound { count ≤ 4096 }
    requires kept_bound { kept ≤ 585 }
    requires start_in_bounds { start + 8192 ≤ length shelf.old }
    ensures { Reads (start + 4096) kept (take count (drop start shelf.old)) shelf.old shelf.new result.count result.added }
{
    let mut page = [0u8; 4096];
    let stop = start + count;
    rows::put(&mut page, 0, &shelf[start..stop]);
    keep_read(shelf, start + 4096, kept, &page[..count])
}
