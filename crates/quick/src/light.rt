// What a close-only packet writes whose end is light: its own rows, perhaps a T row, perhaps a D row, and one entry (specs/Light.antt). Most handshakes are.
ghost use Rattle.std.specs.Prelude.{true, false, [], ◌∷◌, ◌≡◌, ◌+◌, ◌*◌, ◌^◌, ◌<◌, ◌≤◌, length};
ghost use Rattle.std.proofs.lemmas.List.Edits.{sets};
ghost use Rattle.rows.specs.One.{one};
ghost use Rattle.rows.specs.Sets.{opt};
ghost use Rattle.rows.specs.Widths.{packet_width, link_width};
ghost use Rattle.endpoints.specs.Link.{T};
ghost use Rattle.transaction.specs.Table.{pick};
ghost use Rattle.rules.specs.World.{with_link};
ghost use Rattle.transaction.specs.Payload.{start_pid};
ghost use Rattle.update.specs.Effect.{passes};
ghost use Rattle.update.specs.Update.{when};
ghost use Rattle.tally.specs.Tallies.{Countable};
ghost use Rattle.write_packet.specs.Desk.{total_words};
ghost use Rattle.quick.specs.Light.{is_quiet, is_counting, is_total, link_rows, light_fits, light_decoder, light_table, light_links};
ghost use Rattle.quick.specs.Room.{most_numbers, more_rows, RowsFit};

use crate::room::{more_rows, rows_fit};
use endpoints::entry::store;
use endpoints::{Endpoint, Table, link};
use group::Effect;
use packet::inner::put_packet;
use plan::End;
use record::{Counts, Decoder};
use rows::width;
use rules::{EventState, Slot};
use transaction::Transaction;
use transaction::payload::start_pid;
use update::Update;
use update::effect::{entry_effect, total_passes};
use update::entry::entry_update;

// Whether an update writes no group row and no item.
fn is_quiet(u: Update) -> bool
    ensures { result ≡ is_quiet u }
{
    !u.over & !u.cut & !u.start & !u.end & !u.item
}

// Whether an effect is nothing, or a payload that is counted.
fn is_counting(effect: Effect) -> bool
    ensures { result ≡ is_counting effect }
{
    matches!(effect, Effect::NoEffect | Effect::IndexData(..))
}

// Whether there is a D row.
fn is_total(effect: Effect) -> bool
    ensures { result ≡ is_total effect }
{
    matches!(effect, Effect::IndexData(..))
}

// The link rows of a light end.
fn link_rows(u: Update, effect: Effect) -> usize
    ensures { result ≡ link_rows u effect }
{
    usize::from(u.link) + usize::from(is_total(effect))
}

// Whether an end is light, and there is room for a packet of so many bytes with it; no byte total passes 2^64 - 1.
pub fn light_fits(end: End, len: usize, held: Counts, n: Counts, room: Counts) -> bool
    requires len_bound { len ≤ 4096 }
    requires countable { Countable held n }
    ensures { result ≡ light_fits end len held n room }
{
    let u = end.update;
    let effect = end.effect;
    let over = total_passes(effect, end.entry.total);
    is_quiet(u)
        & (is_counting(effect) & (!over & rows_fit(0, link_rows(u, effect), len, held, n, room)))
}

// The T row of the transaction, where it gets one, as the link row at n; its endpoint has `count` of them.
fn light_link(l: bool, t: Transaction, count: u64, n: usize, links: &mut [u64]) -> Transaction
    requires { (n + one l) * link_width ≤ length links.old }
    ensures value { result ≡ when l (with_link count) t }
    ensures links_after { links.new ≡ sets links.old (n * link_width) (opt l (T ∷ t.endpoint ∷ t.id ∷ 0 ∷ [])) }
{
    if l {
        rows::put(
            links,
            n * width::LINK,
            &[link::T, t.endpoint as u64, t.id, 0],
        );
        let mut t = t;
        t.linked = true;
        t.link = count;
        return t;
    }
    t
}

// The T row that a D row names: that of a payload which waited, or the transaction's own.
fn payload_row(waited: bool, i: u64, t: u64) -> u64
    ensures { result ≡ pick waited i t }
{
    if waited { i } else { t }
}

// The D row of a payload that is counted, as the link row at n; e is the entry of endpoint x, and t the T row of the transaction.
fn total_row(effect: Effect, x: usize, e: Endpoint, t: u64, n: usize, links: &mut [u64])
    requires { (n + one (is_total effect)) * link_width ≤ length links.old }
    ensures { links.new ≡ sets links.old (n * link_width) (total_words effect x e t) }
{
    match effect {
        Effect::NoEffect | Effect::NewDevice(_) | Effect::Request(_) | Effect::PendingData(_) => {}
        Effect::IndexData(_, waited, i) => {
            let row = payload_row(waited, i, t);
            rows::put(links, n * width::LINK, &[link::D, x as u64, row, e.total]);
        }
    }
}

// The packet of these bytes at this time, behind the rows held; t is the transaction that ends.
pub fn light_only(
    t: Transaction,
    end: End,
    held: Counts,
    d: Decoder,
    packet: &[u8],
    time: u64,
    table: &mut Table,
    bytes: &mut [u8],
    packets: &mut [u64],
    links: &mut [u64],
) -> Decoder
    requires update_value { is_quiet end.update ≡ true }
    requires endpoint_bound { t.endpoint < 128 }
    requires link_bound { end.entry.transactions + one end.update.link < 2 ^ 64 }
    requires total_value { passes end.effect end.entry.total ≡ false }
    requires rows_fit { RowsFit 0 (link_rows end.update end.effect) (length packet.now) d.counts most_numbers }
    requires packet_in_bounds { held.bytes + length packet.now ≤ length bytes.old }
    requires packet_width_in_bounds { (held.packets + 1) * packet_width ≤ length packets.old }
    requires link_width_in_bounds { (held.links + link_rows end.update end.effect) * link_width ≤ length links.old }
    ensures value { result ≡ light_decoder t end (more_rows 0 (link_rows end.update end.effect) (length packet.now) d.counts) d.waiting time d }
    ensures table_after { table.new ≡ light_table t end table.old }
    ensures bytes_after { bytes.new ≡ sets bytes.old held.bytes packet.now }
    ensures packets_after { packets.new ≡ sets packets.old (held.packets * packet_width) (d.counts.bytes ∷ time ∷ []) }
    ensures links_after { links.new ≡ light_links t end held.links links.old }
    ensures style_bound { start_pid t.style < 256 }
{
    let n = d.counts;
    put_packet(n.bytes, held, packet, time, bytes, packets);
    let u = end.update;
    let effect = end.effect;
    let entry = end.entry;
    let transaction = light_link(u.link, t, entry.transactions, held.links, links);
    let e = entry_update(u, start_pid(t.style), entry);
    let row = held.links + usize::from(u.link);
    total_row(effect, t.endpoint, e, transaction.link, row, links);
    store(table, t.endpoint, entry_effect(effect, e, transaction.link));
    let counts = more_rows(0, link_rows(u, effect), packet.len(), n);
    Decoder {
        counts,
        slot: Slot::Empty,
        transaction,
        event: EventState::Idle,
        time,
        ..d
    }
}
