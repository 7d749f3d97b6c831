// What a begin-only packet writes: its own rows, perhaps a transaction row, perhaps a T row.
ghost use Rattle.std.specs.Prelude.{[], ◌∷◌, ◌≡◌, ◌+◌, ◌*◌, ◌^◌, ◌<◌, ◌≤◌, length};
ghost use Rattle.std.proofs.lemmas.List.Edits.{sets};
ghost use Rattle.rows.specs.One.{one};
ghost use Rattle.rows.specs.Sets.{opt};
ghost use Rattle.rows.specs.Widths.{packet_width, transaction_width, link_width};
ghost use Rattle.endpoints.specs.Link.{T};
ghost use Rattle.endpoints.specs.Table.{entry_at};
ghost use Rattle.usb.specs.Packet.{no_reason};
ghost use Rattle.rules.specs.Rows.{naming, transaction_words};
ghost use Rattle.tally.specs.Tallies.{Countable};
ghost use Rattle.quick.specs.Begin.{begin_link, begin_decoder, begin_table};
ghost use Rattle.quick.specs.Room.{most_numbers, rows_room, RowsFit};

use crate::room::{more_rows, rows_fit};
use call::stamp_of;
use endpoints::entry::{load, store};
use endpoints::{Table, link};
use packet::inner::put_packet;
use record::{Counts, Decoder};
use rows::width;
use rules::{EventState, Slot};
use transaction::Transaction;
use usb::reason::NONE;
use write::leaf::put_transaction;

// Whether there is room for it.
pub fn begin_fits(row: bool, l: bool, len: usize, held: Counts, n: Counts, room: Counts) -> bool
    requires len_bound { len ≤ 4096 }
    requires countable { Countable held n }
    ensures { result ≡ rows_room (one row) (one l) len held n room }
{
    let rows = usize::from(row);
    let links = usize::from(l);
    rows_fit(rows, links, len, held, n, room)
}

// The T row of the transaction, where it is to have one, as the link row at n.
fn begin_link(
    l: bool,
    t: Transaction,
    n: usize,
    table: &mut Table,
    links: &mut [u64],
) -> Transaction
    requires endpoint_bound { t.endpoint < 128 }
    requires l_bound { (entry_at table.old t.endpoint).transactions + one l < 2 ^ 64 }
    requires link_width_in_bounds { (n + one l) * link_width ≤ length links.old }
    ensures value { result ≡ begin_link l table.old t }
    ensures table_after { table.new ≡ begin_table l t.endpoint table.old }
    ensures links_after { links.new ≡ sets links.old (n * link_width) (opt l (T ∷ t.endpoint ∷ t.id ∷ 0 ∷ [])) }
{
    if l {
        let x = t.endpoint;
        let mut e = load(table, x);
        let count = e.transactions;
        e.transactions = count + 1;
        store(table, x, e);
        rows::put(links, n * width::LINK, &[link::T, x as u64, t.id, 0]);
        let mut t = t;
        t.linked = true;
        t.link = count;
        return t;
    }
    t
}

// The packet of these bytes at this time, behind the rows held; t is the transaction then. It is a valid packet: a malformed one has no shape.
pub fn begin_only(
    row: bool,
    t: Transaction,
    l: bool,
    held: Counts,
    d: Decoder,
    packet: &[u8],
    time: u64,
    table: &mut Table,
    bytes: &mut [u8],
    packets: &mut [u64],
    transactions: &mut [u64],
    links: &mut [u64],
) -> Decoder
    requires endpoint_bound { t.endpoint < 128 }
    requires l_bound { (entry_at table.old t.endpoint).transactions + one l < 2 ^ 64 }
    requires rows_fit { RowsFit (one row) (one l) (length packet.now) d.counts most_numbers }
    requires packet_in_bounds { held.bytes + length packet.now ≤ length bytes.old }
    requires packet_width_in_bounds { (held.packets + 1) * packet_width ≤ length packets.old }
    requires transaction_width_in_bounds { (held.transactions + one row) * transaction_width ≤ length transactions.old }
    requires link_width_in_bounds { (held.links + one l) * link_width ≤ length links.old }
    ensures value { result ≡ begin_decoder row t l (length packet.now) time table.old d }
    ensures table_after { table.new ≡ begin_table l t.endpoint table.old }
    ensures bytes_after { bytes.new ≡ sets bytes.old held.bytes packet.now }
    ensures packets_after { packets.new ≡ sets packets.old (held.packets * packet_width) (d.counts.bytes ∷ time ∷ []) }
    ensures transactions_after { transactions.new ≡ sets transactions.old (held.transactions * transaction_width) (opt row (transaction_words (naming d.counts.packets no_reason))) }
    ensures links_after { links.new ≡ sets links.old (held.links * link_width) (opt l (T ∷ t.endpoint ∷ t.id ∷ 0 ∷ [])) }
{
    let n = d.counts;
    let stamp = stamp_of(n, time, NONE);
    put_packet(n.bytes, held, packet, time, bytes, packets);
    put_transaction(row, transactions, held.transactions, stamp);
    let transaction = begin_link(l, t, held.links, table, links);
    let counts = more_rows(usize::from(row), usize::from(l), packet.len(), n);
    Decoder {
        counts,
        slot: Slot::Current,
        transaction,
        event: EventState::Idle,
        time,
        ..d
    }
}
