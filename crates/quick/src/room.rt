// What a packet that is taken without a plan adds to four logs, and the room for it there: its bytes, its packet row, transaction rows and link rows.
ghost use Rattle.std.specs.Prelude.{◌≡◌, ◌≤◌};
ghost use Rattle.tally.specs.Tallies.{Countable};
ghost use Rattle.quick.specs.Room.{most_numbers, more_rows, rows_room, RowsFit};

use record::Counts;
use tally::up_to;

// The numbers of the next rows after it, where n were numbered.
pub fn more_rows(rows: usize, links: usize, len: usize, n: Counts) -> Counts
    requires { RowsFit rows links len n most_numbers }
    ensures { result ≡ more_rows rows links len n }
{
    let mut n = n;
    n.bytes = n.bytes + len;
    n.packets = n.packets + 1;
    n.transactions = n.transactions + rows;
    n.links = n.links + links;
    n
}

// Whether there is room for it: behind the rows held, and by their numbers.
pub fn rows_fit(
    rows: usize,
    links: usize,
    len: usize,
    held: Counts,
    n: Counts,
    room: Counts,
) -> bool
    requires rows_bound { rows ≤ 4096 }
    requires links_bound { links ≤ 4096 }
    requires len_bound { len ≤ 4096 }
    requires countable { Countable held n }
    ensures { result ≡ rows_room rows links len held n room }
{
    (held.bytes + len <= room.bytes)
        & (held.packets + 1 <= room.packets)
        & (held.transactions + rows <= room.transactions)
        & (held.links + links <= room.links)
        & up_to(n.bytes, len)
        & up_to(n.packets, 1)
        & up_to(n.transactions, rows)
        & up_to(n.links, links)
}
