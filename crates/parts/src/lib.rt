// The listing in parts (document 01, "Trace and listing"), for a program whose buffer does not hold all of it: whole lines of rows, from a row on.
#![tactic(auto)]

ghost use Rattle.std.specs.Prelude.{◌≡◌, ◌<◌};
ghost use Rattle.text.specs.Append.{Room, Appended};
ghost use Rattle.parts.specs.Parts.{row_line, rows_of, state_row, state_rows, state_end, named_of, Told};
ghost use Rattle.parts.specs.Sorts.{line_at, Holds};

use lines::{Kind, state};

// The longest line, so the room that a line is written in.
pub const LONGEST: usize = 156;

// Where a part stops: the row behind its last one, and how many bytes it has.
#[derive(Clone, Copy)]
pub struct Part {
    pub next: usize,
    pub len: usize,
}

// Which rows a log has: those whose line is made of their own words, or states.
#[derive(Clone, Copy)]
enum Lent {
    Words(Kind),
    States,
}

// The kind of log number k: packet bytes have no lines, and states have their own function.
pub fn kind_of(k: u8) -> Option<Kind>
    ensures { result ≡ named_of k }
{
    match k {
        1 => Some(Kind::Device),
        2 => Some(Kind::Endpoint),
        3 => Some(Kind::Packet),
        4 => Some(Kind::Event),
        5 => Some(Kind::Transaction),
        6 => Some(Kind::Group),
        9 => Some(Kind::Item),
        10 => Some(Kind::Link),
        11 => Some(Kind::Request),
        _ => None,
    }
}

// The line of row i of n.
fn line_at(
    out: &mut [u8],
    at: usize,
    lent: Lent,
    i: usize,
    n: usize,
    log: &[u64],
    m: usize,
    statebytes: &[u8],
) -> usize
    requires i_lt_n { i < n }
    requires holds { Holds lent n log.now m statebytes.now }
    requires room { Room out.old at (line_at lent n log.now m statebytes.now i) }
    ensures { Appended out.old at (line_at lent n log.now m statebytes.now i) out.new result }
{
    match lent {
        Lent::Words(kind) => lines::row_at(out, at, kind, i, n, log),
        Lent::States => state::state_at(out, at, i, n, log, m, statebytes),
    }
}

// The lines of the rows from `from` on, of n, while there is room for the longest line.
fn lines_of(
    lent: Lent,
    from: usize,
    n: usize,
    log: &[u64],
    m: usize,
    statebytes: &[u8],
    out: &mut [u8],
) -> Part
    requires { Holds lent n log.now m statebytes.now }
    ensures { Told (line_at lent n log.now m statebytes.now) n from out.old out.new result.next result.len }
{
    let mut next = from;
    let mut len: usize = 0;
    // Stays: a `for` would need a second return, where the buffer is full, and the row for a caller that begins behind the last.
    while next < n && LONGEST <= out.len() - len {
        len = line_at(out, len, lent, next, n, log, m, statebytes);
        next += 1;
    }
    Part { next, len }
}

// A part of the lines of a kind; of n rows those count that the log has.
pub fn lines_from(kind: Kind, from: usize, n: usize, log: &[u64], out: &mut [u8]) -> Part
    ensures { Told (row_line kind log.now) (rows_of kind n log.now) from out.old out.new result.next result.len }
{
    let rows = n.min(log.len() / lines::width_of(kind));
    lines_of(Lent::Words(kind), from, rows, log, 0, b"", out)
}

// A part of the lines of states; of n rows and of m bytes those count that there are.
pub fn state_lines_from(
    from: usize,
    n: usize,
    states: &[u64],
    m: usize,
    statebytes: &[u8],
    out: &mut [u8],
) -> Part
    ensures { Told (state_row (state_rows n states.now) states.now (state_end m statebytes.now) statebytes.now) (state_rows n states.now) from out.old out.new result.next result.len }
{
    let rows = n.min(states.len());
    let end = m.min(statebytes.len());
    lines_of(Lent::States, from, rows, states, end, statebytes, out)
}
