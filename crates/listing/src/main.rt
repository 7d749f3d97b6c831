// The program `listing` (01, "Trace and listing"): reads a trace from standard input, and writes its rows, or the line that refuses it, to standard output.
// Started with `--high` it decodes in the mode for high-bandwidth isochronous data (02, change request 6).
#![tactic(auto)]

ghost use Rattle.std.specs.Prelude.{◌≤◌, [], length, IfOk};
ghost use Rattle.text.specs.Append.{Room, Appended};
ghost use Rattle.call.specs.State.{logs};
ghost use Rattle.listing.specs.Prints.{no_rows, shown, Printed, text_room};
ghost use Rattle.listing.specs.Shows.{Listable, Shows};

use endpoints::{Table, word};
use record::Counts;
use run::run;
use shelving::Shelf;
use std::env::{Env, FillError};
use std::io;
use std::io::{Read, Write};
use trace::details::count_details;

// The longest trace (docs/SIZES.md).
const INPUT: usize = 16384;

// A line of at most 156 bytes (text, Lengths) for each of the 2,432 rows that there is room for, and one more for title and last line.
const TEXT: usize = 156 * 2433;

// What is shown of a run that ended with this answer at this place: the listing, and how many details the trace has; or the refusal. Gives its length.
fn report(
    answer: u8,
    place: usize,
    details: usize,
    n: Counts,
    device_rows: &[u64],
    endpoint_rows: &[u64],
    packets: &[u64],
    events: &[u64],
    transactions: &[u64],
    groups: &[u64],
    statebytes: &[u8],
    states: &[u64],
    items: &[u64],
    links: &[u64],
    requests: &[u64],
    out: &mut [u8],
) -> usize
    requires listable { Listable answer n (logs [] device_rows.now endpoint_rows.now packets.now events.now transactions.now groups.now statebytes.now states.now items.now links.now requests.now) }
    requires room { Room out.old 0 (shown answer place details n (logs [] device_rows.now endpoint_rows.now packets.now events.now transactions.now groups.now statebytes.now states.now items.now links.now requests.now)) }
    ensures { Appended out.old 0 (shown answer place details n (logs [] device_rows.now endpoint_rows.now packets.now events.now transactions.now groups.now statebytes.now states.now items.now links.now requests.now)) out.new result }
{
    if answer != 0 {
        return text::refused_line(out, 0, answer as u64, place as u64);
    }
    let next = lines::list(
        n,
        device_rows,
        endpoint_rows,
        packets,
        events,
        transactions,
        groups,
        statebytes,
        states,
        items,
        links,
        requests,
        out,
    );
    text::details_line(out, next, details as u64)
}

// The text of a trace that is run on the lent table, logs and shelf; gives its length.
fn show(
    high: bool,
    trace: &[u8],
    table: &mut Table,
    bytes: &mut [u8],
    device_rows: &mut [u64],
    endpoint_rows: &mut [u64],
    packets: &mut [u64],
    events: &mut [u64],
    transactions: &mut [u64],
    groups: &mut [u64],
    statebytes: &mut [u8],
    states: &mut [u64],
    items: &mut [u64],
    links: &mut [u64],
    requests: &mut [u64],
    shelf: &mut Shelf,
    out: &mut [u8],
) -> usize
    requires { text_room (logs bytes.old device_rows.old endpoint_rows.old packets.old events.old transactions.old groups.old statebytes.old states.old items.old links.old requests.old) ≤ length out.old }
    ensures { Shows high trace.now table.old (logs bytes.old device_rows.old endpoint_rows.old packets.old events.old transactions.old groups.old statebytes.old states.old items.old links.old requests.old) shelf.old out.old out.new result }
{
    let r = run(
        high,
        trace,
        table,
        bytes,
        device_rows,
        endpoint_rows,
        packets,
        events,
        transactions,
        groups,
        statebytes,
        states,
        items,
        links,
        requests,
        shelf,
    );
    report(
        r.answer,
        r.place,
        count_details(trace),
        r.decoder.counts,
        device_rows,
        endpoint_rows,
        packets,
        events,
        transactions,
        groups,
        statebytes,
        states,
        items,
        links,
        requests,
        out,
    )
}

// What is printed for this trace; gives its length.
fn print(high: bool, trace: &[u8], out: &mut [u8]) -> usize
    requires { text_room no_rows ≤ length out.old }
    ensures { Printed high trace.now out.old out.new result }
{
    if INPUT < trace.len() {
        return text::too_long_line(out, 0);
    }
    let mut table = [0u64; word::TABLE];
    let mut bytes = [0u8; 8192];
    let mut device_rows = [0u64; 64];
    let mut endpoint_rows = [0u64; 384];
    let mut packets = [0u64; 1024];
    let mut events = [0u64; 256];
    let mut transactions = [0u64; 768];
    let mut groups = [0u64; 960];
    let mut statebytes = [0u8; 6144];
    let mut states = [0u64; 192];
    let mut items = [0u64; 192];
    let mut links = [0u64; 2304];
    let mut requests = [0u64; 256];
    let mut shelf = [0u8; 524288];
    show(
        high,
        trace,
        &mut table,
        &mut bytes,
        &mut device_rows,
        &mut endpoint_rows,
        &mut packets,
        &mut events,
        &mut transactions,
        &mut groups,
        &mut statebytes,
        &mut states,
        &mut items,
        &mut links,
        &mut requests,
        &mut shelf,
        out,
    )
}

// Reads standard input into buf, up to its end or as far as buf goes; gives how many bytes. Read::read_exact does not tell an end from a failure.
fn read_input(from: &mut impl Read, buf: &mut [u8]) -> io::Result<usize>
    ensures { IfOk result (λ len. len ≤ length buf.new) }
{
    let mut len: usize = 0;
    while len < buf.len() {
        let n = from.read(&mut buf[len..])?;
        if n == 0 {
            break;
        }
        len += n;
    }
    Ok(len)
}

// What failed, said on standard error: the program's exit status does not say it (docs/DECISIONS.md, 73).
fn fail(rt: &impl Eprint, line: &str) {
    let _ = rt.eprintln(line);
}

// Whether the program was started with an argument of this number.
fn has_arg(rt: &impl Env, i: usize) -> bool {
    let mut start = [0u8; 6];
    !matches!(rt.arg(i, &mut start), Err(FillError::NotPresent))
}

// Whether `--high` is the one argument that the program was started with. A longer one does not fit.
fn is_high(rt: &impl Env) -> bool {
    let mut first = [0u8; 6];
    let Ok(n) = rt.arg(1, &mut first) else {
        return false;
    };
    first[..n] == b"--high"[..] && !has_arg(rt, 2)
}

fn main(rt: HostRuntime) {
    let high = is_high(&rt);
    if !high && has_arg(&rt, 1) {
        fail(&rt, "usage: listing [--high] < TRACE.utl");
        return;
    }
    // One byte more tells that the trace is too long.
    let mut input = [0u8; INPUT + 1];
    let Ok(len) = read_input(&mut rt.stdin(), &mut input) else {
        fail(&rt, "listing: standard input could not be read");
        return;
    };
    let mut out = [0u8; TEXT];
    let end = print(high, &input[..len], &mut out);
    if io::writer(&rt).write_all(&out[..end]).is_err() {
        fail(&rt, "listing: standard output could not be written");
    }
}
