// The lines of the listing (document 01, "Trace and listing"), appended to a lent buffer from a place on; each function gives the next place.
#![tactic(auto)]

mod number;
mod state;

ghost use Rattle.std.specs.Prelude.{◌∷◌, [], ◌++◌};
ghost use Rattle.text.specs.Append.{Room, Appended};
ghost use Rattle.text.specs.Words.{space, title, too_long};
ghost use Rattle.text.specs.Numbers as numbers;
ghost use Rattle.text.specs.Lines as lines;

fn field(out: &mut [u8], at: usize, n: u64) -> usize
    requires { Room out.old at (space ∷ numbers.decimal n) }
    ensures { Appended out.old at (space ∷ numbers.decimal n) out.new result }
{
    let next = number::byte(out, at, b' ');
    number::decimal(out, next, n)
}

fn fields(out: &mut [u8], at: usize, ns: &[u64]) -> usize
    requires { Room out.old at (lines.fields ns.now) }
    ensures { Appended out.old at (lines.fields ns.now) out.new result }
{
    let mut next = at;
    for n in ns {
        next = field(out, next, *n);
    }
    next
}

// A word, numbers each after a space, and an ending.
fn line(out: &mut [u8], at: usize, word: &[u8], ns: &[u64], ending: &[u8]) -> usize
    requires { Room out.old at (lines.line word.now ns.now ending.now) }
    ensures { Appended out.old at (lines.line word.now ns.now ending.now) out.new result }
{
    let next = number::word(out, at, word);
    let next = fields(out, next, ns);
    number::word(out, next, ending)
}

pub fn title_line(out: &mut [u8], at: usize) -> usize
    requires { Room out.old at title }
    ensures { Appended out.old at title out.new result }
{
    number::word(out, at, b"UTL 1\n")
}

pub fn device_line(out: &mut [u8], at: usize, row: u64, address: u64) -> usize
    requires { Room out.old at (lines.device_line row (address ∷ [])) }
    ensures { Appended out.old at (lines.device_line row (address ∷ [])) out.new result }
{
    line(out, at, b"device", &[row, address], b"\n")
}

// The special endpoints have names, an ordinary one a number and a direction.
pub fn endpoint_line(
    out: &mut [u8],
    at: usize,
    row: u64,
    device: u64,
    number: u64,
    direction: u64,
) -> usize
    requires { Room out.old at (lines.endpoint_line row (device ∷ number ∷ direction ∷ [])) }
    ensures { Appended out.old at (lines.endpoint_line row (device ∷ number ∷ direction ∷ [])) out.new result }
{
    match number {
        16 => line(out, at, b"endpoint", &[row, device], b" event\n"),
        17 => line(out, at, b"endpoint", &[row, device], b" invalid\n"),
        18 => line(out, at, b"endpoint", &[row, device], b" framing\n"),
        _ if direction == 1 => line(out, at, b"endpoint", &[row, device, number], b" in\n"),
        _ => line(out, at, b"endpoint", &[row, device, number], b" out\n"),
    }
}

pub fn packet_line(out: &mut [u8], at: usize, row: u64, start: u64, time: u64) -> usize
    requires { Room out.old at (lines.packet_line row (start ∷ time ∷ [])) }
    ensures { Appended out.old at (lines.packet_line row (start ∷ time ∷ [])) out.new result }
{
    line(out, at, b"packet", &[row, start, time], b"\n")
}

pub fn event_line(out: &mut [u8], at: usize, row: u64, packet: u64, code: u64) -> usize
    requires { Room out.old at (lines.event_line row (packet ∷ code ∷ [])) }
    ensures { Appended out.old at (lines.event_line row (packet ∷ code ∷ [])) out.new result }
{
    line(out, at, b"event", &[row, packet, code], b"\n")
}

pub fn transaction_line(out: &mut [u8], at: usize, row: u64, packet: u64, reason: u64) -> usize
    requires { Room out.old at (lines.transaction_line row (packet ∷ reason ∷ [])) }
    ensures { Appended out.old at (lines.transaction_line row (packet ∷ reason ∷ [])) out.new result }
{
    line(out, at, b"transaction", &[row, packet, reason], b"\n")
}

// Whether it is the group's start or its end, and the packet and the time of the call.
fn group_tail(out: &mut [u8], at: usize, start: u64, packet: u64, time: u64) -> usize
    requires { Room out.old at (lines.group_tail start packet time) }
    ensures { Appended out.old at (lines.group_tail start packet time) out.new result }
{
    if start == 1 {
        line(out, at, b" start", &[packet, time], b"\n")
    } else {
        line(out, at, b" end", &[packet, time], b"\n")
    }
}

pub fn group_line(
    out: &mut [u8],
    at: usize,
    row: u64,
    endpoint: u64,
    group: u64,
    start: u64,
    packet: u64,
    time: u64,
) -> usize
    requires { Room out.old at (lines.group_line row (endpoint ∷ group ∷ start ∷ packet ∷ time ∷ [])) }
    ensures { Appended out.old at (lines.group_line row (endpoint ∷ group ∷ start ∷ packet ∷ time ∷ [])) out.new result }
{
    let next = line(out, at, b"group", &[row, endpoint, group], b"");
    group_tail(out, next, start, packet, time)
}

pub fn state_line(out: &mut [u8], at: usize, row: u64, states: &[u8]) -> usize
    requires { Room out.old at (lines.state_line row states.now) }
    ensures { Appended out.old at (lines.state_line row states.now) out.new result }
{
    let next = line(out, at, b"state", &[row], b" ");
    let next = state::letters(out, next, states);
    number::byte(out, next, b'\n')
}

pub fn item_line(out: &mut [u8], at: usize, row: u64, group: u64) -> usize
    requires { Room out.old at (lines.item_line row (group ∷ [])) }
    ensures { Appended out.old at (lines.item_line row (group ∷ [])) out.new result }
{
    line(out, at, b"item", &[row, group], b"\n")
}

// Kinds T, G, D and E; `total` is D's alone.
pub fn link_line(out: &mut [u8], at: usize, kind: u64, endpoint: u64, n: u64, total: u64) -> usize
    requires { Room out.old at (lines.link_line (kind ∷ endpoint ∷ n ∷ total ∷ [])) }
    ensures { Appended out.old at (lines.link_line (kind ∷ endpoint ∷ n ∷ total ∷ [])) out.new result }
{
    match kind {
        0 => line(out, at, b"link T", &[endpoint, n], b"\n"),
        1 => line(out, at, b"link G", &[endpoint, n], b"\n"),
        2 => line(out, at, b"link D", &[endpoint, n, total], b"\n"),
        _ => line(out, at, b"link E", &[endpoint, n], b"\n"),
    }
}

// How the line of a request ends: what was taken of it, and how much.
fn note_end(out: &mut [u8], at: usize, what: u64, count: u64) -> usize
    requires { Room out.old at (lines.note_end what count) }
    ensures { Appended out.old at (lines.note_end what count) out.new result }
{
    match what {
        1 => line(out, at, b" max", &[count], b"\n"),
        2 => line(out, at, b" read", &[count], b"\n"),
        3 => line(out, at, b" set", &[count], b"\n"),
        _ => number::word(out, at, b" none\n"),
    }
}

pub fn request_line(
    out: &mut [u8],
    at: usize,
    row: u64,
    endpoint: u64,
    setup: u64,
    length: u64,
    note: u64,
) -> usize
    requires { Room out.old at (lines.request_line row (endpoint ∷ setup ∷ length ∷ note ∷ [])) }
    ensures { Appended out.old at (lines.request_line row (endpoint ∷ setup ∷ length ∷ note ∷ [])) out.new result }
{
    let next = line(out, at, b"request", &[row, endpoint], b" ");
    let next = number::hex_setup(out, next, setup);
    let next = field(out, next, length);
    note_end(out, next, note % 4, note / 4)
}

// The last line: how many details were typed in; none where there are none.
pub fn details_line(out: &mut [u8], at: usize, n: u64) -> usize
    requires { Room out.old at (lines.details_line n) }
    ensures { Appended out.old at (lines.details_line n) out.new result }
{
    if n == 0 {
        return at;
    }
    line(out, at, b"details", &[n], b"\n")
}

pub fn refused_line(out: &mut [u8], at: usize, answer: u64, place: u64) -> usize
    requires { Room out.old at (lines.refused_line answer place) }
    ensures { Appended out.old at (lines.refused_line answer place) out.new result }
{
    let next = line(out, at, b"refused", &[answer], b"");
    line(out, next, b" at", &[place], b"\n")
}

pub fn too_long_line(out: &mut [u8], at: usize) -> usize
    requires { Room out.old at too_long }
    ensures { Appended out.old at too_long out.new result }
{
    number::word(out, at, b"too long\n")
}
