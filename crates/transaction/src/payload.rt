// What a data packet brings to a transaction: setup bytes or a payload.
ghost use Rattle.std.specs.Prelude.{◌≡◌, ◌-◌};
ghost use Rattle.transaction.specs.Payload.{start_pid, split_setup, takes_setup, yields, extract_payload};

use crate::{Style, Transaction};
use usb::pid::{DATA0, DATA1, DATA2, MDATA, SETUP};
use usb::types::{CONTROL, START};

// The PID of the token that began the transaction; 0 where there is none, which the Rust refuses.
pub fn start_pid(style: Style) -> u8
    ensures { result ≡ start_pid style }
{
    match style {
        Style::Simple(pid) | Style::Token(.., pid) => pid,
        Style::Nothing | Style::Split(..) => 0,
    }
}

fn split_setup(sc: u8, kind: u8, pid: u8) -> bool
    ensures { result ≡ split_setup sc kind pid }
{
    sc == START && kind == CONTROL && pid == SETUP
}

// Whether a DATA0 brings setup bytes.
pub fn takes_setup(style: Style) -> bool
    ensures { result ≡ takes_setup style }
{
    match style {
        Style::Simple(first) => first == SETUP,
        Style::Token(sc, kind, pid) => split_setup(sc, kind, pid),
        Style::Nothing | Style::Split(..) => false,
    }
}

// The length of the payload of a data packet: its bytes but the PID and the CRC.
fn payload_len(len: usize) -> u64
    ensures { result ≡ len - 3 }
{
    len.saturating_sub(3) as u64
}

// Whether a packet with this PID brings a payload: DATA2 and MDATA do in the mode alone.
pub fn yields(high: bool, pid: u8) -> bool
    ensures { result ≡ yields high pid }
{
    match pid {
        DATA0 | DATA1 => true,
        DATA2 | MDATA => high,
        _ => false,
    }
}

// The transaction after a packet with this PID and of len bytes; setup is what the packet holds as setup bytes.
pub fn extract_payload(
    high: bool,
    mut t: Transaction,
    pid: u8,
    len: usize,
    setup: u64,
) -> Transaction
    ensures { result ≡ extract_payload high t pid len setup }
{
    if pid == DATA0 && takes_setup(t.style) {
        t.ready = true;
        t.setup = setup;
        return t;
    }
    if yields(high, pid) {
        t.filled = true;
        t.payload = payload_len(len);
    }
    t
}
