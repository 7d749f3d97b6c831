// A packet where there is no transaction, or a plain one.
ghost use Rattle.std.specs.Prelude.{◌≡◌};
ghost use Rattle.usb.specs.Pid.{ACK, DATA0, DATA1, NAK, NYET};
ghost use Rattle.transaction.specs.Simple.{start_status, by_kind, simple_status_in};
ghost use Rattle.transaction.specs.High.{simple_status, is_high};

use crate::Status;
use usb::pid::{
    ACK, DATA0, DATA1, DATA2, IN, MALFORMED, MDATA, NAK, NYET, OUT, PING, SETUP, SOF, SPLIT, STALL,
};
use usb::types::{BULK, CONTROL, INTERRUPT, ISOCHRONOUS};

pub fn start_status(next: u8) -> Status
    ensures { result ≡ start_status next }
{
    match next {
        SOF | SETUP | IN | OUT | PING | SPLIT | MALFORMED => Status::New,
        _ => Status::Invalid,
    }
}

// What IN or OUT with its data comes to, by the type that was known when the transaction began.
fn by_kind(kind: u8) -> Status
    ensures { result ≡ by_kind kind }
{
    match kind {
        ISOCHRONOUS => Status::Done,
        CONTROL | BULK | INTERRUPT => Status::Continue,
        _ => Status::Ambiguous,
    }
}

// DATA0 and DATA1 are not judged by the first PID, nor handshakes by type and length: 0 stands for what is not looked at.
fn after_data0(last: u8, kind: u8, len: usize) -> Status
    ensures { result ≡ simple_status 0 last DATA0 kind len }
{
    match last {
        SETUP if len == 11 => Status::Continue,
        IN | OUT => by_kind(kind),
        _ => Status::Invalid,
    }
}

fn after_data1(last: u8, kind: u8) -> Status
    ensures { result ≡ simple_status 0 last DATA1 kind 0 }
{
    match last {
        IN | OUT => by_kind(kind),
        _ => Status::Invalid,
    }
}

fn after_ack(first: u8, last: u8) -> Status
    ensures { result ≡ simple_status first last ACK 0 0 }
{
    match last {
        DATA0 => match first {
            SETUP | IN | OUT => Status::Done,
            _ => Status::Invalid,
        },
        DATA1 => match first {
            IN | OUT => Status::Done,
            _ => Status::Invalid,
        },
        PING => Status::Done,
        _ => Status::Invalid,
    }
}

fn after_nyet(first: u8, last: u8) -> Status
    ensures { result ≡ simple_status first last NYET 0 0 }
{
    match last {
        DATA0 | DATA1 => match first {
            IN | OUT => Status::Done,
            _ => Status::Invalid,
        },
        _ => Status::Invalid,
    }
}

// NAK or STALL: the table does not tell the two apart.
fn after_nak(first: u8, last: u8) -> Status
    ensures { result ≡ simple_status first last NAK 0 0 }
{
    match last {
        IN | PING => Status::Fail,
        DATA0 | DATA1 => match first {
            OUT => Status::Fail,
            _ => Status::Invalid,
        },
        _ => Status::Invalid,
    }
}

fn simple_status(first: u8, last: u8, next: u8, kind: u8, len: usize) -> Status
    ensures { result ≡ simple_status first last next kind len }
{
    match next {
        SETUP | IN | OUT | PING | SPLIT => Status::New,
        SOF => match last {
            SOF => Status::Continue,
            _ => Status::New,
        },
        MALFORMED => match last {
            MALFORMED => Status::Continue,
            _ => Status::New,
        },
        DATA0 => after_data0(last, kind, len),
        DATA1 => after_data1(last, kind),
        ACK => after_ack(first, last),
        NYET => after_nyet(first, last),
        NAK | STALL => after_nak(first, last),
        _ => Status::Invalid,
    }
}

// Data that only the mode takes for done: DATA2 after IN, DATA2 or MDATA after OUT, on an endpoint that was known as isochronous.
fn is_high(last: u8, next: u8, kind: u8) -> bool
    ensures { result ≡ is_high last next kind }
{
    matches!((last, next), (IN, DATA2) | (OUT, DATA2 | MDATA)) && kind == ISOCHRONOUS
}

// The same in either mode.
pub fn status_in(high: bool, first: u8, last: u8, next: u8, kind: u8, len: usize) -> Status
    ensures { result ≡ simple_status_in high first last next kind len }
{
    if high && is_high(last, next, kind) {
        return Status::Done;
    }
    simple_status(first, last, next, kind, len)
}
