// A packet of a split: by type and SC, then by the last PID and the next.
ghost use Rattle.std.specs.Prelude.{◌≡◌};
ghost use Rattle.usb.specs.Types.{Control, Isochronous, Bulk, Interrupt, Start, Complete};
ghost use Rattle.transaction.specs.Split.{split_status};

use crate::Status;
use usb::pid::{ACK, DATA0, DATA1, ERR, IN, MDATA, NAK, NYET, OUT, SETUP, SPLIT, STALL};
use usb::types::{BULK, COMPLETE, CONTROL, INTERRUPT, ISOCHRONOUS, START};

fn control_start(last: u8, next: u8, len: usize) -> Status
    ensures { result ≡ split_status Control Start last next len }
{
    match last {
        SPLIT => match next {
            SETUP | OUT | IN => Status::Continue,
            _ => Status::Invalid,
        },
        SETUP => match next {
            DATA0 if len == 11 => Status::Continue,
            _ => Status::Invalid,
        },
        OUT => match next {
            DATA0 | DATA1 => Status::Continue,
            _ => Status::Invalid,
        },
        DATA0 | DATA1 | IN => match next {
            ACK => Status::Done,
            NAK => Status::Fail,
            _ => Status::Invalid,
        },
        _ => Status::Invalid,
    }
}

fn control_complete(last: u8, next: u8) -> Status
    ensures { result ≡ split_status Control Complete last next 0 }
{
    match last {
        SPLIT => match next {
            SETUP | OUT | IN => Status::Continue,
            _ => Status::Invalid,
        },
        SETUP | OUT => match next {
            ACK => Status::Done,
            NYET => Status::Retry,
            NAK | STALL => Status::Fail,
            _ => Status::Invalid,
        },
        IN => match next {
            DATA0 | DATA1 => Status::Done,
            NYET => Status::Retry,
            NAK | STALL => Status::Fail,
            _ => Status::Invalid,
        },
        _ => Status::Invalid,
    }
}

fn bulk_start(last: u8, next: u8) -> Status
    ensures { result ≡ split_status Bulk Start last next 0 }
{
    match last {
        SPLIT => match next {
            OUT | IN => Status::Continue,
            _ => Status::Invalid,
        },
        OUT => match next {
            DATA0 | DATA1 => Status::Continue,
            _ => Status::Invalid,
        },
        DATA0 | DATA1 | IN => match next {
            ACK => Status::Done,
            NAK => Status::Fail,
            _ => Status::Invalid,
        },
        _ => Status::Invalid,
    }
}

fn bulk_complete(last: u8, next: u8) -> Status
    ensures { result ≡ split_status Bulk Complete last next 0 }
{
    match last {
        SPLIT => match next {
            OUT | IN => Status::Continue,
            _ => Status::Invalid,
        },
        SETUP => match next {
            ACK => Status::Done,
            NYET => Status::Retry,
            _ => Status::Invalid,
        },
        OUT => match next {
            NAK | STALL => Status::Fail,
            _ => Status::Invalid,
        },
        IN => match next {
            DATA0 | DATA1 => Status::Done,
            NYET => Status::Retry,
            NAK | STALL => Status::Fail,
            _ => Status::Invalid,
        },
        _ => Status::Invalid,
    }
}

fn interrupt_start(last: u8, next: u8) -> Status
    ensures { result ≡ split_status Interrupt Start last next 0 }
{
    match last {
        SPLIT => match next {
            OUT => Status::Continue,
            IN => Status::Done,
            _ => Status::Invalid,
        },
        OUT => match next {
            DATA0 | DATA1 => Status::Done,
            _ => Status::Invalid,
        },
        _ => Status::Invalid,
    }
}

fn interrupt_complete(last: u8, next: u8) -> Status
    ensures { result ≡ split_status Interrupt Complete last next 0 }
{
    match last {
        SPLIT => match next {
            OUT | IN => Status::Continue,
            _ => Status::Invalid,
        },
        OUT => match next {
            ACK => Status::Done,
            NYET => Status::Retry,
            NAK | STALL | ERR => Status::Fail,
            _ => Status::Invalid,
        },
        IN => match next {
            DATA0 | DATA1 | MDATA => Status::Done,
            NYET => Status::Retry,
            NAK | STALL | ERR => Status::Fail,
            _ => Status::Invalid,
        },
        _ => Status::Invalid,
    }
}

fn isochronous_start(last: u8, next: u8) -> Status
    ensures { result ≡ split_status Isochronous Start last next 0 }
{
    match last {
        SPLIT => match next {
            OUT => Status::Continue,
            IN => Status::Done,
            _ => Status::Invalid,
        },
        OUT => match next {
            DATA0 => Status::Done,
            _ => Status::Invalid,
        },
        _ => Status::Invalid,
    }
}

fn isochronous_complete(last: u8, next: u8) -> Status
    ensures { result ≡ split_status Isochronous Complete last next 0 }
{
    match last {
        SPLIT => match next {
            IN => Status::Continue,
            _ => Status::Invalid,
        },
        IN => match next {
            DATA0 | MDATA => Status::Done,
            NYET => Status::Retry,
            ERR => Status::Fail,
            _ => Status::Invalid,
        },
        _ => Status::Invalid,
    }
}

pub fn split_status(kind: u8, sc: u8, last: u8, next: u8, len: usize) -> Status
    ensures { result ≡ split_status kind sc last next len }
{
    match kind {
        CONTROL => match sc {
            START => control_start(last, next, len),
            COMPLETE => control_complete(last, next),
            _ => Status::Invalid,
        },
        ISOCHRONOUS => match sc {
            START => isochronous_start(last, next),
            COMPLETE => isochronous_complete(last, next),
            _ => Status::Invalid,
        },
        BULK => match sc {
            START => bulk_start(last, next),
            COMPLETE => bulk_complete(last, next),
            _ => Status::Invalid,
        },
        INTERRUPT => match sc {
            START => interrupt_start(last, next),
            COMPLETE => interrupt_complete(last, next),
            _ => Status::Invalid,
        },
        _ => Status::Invalid,
    }
}
