// PIDs, as the first byte of a packet has them (USB 2.0, 8.3.1 and table 8-1): the low nibble is the number in the table, the high one its complement. These are names
// for the code; the test of a first byte is `format` (lib.rt), by nibbles.
// Stays: numbers, since 01 asks for the last and the next PID as local numbers with a match over each (transaction, split.rt).
pub const OUT: u8 = 0xE1;

pub const IN: u8 = 0x69;

pub const SOF: u8 = 0xA5;

pub const SETUP: u8 = 0x2D;

pub const DATA0: u8 = 0xC3;

pub const DATA1: u8 = 0x4B;

pub const DATA2: u8 = 0x87;

pub const MDATA: u8 = 0x0F;

pub const ACK: u8 = 0xD2;

pub const NAK: u8 = 0x5A;

pub const STALL: u8 = 0x1E;

pub const NYET: u8 = 0x96;

// PRE's byte is ERR's; this port reads it as ERR.
pub const ERR: u8 = 0x3C;

pub const SPLIT: u8 = 0x78;

pub const PING: u8 = 0xB4;

// No PID: as in the Rust, what stands for a packet that is malformed.
pub const MALFORMED: u8 = 0;
