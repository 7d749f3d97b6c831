// Which word of a record holds what.
// The counts, by the numbers of the logs (rows, number).
pub const BYTES: usize = 0;

pub const DEVICES: usize = 1;

pub const ENDPOINTS: usize = 2;

pub const PACKETS: usize = 3;

pub const EVENTS: usize = 4;

pub const TRANSACTIONS: usize = 5;

pub const GROUPS: usize = 6;

pub const STATEBYTES: usize = 7;

pub const STATES: usize = 8;

pub const ITEMS: usize = 9;

pub const LINKS: usize = 10;

pub const REQUESTS: usize = 11;

// The transaction: its style by number, with the three bytes that a style may have, and its other fields; LASTPID is the PID of its last packet.
pub const STYLE: usize = 12;

pub const SC: usize = 13;

pub const SPLITKIND: usize = 14;

pub const PID: usize = 15;

pub const LASTPID: usize = 16;

pub const ID: usize = 17;

pub const ENDPOINT: usize = 18;

pub const KIND: usize = 19;

pub const LINKED: usize = 20;

pub const READY: usize = 21;

pub const FILLED: usize = 22;

pub const LINK: usize = 23;

pub const SETUP: usize = 24;

pub const PAYLOAD: usize = 25;

// The other fields of Decoder; LASTITEM is the last item's endpoint.
pub const LASTITEM: usize = 26;

pub const WAITING: usize = 27;

pub const TIME: usize = 28;

pub const SLOT: usize = 29;

pub const EVENT: usize = 30;

pub const KEEPALIVE: usize = 31;

pub const FINISHED: usize = 32;

pub const HIGH: usize = 33;

// The words from here up to ROWS belong to no field.
pub const HEAD: usize = 34;

// Where the rows of the devices begin, and how many words a row has.
pub const ROWS: usize = 64;

pub const WIDTH: usize = 36;

// In a row: the fields of Device, a word that belongs to no field, and a word for each of the 32 details.
pub const ADDRESS: usize = 0;

pub const CHOSEN: usize = 1;

pub const KEPT: usize = 2;

pub const SPARE: usize = 3;

pub const DETAILS: usize = 4;

// The whole record.
pub const WORDS: usize = 2368;
