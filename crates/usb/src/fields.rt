// The fields of packets: numbers of some bits, lowest bit first (USB 2.0, 8.4.1 and 8.4.2, and 9.3 for setup data). A byte that a packet lacks counts as 0.
ghost use Rattle.std.specs.Prelude.{◌≡◌, ◌+◌, ◌*◌, ◌<◌, ◌≤◌, length, get_or, take, drop};
ghost use Rattle.usb.specs.Bits.{after, number};
ghost use Rattle.usb.specs.Fields.{token_of, split_of, setup_data_of, setup_of, direction_of, request_type_of};

// Two bytes as one number, the first lowest.
pub fn pair(a: u8, b: u8) -> u16
    ensures { result ≡ a + b * 256 }
{
    u16::from_le_bytes([a, b])
}

// The two bytes after the PID as one number.
pub fn two(packet: &[u8]) -> u32
    requires { 3 ≤ length packet.now }
    ensures { result ≡ after 2 packet.now }
{
    pair(packet[1], packet[2]) as u32
}

// The three bytes after the PID as one number.
pub fn three(packet: &[u8]) -> u32
    requires { 4 ≤ length packet.now }
    ensures { result ≡ after 3 packet.now }
{
    u32::from_le_bytes([packet[1], packet[2], packet[3], 0])
}

// What an OUT, IN, SETUP or PING packet names: `TokenFields` of the Rust.
#[derive(Clone, Copy)]
pub struct Token {
    pub address: u8,
    pub number: u8,
}

// `SplitFields` of the Rust; `kind` is the endpoint type.
#[derive(Clone, Copy)]
pub struct Split {
    pub hub: u8,
    pub sc: u8,
    pub port: u8,
    pub start: u8,
    pub end: u8,
    pub kind: u8,
}

// `SetupFields` of the Rust; `kind` is bmRequestType, its `RequestTypeFields`.
#[derive(Clone, Copy)]
pub struct Setup {
    pub kind: u8,
    pub request: u8,
    pub value: u16,
    pub index: u16,
    pub length: u16,
}

fn byte(packet: &[u8], i: usize) -> u8
    ensures { result ≡ get_or packet.now i 0 }
{
    packet.get(i).copied().unwrap_or(0)
}

// Two bytes from place i on as one number.
fn two_from(packet: &[u8], i: usize) -> u16
    requires { i < 8 }
    ensures { result ≡ number (take 2 (drop i packet.now)) }
{
    pair(byte(packet, i), byte(packet, i + 1))
}

// Four bytes from place i on as one number.
fn four_from(packet: &[u8], i: usize) -> u32
    requires { i < 6 }
    ensures { result ≡ number (take 4 (drop i packet.now)) }
{
    u32::from_le_bytes([
        byte(packet, i),
        byte(packet, i + 1),
        byte(packet, i + 2),
        byte(packet, i + 3),
    ])
}

pub fn token_of(packet: &[u8]) -> Token
    ensures { result ≡ token_of packet.now }
{
    let x = two_from(packet, 1);
    Token {
        address: (x % 128) as u8,
        number: (x / 128 % 16) as u8,
    }
}

// SC of a SPLIT packet.
pub fn split_sc(packet: &[u8]) -> u8
    ensures { result ≡ (split_of packet.now).sc }
{
    byte(packet, 1) / 128 % 2
}

// The endpoint type of a SPLIT packet.
pub fn split_kind(packet: &[u8]) -> u8
    ensures { result ≡ (split_of packet.now).kind }
{
    byte(packet, 3) / 2 % 4
}

pub fn setup_of(packet: &[u8]) -> u64
    ensures { result ≡ setup_data_of packet.now }
{
    four_from(packet, 1) as u64 + four_from(packet, 5) as u64 * 0x100000000
}

// ---- the fields of a request (9.3, table 9-2), out of its eight bytes as one number, first byte lowest

// bmRequestType.
pub fn kind(setup: u64) -> u8
    ensures { result ≡ (setup_of setup).kind }
{
    (setup % 256) as u8
}

// bmRequestType's direction: 1 is device to host.
pub fn direction(setup: u64) -> u8
    ensures { result ≡ direction_of (setup_of setup).kind }
{
    (setup % 256 / 128 % 2) as u8
}

// bmRequestType's type: 0 is standard.
pub fn request_type(setup: u64) -> u8
    ensures { result ≡ request_type_of (setup_of setup).kind }
{
    (setup % 256 / 32 % 4) as u8
}

// b_request.
pub fn request(setup: u64) -> u8
    ensures { result ≡ (setup_of setup).request }
{
    (setup / 256 % 256) as u8
}

// wValue.
pub fn value(setup: u64) -> u16
    ensures { result ≡ (setup_of setup).value }
{
    (setup / 65536 % 65536) as u16
}

// wIndex.
pub fn index(setup: u64) -> u16
    ensures { result ≡ (setup_of setup).index }
{
    (setup / 4294967296 % 65536) as u16
}

// wLength.
pub fn length(setup: u64) -> u16
    ensures { result ≡ (setup_of setup).length }
{
    (setup / 281474976710656 % 65536) as u16
}
