// Runs published vectors of the CRCs, and packets made of them. A line for each: what was computed, what is expected, and a verdict.
// A packet's CRC is tested as USB 2.0 says that a receiver tests it: the bits that the CRC protects and the CRC itself leave one number,
// the residual, in the register (8.3.5). docs/DIFFERENCES.md says where each vector is published.
// The file stdout, which the output must equal, does not come from this program: its numbers were reckoned bit by bit, the register not
// mirrored, by a script that shares nothing with the port.
#![tactic(auto)]

ghost use Rattle.std.specs.Prelude.{◌*◌, ◌≤◌, ◌<◌};

use std::io;
use std::io::Write;

fn put(rt: &impl Print, text: &[u8]) -> io::Result<()> {
    io::writer(rt).write_all(text)
}

fn verdict(rt: &impl Print, ok: bool) -> io::Result<()> {
    if ok {
        put(rt, b" ok\n")
    } else {
        put(rt, b" WRONG\n")
    }
}

// A line in hexadecimal digits.
fn hex_line(
    rt: &impl Print,
    name: &[u8],
    computed: u64,
    expected: u64,
    width: usize,
) -> io::Result<()> {
    put(rt, name)?;
    print!(rt; ": computed {computed:0width$x} expected {expected:0width$x}")?;
    verdict(rt, computed == expected)
}

// A line in decimal digits.
fn count_line(rt: &impl Print, name: &[u8], computed: u64, expected: u64) -> io::Result<()> {
    put(rt, name)?;
    print!(rt; ": computed {computed} expected {expected}")?;
    verdict(rt, computed == expected)
}

// Bits as USB 2.0 prints them, in the order of sending: the first bit sent is the leftmost there and the lowest of the number here.
fn sent(text: &[u8]) -> u64 {
    text.iter()
        .rev()
        .fold(0, |value, digit| value << 1 ^ (*digit % 2) as u64)
}

// The n low bits of x, in the order of sending.
fn put_bits(rt: &impl Print, x: u64, n: usize) -> io::Result<()> {
    let mut rest = x;
    for _ in 0..n {
        put(rt, if rest % 2 == 0 { b"0" } else { b"1" })?;
        rest /= 2;
    }
    Ok(())
}

// A line in bits, in the order of sending.
fn bits_line(rt: &impl Print, name: &[u8], computed: u64, published: &[u8]) -> io::Result<()> {
    put(rt, name)?;
    put(rt, b": computed ")?;
    put_bits(rt, computed, published.len())?;
    put(rt, b" expected ")?;
    put(rt, published)?;
    verdict(rt, computed == sent(published))
}

// The PID byte of a valid packet, and 0 for a malformed one.
fn answer(packet: &[u8]) -> u8 {
    usb::check(packet).unwrap_or(0)
}

// The answer to the first n bytes.
fn answer_first(packet: [u8; 11], n: usize) -> u8
    requires { n ≤ 11 }
{
    answer(&packet[..n])
}

// The same with one bit damaged.
fn damaged(packet: [u8; 11], n: usize, bit: usize) -> u8
    requires { (n ≤ 11) × (bit < n * 8) }
{
    let mut bytes = packet;
    bytes[bit / 8] ^= 1 << bit % 8;
    answer_first(bytes, n)
}

// How many of the packets that differ from it in one bit are malformed.
fn refused(packet: [u8; 11], n: usize) -> u64
    requires { n ≤ 11 }
{
    (0..n * 8)
        .filter(|bit| damaged(packet, n, *bit) == 0)
        .count() as u64
}

// A packet is valid, and no packet that differs from it in one bit is.
fn packet_lines(
    rt: &impl Print,
    name: &[u8],
    packet: [u8; 11],
    n: usize,
    pid: u8,
    damages: u64,
) -> io::Result<()>
    requires { n ≤ 11 }
{
    hex_line(rt, name, answer_first(packet, n) as u64, pid as u64, 2)?;
    put(rt, b"one bit damaged in ")?;
    count_line(rt, name, refused(packet, n), damages)
}

// The register of the CRC5 after so many bits behind the PID: crc5 gives it inverted.
fn register5(packet: [u8; 11], bits: u32) -> u8 {
    let x = packet[1] as u32 ^ (packet[2] as u32) << 8 ^ (packet[3] as u32) << 16;
    crc::crc5(x, bits) ^ 0x1f
}

// The register of the CRC16 after the bytes of a packet of n bytes behind its PID: crc16 gives it inverted.
fn register16(packet: [u8; 11], n: usize) -> u16
    requires { (1 ≤ n) × (n ≤ 11) }
{
    crc::crc16(&packet[1..n]) ^ 0xffff
}

// A token or an SOF: 11 bits and their CRC5.
fn token_lines(rt: &impl Print, name: &[u8], packet: [u8; 11], pid: u8) -> io::Result<()> {
    packet_lines(rt, name, packet, 3, pid, 24)?;
    put(rt, b"register after ")?;
    bits_line(rt, name, register5(packet, 16) as u64, b"01100")
}

// A SPLIT: 19 bits and their CRC5.
fn split_lines(rt: &impl Print, name: &[u8], packet: [u8; 11]) -> io::Result<()> {
    packet_lines(rt, name, packet, 4, usb::pid::SPLIT, 32)?;
    put(rt, b"register after ")?;
    bits_line(rt, name, register5(packet, 24) as u64, b"01100")
}

// A data packet of n bytes: a payload and its CRC16.
fn data_lines(
    rt: &impl Print,
    name: &[u8],
    packet: [u8; 11],
    n: usize,
    pid: u8,
    damages: u64,
) -> io::Result<()>
    requires { (1 ≤ n) × (n ≤ 11) }
{
    packet_lines(rt, name, packet, n, pid, damages)?;
    put(rt, b"register after ")?;
    bits_line(rt, name, register16(packet, n) as u64, b"1000000000001101")
}

// The catalogue value of CRC-16/USB, and the data of the USB-IF's paper on CRCs.
fn crc16_lines(rt: &impl Print) -> io::Result<()> {
    hex_line(
        rt,
        b"CRC16 of 123456789",
        crc::crc16(b"123456789") as u64,
        0xB4C8,
        4,
    )?;
    bits_line(
        rt,
        b"CRC16 of 00 01 02 03",
        crc::crc16(b"\x00\x01\x02\x03") as u64,
        b"1111011101011110",
    )?;
    bits_line(
        rt,
        b"CRC16 of 23 45 67 89",
        crc::crc16(b"\x23\x45\x67\x89") as u64,
        b"0111000000111000",
    )
}

// The tokens of that paper: 7 bits of address and 4 of endpoint above them, or 11 of a frame number.
fn crc5_lines(rt: &impl Print) -> io::Result<()> {
    bits_line(
        rt,
        b"CRC5 of address 3A endpoint A",
        crc::crc5(0x3A + 0xA * 128, 11) as u64,
        b"11100",
    )?;
    bits_line(
        rt,
        b"CRC5 of address 70 endpoint 4",
        crc::crc5(0x70 + 0x4 * 128, 11) as u64,
        b"01110",
    )?;
    bits_line(
        rt,
        b"CRC5 of frame 001",
        crc::crc5(0x001, 11) as u64,
        b"10111",
    )
}

// Those tokens as packets; the SETUP that begins every enumeration, and 01's SOF; and a SPLIT of ours.
fn tokens(rt: &impl Print) -> io::Result<()> {
    token_lines(
        rt,
        b"E1 3A 3D",
        [0xE1, 0x3A, 0x3D, 0, 0, 0, 0, 0, 0, 0, 0],
        usb::pid::OUT,
    )?;
    token_lines(
        rt,
        b"69 70 72",
        [0x69, 0x70, 0x72, 0, 0, 0, 0, 0, 0, 0, 0],
        usb::pid::IN,
    )?;
    token_lines(
        rt,
        b"A5 01 E8",
        [0xA5, 0x01, 0xE8, 0, 0, 0, 0, 0, 0, 0, 0],
        usb::pid::SOF,
    )?;
    token_lines(
        rt,
        b"2D 00 10",
        [0x2D, 0x00, 0x10, 0, 0, 0, 0, 0, 0, 0, 0],
        usb::pid::SETUP,
    )?;
    token_lines(
        rt,
        b"A5 00 10",
        [0xA5, 0x00, 0x10, 0, 0, 0, 0, 0, 0, 0, 0],
        usb::pid::SOF,
    )?;
    split_lines(
        rt,
        b"78 01 01 44",
        [0x78, 0x01, 0x01, 0x44, 0, 0, 0, 0, 0, 0, 0],
    )
}

// The paper's data as packets; the two empty data packets; and the SETUP data that ask for the device descriptor.
fn data(rt: &impl Print) -> io::Result<()> {
    data_lines(
        rt,
        b"C3 00 01 02 03 EF 7A",
        [0xC3, 0x00, 0x01, 0x02, 0x03, 0xEF, 0x7A, 0, 0, 0, 0],
        7,
        usb::pid::DATA0,
        56,
    )?;
    data_lines(
        rt,
        b"4B 23 45 67 89 0E 1C",
        [0x4B, 0x23, 0x45, 0x67, 0x89, 0x0E, 0x1C, 0, 0, 0, 0],
        7,
        usb::pid::DATA1,
        56,
    )?;
    data_lines(
        rt,
        b"C3 00 00",
        [0xC3, 0x00, 0x00, 0, 0, 0, 0, 0, 0, 0, 0],
        3,
        usb::pid::DATA0,
        24,
    )?;
    data_lines(
        rt,
        b"4B 00 00",
        [0x4B, 0x00, 0x00, 0, 0, 0, 0, 0, 0, 0, 0],
        3,
        usb::pid::DATA1,
        24,
    )?;
    data_lines(
        rt,
        b"C3 80 06 00 01 00 00 40 00 DD 94",
        [
            0xC3, 0x80, 0x06, 0x00, 0x01, 0x00, 0x00, 0x40, 0x00, 0xDD, 0x94,
        ],
        11,
        usb::pid::DATA0,
        88,
    )
}

fn main(rt: HostRuntime) -> io::Result<()> {
    crc16_lines(&rt)?;
    crc5_lines(&rt)?;
    tokens(&rt)?;
    data(&rt)
}
