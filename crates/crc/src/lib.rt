// The CRCs of USB packets (USB 2.0, 8.3.5).
#![tactic(auto)]

ghost use Rattle.std.specs.Prelude.{◌≡◌, ℕ, ◌+◌, ◌/◌, ◌^◌, ◌≤◌, ◌<◌, length, take, drop};
ghost use Rattle.std.specs.Int.Bits.{bit_xor};
ghost use Rattle.crc.specs.Fast.{stays_of, passes_of, four};
ghost use Rattle.crc.specs.Crc.{generator16, ones16, bits, bytes, crc5_of, crc16_of};

// The CRC5 of the n low bits of x, a bit a turn (8.3.5.1): for any n.
pub fn crc5(x: u32, n: u32) -> u8
    ensures { result ≡ crc5_of x n }
{
    let mut state: u8 = 0x1f;
    let mut input = x;
    for _ in 0..n {
        let low = input % 2;
        let out = state % 2 ^ low as u8;
        state = state / 2 ^ out * 0x14;
        input /= 2;
    }
    state ^ 0x1f
}

// The two below have no loop: the data is xored into the register first, and divided by 1+z^3+z^5, z a shift to the left. The carry is the register.

// The CRC5 of the 11 low bits of x, those of a token.
pub fn crc5_token(x: u32) -> u8
    ensures { result ≡ crc5_of x 11 }
{
    let v = x % 2048 ^ 0x1f;
    let b = v ^ v << 3 ^ v << 5;
    let q = (b ^ b << 6 ^ b << 10) % 2048;
    (q >> 6 ^ q >> 8) as u8 ^ 0x1f
}

// The CRC5 of the 19 low bits of x, those of a split.
pub fn crc5_split(x: u32) -> u8
    ensures { result ≡ crc5_of x 19 }
{
    let v = x % 524288 ^ 0x1f;
    let b = v ^ v << 3 ^ v << 5;
    let c = b ^ b << 6 ^ b << 10;
    let q = (c ^ c << 12) % 524288;
    (q >> 14 ^ q >> 16) as u8 ^ 0x1f
}

// The CRC16, below, has no tables. "n bits on" is after n steps without data; a word stands for the register that it is 64 bits on.

// The register 8 bits on: each bit of the low byte moves up by 6 and by 7, and their parity brings 0xC001.
fn advance8(v: u64) -> u64
    ensures { result ≡ bits generator16 8 v 0 }
{
    let x = v % 256;
    let y = x ^ x >> 4;
    let z = y ^ y >> 2;
    let parity = z ^ z >> 1;
    v >> 8 ^ x << 6 ^ x << 7 ^ parity % 2 * 0xC001
}

// A word 64 bits on: divided by 1+z, then by 1+z^14+z^15, z a shift to the left. Their product is the generator, and the carry the register.
fn advance64(a: u64) -> u64
    ensures { result ≡ bits generator16 64 a 0 }
{
    let b = a ^ a << 1;
    let b = b ^ b << 2;
    let b = b ^ b << 4;
    let b = b ^ b << 8;
    let b = b ^ b << 16;
    let b = b ^ b << 32;
    let q = b ^ b << 14 ^ b << 15;
    let q = q ^ q << 28 ^ q << 30;
    let q = q ^ q << 56 ^ q << 60;
    q >> 48 ^ q >> 50 ^ q >> 63
}

// The word that stands for a, 64 bits on: X^64 is X^18+X^8+X^3 modulo the generator, and what the shifts drop is 64 bits on once more.
fn fold(a: u64) -> u64
    ensures { bits generator16 64 result 0 ≡ bits generator16 128 a 0 }
{
    let b = a ^ a << 61 ^ a << 56 ^ a << 46;
    b >> 3 ^ b >> 8 ^ b >> 18
}

// A byte, with the bits that follow it above it.
fn join(b: u8, after: u64) -> u64
    requires { after < 2 ^ 56 }
    ensures { (result / 256 ≡ after) × ((n q : ℕ) → bits generator16 (8 + n) q result ≡ bits generator16 n (bits generator16 8 q b) after) }
{
    b as u64 + after * 256
}

// The eight bytes from i, the first lowest.
fn word(s: &[u8], i: usize) -> u64
    requires { i + 8 ≤ length s.now }
    ensures { (q : ℕ) → bits generator16 64 q result ≡ bytes generator16 q (take 8 (drop i s.now)) }
{
    let w = join(s[i + 6], join(s[i + 7], 0));
    let x = join(s[i + 4], join(s[i + 5], w));
    let y = join(s[i + 2], join(s[i + 3], x));
    join(s[i], join(s[i + 1], y))
}

// The register after the bytes of s, a byte a turn.
fn by_bytes(from: u64, s: &[u8]) -> u64
    ensures { result ≡ bytes generator16 from s.now }
{
    let mut state = from;
    for b in s {
        state = advance8(state ^ *b as u64);
    }
    state
}

// The register after the bytes of s from a place, eight a turn, from a word that stands for the register.
fn by_words(from: u64, s: &[u8], at: usize) -> u64
    requires { at ≤ length s.now }
    ensures { result ≡ bytes generator16 (bits generator16 64 from 0) (drop at s.now) }
{
    let n = s.len();
    let mut a = from;
    // Stays: chunks would be no plainer, here and in by_lanes: what is left behind the last is read on from its place.
    let mut i = at;
    while 8 <= n - i {
        a = fold(a) ^ word(s, i);
        i += 8;
    }
    by_bytes(advance64(a), &s[i..])
}

// Four words, 32 bytes, that stand for the register after them; the first holds the first bytes.
#[derive(Clone, Copy)]
struct Lanes {
    first: u64,
    second: u64,
    third: u64,
    fourth: u64,
}

// X^256 is X^16+X^4+X^2 modulo the generator. Of a word 256 bits on: the part that stays in the word's own place,
fn stays(v: u64) -> u64
    ensures { result ≡ stays_of v }
{
    v >> 2 ^ v >> 4 ^ v >> 16
}

// and the part that passes into the place of the word before it.
fn passes(v: u64) -> u64
    ensures { result ≡ passes_of v }
{
    v << 62 ^ v << 60 ^ v << 48
}

// The lanes after the 32 bytes from i. What passes out of the first is 256 bits on once more, from the fourth.
fn next_lanes(l: Lanes, s: &[u8], i: usize) -> Lanes
    requires { i + 32 ≤ length s.now }
    ensures { bytes generator16 (four result.first result.second result.third result.fourth) (drop (i + 32) s.now) ≡ bytes generator16 (four l.first l.second l.third l.fourth) (drop i s.now) }
{
    let first = stays(l.first) ^ passes(l.second) ^ word(s, i);
    let second = stays(l.second) ^ passes(l.third) ^ word(s, i + 8);
    let third = stays(l.third) ^ passes(l.fourth) ^ word(s, i + 16);
    let fourth = stays(l.fourth ^ passes(l.first)) ^ word(s, i + 24);
    Lanes {
        first,
        second,
        third,
        fourth,
    }
}

// The lanes as one word.
fn one_word(l: Lanes) -> u64
    ensures { bits generator16 64 result 0 ≡ four l.first l.second l.third l.fourth }
{
    let x = fold(l.first) ^ l.second;
    let y = fold(x) ^ l.third;
    fold(y) ^ l.fourth
}

// A word that stands for the register after the bytes before a place.
#[derive(Clone, Copy)]
struct Taken {
    word: u64,
    at: usize,
}

// The first bytes of s: 32 a turn while there are as many, or else eight.
fn by_lanes(s: &[u8]) -> Taken
    requires { 8 ≤ length s.now }
    ensures { (result.at ≤ length s.now) × (bytes generator16 (bits generator16 64 result.word 0) (drop result.at s.now) ≡ bytes generator16 ones16 s.now) }
{
    let n = s.len();
    let first = word(s, 0) ^ 0xffff;
    if n < 32 {
        return Taken { word: first, at: 8 };
    }
    let mut l = Lanes {
        first,
        second: word(s, 8),
        third: word(s, 16),
        fourth: word(s, 24),
    };
    let mut i: usize = 32;
    while 32 <= n - i {
        l = next_lanes(l, s, i);
        i += 32;
    }
    Taken {
        word: one_word(l),
        at: i,
    }
}

// The register, inverted.
fn inverted(state: u64) -> u16
    requires { state < 65536 }
    ensures { result ≡ bit_xor state ones16 }
{
    state as u16 ^ 0xffff
}

// The CRC16 of the bytes of s (8.3.5.2).
pub fn crc16(s: &[u8]) -> u16
    ensures { result ≡ crc16_of s.now }
{
    if s.len() < 8 {
        return inverted(by_bytes(0xffff, s));
    }
    let taken = by_lanes(s);
    inverted(by_words(taken.word, s, taken.at))
}
