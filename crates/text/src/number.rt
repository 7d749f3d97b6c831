// Bytes, words and numbers appended to a lent buffer.
ghost use Rattle.std.specs.Prelude.{◌<◌, ◌≡◌, ◌∷◌, []};
ghost use Rattle.text.specs.Append.{Room, Appended};
ghost use Rattle.text.specs.Numbers.{hex_digit, hex_byte, hex_setup};
ghost use Rattle.text.specs.Numbers as numbers;

pub fn byte(out: &mut [u8], at: usize, b: u8) -> usize
    requires { Room out.old at (b ∷ []) }
    ensures { Appended out.old at (b ∷ []) out.new result }
{
    out[at] = b;
    at + 1
}

pub fn word(out: &mut [u8], at: usize, w: &[u8]) -> usize
    requires { Room out.old at w.now }
    ensures { Appended out.old at w.now out.new result }
{
    rows::put(out, at, w);
    at + w.len()
}

// The digits before the last, then the last.
pub fn decimal(out: &mut [u8], at: usize, n: u64) -> usize
    requires { Room out.old at (numbers.decimal n) }
    ensures { Appended out.old at (numbers.decimal n) out.new result }
{
    if n < 10 {
        return byte(out, at, b'0' + n as u8);
    }
    let next = decimal(out, at, n / 10);
    byte(out, next, b'0' + (n % 10) as u8)
}

fn hex_digit(d: u8) -> u8
    requires { d < 16 }
    ensures { result ≡ hex_digit d }
{
    b"0123456789abcdef"[d as usize]
}

fn hex_byte(out: &mut [u8], at: usize, b: u8) -> usize
    requires { Room out.old at (hex_byte b) }
    ensures { Appended out.old at (hex_byte b) out.new result }
{
    let next = byte(out, at, hex_digit(b / 16));
    byte(out, next, hex_digit(b % 16))
}

// The 8 setup bytes of a word, the lowest first.
pub fn hex_setup(out: &mut [u8], at: usize, w: u64) -> usize
    requires { Room out.old at (hex_setup w) }
    ensures { Appended out.old at (hex_setup w) out.new result }
{
    let mut next = at;
    for b in w.to_le_bytes() {
        next = hex_byte(out, next, b);
    }
    next
}
