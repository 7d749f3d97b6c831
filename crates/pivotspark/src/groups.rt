// group_status for a test written in another language: numbers in one array, the answer in another.
ghost use Rattle.std.specs.Prelude.{◌≡◌};
ghost use Rattle.std.proofs.lemmas.List.Edits.{sets};
ghost use Rattle.pivotspark.specs.Words.{byte_of, size_of, flag_of, phase_of, style_of, endpoint_of, transaction_of, detail_of, status_word, effect_words, flag_word, answer_words, answered};

use details::Detail;
use endpoints::{Endpoint, Phase};
use group::{Effect, GroupStatus};
use transaction::{Style, Transaction};

fn byte(w: u64) -> u8
    ensures { result ≡ byte_of w }
{
    (w % 256) as u8
}

fn size(w: u64) -> u16
    ensures { result ≡ size_of w }
{
    (w % 65536) as u16
}

fn flag(w: u64) -> bool
    ensures { result ≡ flag_of w }
{
    w == 1
}

fn phase(w: u64) -> Phase
    ensures { result ≡ phase_of w }
{
    match w {
        1 => Phase::Early,
        2 => Phase::Active,
        3 => Phase::Ended,
        _ => Phase::None,
    }
}

fn style(w: u64, sc: u8, kind: u8, pid: u8) -> Style
    ensures { result ≡ style_of w sc kind pid }
{
    match w {
        1 => Style::Simple(pid),
        2 => Style::Split(sc, kind),
        3 => Style::Token(sc, kind, pid),
        _ => Style::Nothing,
    }
}

fn endpoint(s: &[u64; 23]) -> Endpoint
    ensures { result ≡ endpoint_of s.now }
{
    let place = phase(s[0]);
    Endpoint {
        device: 0,
        address: 0,
        phase: place,
        state: 0,
        transactions: 0,
        groups: 0,
        total: 0,
        first: byte(s[1]),
        done: flag(s[2]),
        last: byte(s[3]),
        success: flag(s[4]),
        ready: flag(s[5]),
        setup: s[6],
        payload: s[7],
        pending: flag(s[8]),
        pendinglength: s[9],
        pendinglink: s[10],
    }
}

fn transaction(s: &[u64; 23]) -> Transaction
    ensures { result ≡ transaction_of s.now }
{
    let began = style(s[11], byte(s[12]), byte(s[13]), byte(s[14]));
    Transaction {
        style: began,
        id: 0,
        last: 0,
        endpoint: 0,
        kind: 4,
        linked: false,
        link: 0,
        ready: flag(s[15]),
        setup: s[16],
        filled: flag(s[17]),
        payload: s[18],
    }
}

fn detail(s: &[u64; 23]) -> Detail
    ensures { result ≡ detail_of s.now }
{
    Detail {
        kind: byte(s[19]),
        given: false,
        max: size(s[20]),
    }
}

// The variants stand in the order of their numbers.
fn status_word(status: GroupStatus) -> u64
    ensures { result ≡ status_word status }
{
    status as u64
}

fn flag_word(b: bool) -> u64
    ensures { result ≡ flag_word b }
{
    u64::from(b)
}

// The words of an effect: which it is, its number, and of IndexData the other two.
fn effect_words(effect: Effect) -> [u64; 4]
    ensures { result ≡ effect_words effect }
{
    match effect {
        Effect::NoEffect => [0, 0, 0, 0],
        Effect::NewDevice(at) => [1, u64::from(at), 0, 0],
        Effect::Request(len) => [2, len, 0, 0],
        Effect::PendingData(len) => [3, len, 0, 0],
        Effect::IndexData(len, waited, id) => [4, len, flag_word(waited), id],
    }
}

// The answer's ten words, for the 23 of the state; specs/Words.antt says what each is.
#[unsafe(no_mangle)]
pub extern "C" fn pivotspark_group_status(state: &[u64; 23], out: &mut [u64; 10])
    ensures { out.new ≡ sets out.old 0 (answer_words (answered state.now)) }
{
    let e = endpoint(state);
    let t = transaction(state);
    let d = detail(state);
    let g = group::group_status(e, t, d, flag(state[21]), flag(state[22]));
    let u = g.endpoint;
    let [kind, number, waited, id] = effect_words(g.effect);
    *out = [
        status_word(g.status),
        kind,
        number,
        waited,
        id,
        flag_word(u.success),
        flag_word(u.ready),
        u.setup,
        u.payload,
        flag_word(u.pending),
    ];
}
