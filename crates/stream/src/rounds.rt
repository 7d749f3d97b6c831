// What a block or an import comes to, round by round: packets by the inner call, and the record behind them by its public call.
ghost use Rattle.std.specs.Prelude.{◌≡◌, ◌+◌, ◌^◌, ◌<◌};
ghost use Rattle.stream.specs.Rounds.{none_yet, Few, with_step, with_round};

use crate::Run;
use details::Device;
use record::Decoder;
use step::{Stepped, eight};
use trace::clock::Clock;

// Before the first round.
pub fn none_yet(d: Decoder, devices: [Device; 64], clock: Clock, at: usize) -> Run
    ensures { result ≡ none_yet d devices clock at }
{
    Run {
        going: true,
        answer: 0,
        taken: 0,
        eights: 0,
        place: at,
        clock,
        decoder: d,
        devices,
    }
}

// The packets p with the record behind them: it was taken; or all is over there.
pub fn with_step(p: Run, q: Stepped) -> Run
    requires { Few p q }
    ensures { result ≡ with_step p q }
{
    let decoder = q.decoder;
    let devices = q.devices;
    if !q.going {
        let clock = p.clock;
        return Run {
            going: false,
            answer: q.answer,
            taken: p.taken,
            eights: p.eights,
            place: p.place,
            clock,
            decoder,
            devices,
        };
    }
    let clock = q.clock;
    let taken = p.taken + 1;
    let eights = p.eights + eight(q.answer);
    Run {
        going: true,
        answer: 0,
        taken,
        eights,
        place: q.next,
        clock,
        decoder,
        devices,
    }
}

// The rounds so far, and one more.
pub fn with_round(run: Run, more: Run) -> Run
    requires taken_bound { run.taken + more.taken < 2 ^ 64 }
    requires eights_bound { run.eights + more.eights < 2 ^ 64 }
    ensures { result ≡ with_round run more }
{
    let mut all = more;
    all.taken = run.taken + more.taken;
    all.eights = run.eights + more.eights;
    all
}
