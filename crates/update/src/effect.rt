// What group_status has as its effect, on the endpoint's entry (group_update, from line 1006 of decoder.rs on).
ghost use Rattle.std.specs.Prelude.{◌≡◌, false};
ghost use Rattle.update.specs.Effect.{passes, effect_entry};

use endpoints::Endpoint;
use group::Effect;

// Whether the endpoint's byte total would pass 2^64 - 1 (answer 9).
pub fn total_passes(effect: Effect, total: u64) -> bool
    ensures { result ≡ passes effect total }
{
    match effect {
        Effect::IndexData(n, _, _) => n > u64::MAX - total,
        _ => false,
    }
}

// The entry after it; link is the T row of the transaction.
pub fn entry_effect(effect: Effect, e: Endpoint, link: u64) -> Endpoint
    requires { passes effect e.total ≡ false }
    ensures { result ≡ effect_entry effect e link }
{
    match effect {
        Effect::NoEffect | Effect::NewDevice(_) | Effect::Request(_) => e,
        Effect::PendingData(n) => Endpoint {
            pending: true,
            pendinglength: n,
            pendinglink: link,
            ..e
        },
        Effect::IndexData(n, _, _) => Endpoint {
            total: e.total + n,
            ..e
        },
    }
}
