// The time of each record that has ticks (document 01, "Trace and listing").
ghost use Rattle.std.specs.Prelude.{◌≡◌};
ghost use Rattle.trace.specs.Clock.{stopped, tick_of};

// Whether there was a tick, the last counter, and its time. A record without ticks leaves it as it is.
// Stays: no `Option` of a tick, since C programs keep the three as words (`Ticks`), and get all of them back as they were where none is started.
#[derive(Clone, Copy)]
pub struct Clock {
    pub started: bool,
    pub last: u32,
    pub time: u64,
}

// Before the first tick.
pub fn fresh() -> Clock
    ensures { result ≡ stopped }
{
    Clock {
        started: false,
        last: 0,
        time: 0,
    }
}

pub fn tick(c: Clock, ticks: u32) -> Clock
    ensures { result ≡ tick_of c ticks }
{
    let time = if c.started {
        c.time.wrapping_add(u64::from(ticks.wrapping_sub(c.last)))
    } else {
        u64::from(ticks)
    };
    Clock {
        started: true,
        last: ticks,
        time,
    }
}
