// The rows of one step added to a tally.
ghost use Rattle.std.specs.Prelude.{◌≡◌, ◌≤◌, ◌^◌};
ghost use Rattle.tally.specs.Tally.{Within, none, add_waiting, add_device, add_endpoint, add_packet, add_event, add_transaction, add_link, add_request, add_entry, add_item, tally_update, tally_effect};

use group::Effect;
use update::Update;

// The rows so far, in the order of the logs.
#[derive(Clone, Copy, Default)]
pub struct Tally {
    // Packet bytes.
    pub bytes: usize,
    pub devices: usize,
    pub endpoints: usize,
    pub packets: usize,
    pub events: usize,
    pub transactions: usize,
    pub groups: usize,
    pub statebytes: usize,
    pub states: usize,
    pub items: usize,
    pub links: usize,
    pub requests: usize,
    // How many endpoints then wait for an item to close their group.
    pub waiting: usize,
}

// Before the first step: no rows, and so many endpoints that wait.
pub fn tally_none(waiting: usize) -> Tally
    ensures { result ≡ none waiting }
{
    Tally {
        waiting,
        ..Tally::default()
    }
}

impl Tally {
    // A group ends: one endpoint more waits.
    fn add_waiting(&mut self)
        requires { Within (2 ^ 60) self.old }
        ensures { self.new ≡ add_waiting self.old }
    {
        self.waiting += 1;
    }

    // A packet row, with the packet's bytes; an event's has none.
    pub fn add_packet(&mut self, len: usize)
        requires len_bound { len ≤ 4096 }
        requires within { Within (2 ^ 60) self.old }
        ensures { self.new ≡ add_packet len self.old }
    {
        self.bytes += len;
        self.packets += 1;
    }

    // An event row.
    pub fn add_event(&mut self)
        requires { Within (2 ^ 60) self.old }
        ensures { self.new ≡ add_event self.old }
    {
        self.events += 1;
    }

    // A device row.
    pub fn add_device(&mut self)
        requires { Within (2 ^ 60) self.old }
        ensures { self.new ≡ add_device self.old }
    {
        self.devices += 1;
    }

    // An endpoint row.
    pub fn add_endpoint(&mut self)
        requires { Within (2 ^ 60) self.old }
        ensures { self.new ≡ add_endpoint self.old }
    {
        self.endpoints += 1;
    }

    // A transaction row.
    pub fn add_transaction(&mut self)
        requires { Within (2 ^ 60) self.old }
        ensures { self.new ≡ add_transaction self.old }
    {
        self.transactions += 1;
    }

    // A link row.
    pub fn add_link(&mut self)
        requires { Within (2 ^ 60) self.old }
        ensures { self.new ≡ add_link self.old }
    {
        self.links += 1;
    }

    // A request row.
    fn add_request(&mut self)
        requires { Within (2 ^ 60) self.old }
        ensures { self.new ≡ add_request self.old }
    {
        self.requests += 1;
    }

    // A group row, with its state row of a byte for each endpoint.
    pub fn add_entry(&mut self, endpoints: usize)
        requires endpoints_bound { endpoints ≤ 128 }
        requires within { Within (2 ^ 60) self.old }
        ensures { self.new ≡ add_entry endpoints self.old }
    {
        self.groups += 1;
        self.statebytes += endpoints;
        self.states += 1;
    }

    // An item, which closes all that wait: an E row each.
    pub fn add_item(&mut self)
        requires { Within (2 ^ 60) self.old }
        ensures { self.new ≡ add_item self.old }
    {
        self.items += 1;
        self.links += self.waiting;
        self.waiting = 0;
    }
}

// The rows of an update.
pub fn tally_update(u: Update, endpoints: usize, t: Tally) -> Tally
    requires endpoints_bound { endpoints ≤ 128 }
    requires within { Within (2 ^ 48) t }
    ensures { result ≡ tally_update u endpoints t }
{
    let mut t = t;
    if u.over {
        t.add_waiting();
    }
    if u.cut {
        t.add_waiting();
        t.add_entry(endpoints);
    }
    if u.link {
        t.add_link();
    }
    if u.start {
        t.add_link();
        t.add_entry(endpoints);
        t.add_item();
    }
    if u.end {
        t.add_waiting();
        t.add_entry(endpoints);
    }
    if u.item {
        t.add_item();
    }
    t
}

// The rows of what group_status has as its effect.
pub fn tally_effect(effect: Effect, t: Tally) -> Tally
    requires { Within (2 ^ 60) t }
    ensures { result ≡ tally_effect effect t }
{
    let mut t = t;
    match effect {
        Effect::NoEffect | Effect::PendingData(_) => {}
        Effect::NewDevice(_) => t.add_device(),
        Effect::Request(_) => t.add_request(),
        Effect::IndexData(..) => t.add_link(),
    }
    t
}
