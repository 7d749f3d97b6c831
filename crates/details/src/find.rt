// The search for a device: the last row of an address.
ghost use Rattle.std.specs.Prelude.{◌≡◌, ◌≤◌};
ghost use Rattle.details.specs.Lookup.{found_device};

use crate::Device;

// From the last device back, since the last one stands for its address.
#[tactic(auto, unfolding(crate::specs::Lookup::found_device))]
pub fn find_device(devices: [Device; 64], n: usize, address: u8) -> Option<usize>
    requires { n ≤ 64 }
    ensures { result ≡ found_device devices n address }
{
    // Stays: 01 fixes the form, a loop that breaks with the number of the row, or with none.
    let mut i = n;
    loop {
        if i == 0 {
            break None;
        }
        i -= 1;
        if devices[i].address == address {
            break Some(i);
        }
    }
}
