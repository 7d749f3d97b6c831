// The search for an endpoint: the first row of a device and an address.
ghost use Rattle.std.specs.Prelude.{◌≡◌, ◌≤◌};
ghost use Rattle.endpoints.specs.Find.{found_endpoint};

use crate::{Table, word};

// From row 0 on: no token has a number above 15, so none finds a special endpoint (rows 0 to 2, numbers 0x10 to 0x12).
#[tactic(auto, unfolding(crate::specs::Find::found_endpoint))]
pub fn find_endpoint(table: &Table, n: usize, device: u64, address: u8) -> Option<usize>
    requires { n ≤ 128 }
    ensures { result ≡ found_endpoint table.now n device address }
{
    // Stays: 01 fixes the form, a loop that breaks with the number of the row, or with none.
    let mut i: usize = 0;
    loop {
        if n <= i {
            break None;
        }
        let at = i * word::WIDTH;
        if table[at + word::DEVICE] == device && table[at + word::ADDRESS] % 256 == address as u64 {
            break Some(i);
        }
        i += 1;
    }
}
