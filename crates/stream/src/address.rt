// The addresses of the device rows, kept beside them, so that a search reads these alone.
ghost use Rattle.std.specs.Prelude.{◌≡◌, ◌≤◌};
ghost use Rattle.stream.specs.Addresses.{Addressed, found_address};

use details::Device;

// The address of each device row.
pub fn addresses_of(devices: [Device; 64]) -> [u8; 64]
    ensures { Addressed 64 result devices }
{
    let mut addresses: [u8; 64] = [0; 64];
    for i in 0..64 {
        addresses[i] = devices[i].address;
    }
    addresses
}

// From the last back, since the last device stands for its address.
pub fn find_address(addresses: [u8; 64], n: usize, address: u8) -> Option<usize>
    requires { n ≤ 64 }
    ensures { result ≡ found_address addresses n address }
{
    // Stays: the form of find_device (details), for which it stands.
    let mut i = n;
    loop {
        if i == 0 {
            break None;
        }
        i -= 1;
        if addresses[i] == address {
            break Some(i);
        }
    }
}
