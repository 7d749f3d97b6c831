// What the control rules look at in a request, beyond its fields (usb::fields).
ghost use Rattle.std.specs.Prelude.{◌≡◌};
ghost use Rattle.group.specs.Setup.{address_of, with_data};

use usb::fields::{length, value};

// The low byte of wValue.
pub fn address(setup: u64) -> u8
    ensures { result ≡ address_of setup }
{
    (value(setup) % 256) as u8
}

// Whether wLength is not 0: 1 or 0.
pub fn with_data(setup: u64) -> u8
    ensures { result ≡ with_data setup }
{
    if length(setup) == 0 { 0 } else { 1 }
}
