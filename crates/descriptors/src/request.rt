// Which completed requests are looked at, by their setup data (USB 2.0, 9.3 and 9.4).
ghost use Rattle.std.specs.Prelude.{◌≡◌};
ghost use Rattle.usb.specs.Fields.{setup_of};
ghost use Rattle.descriptors.specs.Kind.{is_read, is_set_configuration, is_set_interface, kind_of};

// What a request is to the decoder.
#[derive(Clone, Copy, PartialEq, Eq)]
pub enum Kind {
    DeviceRead,
    ConfigurationRead,
    SetConfiguration,
    SetInterface,
    Other,
}

// Types of descriptors (table 9-5).
const DEVICE: u16 = 1;

const CONFIGURATION: u16 = 2;

// Standard requests (table 9-4).
const GET_DESCRIPTOR: u8 = 6;

const SET_CONFIGURATION: u8 = 9;

const SET_INTERFACE: u8 = 11;

// A read of a descriptor of this type: standard, from the device, to the host.
fn is_read(setup: u64, kind: u16) -> bool
    ensures { result ≡ is_read kind (setup_of setup) }
{
    let bits = usb::fields::kind(setup);
    let request = usb::fields::request(setup);
    let value = usb::fields::value(setup);
    (bits == 0x80) & ((request == GET_DESCRIPTOR) & (value / 256 == kind))
}

fn is_set_configuration(setup: u64) -> bool
    ensures { result ≡ is_set_configuration (setup_of setup) }
{
    let standard = usb::fields::request_type(setup);
    let request = usb::fields::request(setup);
    let value = usb::fields::value(setup);
    ((standard == 0) & (request == SET_CONFIGURATION)) & (value < 256)
}

fn is_set_interface(setup: u64) -> bool
    ensures { result ≡ is_set_interface (setup_of setup) }
{
    let standard = usb::fields::request_type(setup);
    let request = usb::fields::request(setup);
    let value = usb::fields::value(setup);
    let index = usb::fields::index(setup);
    ((standard == 0) & (request == SET_INTERFACE)) & ((value < 256) & (index < 256))
}

pub fn kind_of(setup: u64) -> Kind
    ensures { result ≡ kind_of setup }
{
    if is_read(setup, DEVICE) {
        Kind::DeviceRead
    } else if is_read(setup, CONFIGURATION) {
        Kind::ConfigurationRead
    } else if is_set_configuration(setup) {
        Kind::SetConfiguration
    } else if is_set_interface(setup) {
        Kind::SetInterface
    } else {
        Kind::Other
    }
}
