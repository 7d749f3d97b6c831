// What a completed request does (change request 2): to the device's part of the shelf, to the device's row, and the note of the request's row.
ghost use Rattle.std.specs.Prelude.{◌≡◌, ◌+◌, ◌≤◌, length};
ghost use Rattle.descriptors.specs.Kind.{kind_of};
ghost use Rattle.descriptors.specs.Chosen.{applied};
ghost use Rattle.descriptors.specs.Complete.{payload_for, entries_for, noted, max_note, set_note, with_max, completed_by, CompletesAs, Completes, device_by, row_with};
ghost use Rattle.descriptors.specs.Steps.{number_of};
ghost use Rattle.descriptors.specs.declared.request.Kind.TheVariants.{ConfigurationRead, SetConfiguration, SetInterface};

use crate::choose::{Choice, apply, configuration_choice, count_set, interface_choice};
use crate::payload::MOST;
use crate::request::{Kind, kind_of};
use crate::store::{LIMIT, keep_own};
use crate::walk::{read_max, read_value};
use details::{Device, UNCHOSEN};
use usb::types;

// A request that completes: its setup data, the length of its payload, where its device's part of the shelf begins, and what the device's row says:
// how many entries it keeps, and which configuration is chosen.
#[derive(Clone, Copy)]
pub struct Asked {
    pub setup: u64,
    pub length: u64,
    pub start: usize,
    pub kept: u16,
    pub chosen: u16,
}

// The note of its row, and what the device's row says then.
#[derive(Clone, Copy)]
pub struct Completed {
    pub note: u64,
    pub kept: u16,
    pub chosen: u16,
}

// What a note counts.
#[derive(Clone, Copy)]
enum What {
    Max = 1,
    Read,
    Set,
}

// The payload, as far as it was laid by.
fn payload_of(shelf: &[u8], a: Asked) -> &[u8]
    requires { a.start + 8192 ≤ length shelf.now }
    ensures { result.now ≡ payload_for a shelf.now }
{
    let count = (a.length as usize).min(MOST);
    &shelf[a.start..a.start + count]
}

fn note_of(what: What, count: usize) -> u64
    requires { count ≤ 585 }
    ensures { result ≡ noted (number_of what) count }
{
    4 * count as u64 + what as u64
}

fn max_note(shelf: &[u8], a: Asked) -> u64
    requires { a.start + 8192 ≤ length shelf.now }
    ensures { result ≡ max_note (payload_for a shelf.now) }
{
    read_max(payload_of(shelf, a)).map_or(0, |max| note_of(What::Max, usize::from(max)))
}

fn set_note(shelf: &[u8], a: Asked, choice: Choice) -> u64
    requires { a.start + 8192 ≤ length shelf.now }
    ensures { result ≡ set_note choice (entries_for a shelf.now) }
{
    let base = a.start + MOST;
    let kept = usize::from(a.kept).min(LIMIT);
    let count = count_set(choice, shelf, base, kept);
    note_of(What::Set, count)
}

// The device's row keeps what it says.
fn only_noted(a: Asked, note: u64) -> Completed
    ensures { result ≡ record { note = note; kept = a.kept; chosen = a.chosen } }
{
    Completed {
        note,
        kept: a.kept,
        chosen: a.chosen,
    }
}

fn complete_read(shelf: &mut [u8], a: Asked) -> Completed
    requires { a.start + 8192 ≤ length shelf.old }
    ensures { CompletesAs ConfigurationRead a shelf.old shelf.new result }
{
    if read_value(payload_of(shelf, a)).is_none() {
        return only_noted(a, 0);
    }
    let count = (a.length as usize).min(MOST);
    let kept = usize::from(a.kept).min(LIMIT);
    let left = keep_own(shelf, a.start, count, kept);
    let note = note_of(What::Read, left.added);
    Completed {
        kept: left.count as u16,
        ..only_noted(a, note)
    }
}

fn complete_configuration(shelf: &[u8], a: Asked) -> Completed
    requires { a.start + 8192 ≤ length shelf.now }
    ensures { result ≡ completed_by a shelf.now SetConfiguration }
{
    let choice = configuration_choice(a.setup);
    let note = set_note(shelf, a, choice);
    Completed {
        chosen: choice.value,
        ..only_noted(a, note)
    }
}

fn complete_interface(shelf: &[u8], a: Asked) -> Completed
    requires { a.start + 8192 ≤ length shelf.now }
    ensures { result ≡ completed_by a shelf.now SetInterface }
{
    if UNCHOSEN <= a.chosen {
        return only_noted(a, 0);
    }
    let choice = interface_choice(a.setup, a.chosen);
    only_noted(a, set_note(shelf, a, choice))
}

// A request completes: what it leaves on the shelf and of the device's row, but for the details.
pub fn complete(shelf: &mut [u8], a: Asked) -> Completed
    requires { a.start + 8192 ≤ length shelf.old }
    ensures { Completes a shelf.old shelf.new result }
{
    match kind_of(a.setup) {
        Kind::DeviceRead => only_noted(a, max_note(shelf, a)),
        Kind::ConfigurationRead => complete_read(shelf, a),
        Kind::SetConfiguration => complete_configuration(shelf, a),
        Kind::SetInterface => complete_interface(shelf, a),
        Kind::Other => only_noted(a, 0),
    }
}

// The max of endpoint 0, by a device read.
fn set_max(device: Device, a: Asked, shelf: &[u8]) -> Device
    requires { a.start + 8192 ≤ length shelf.now }
    ensures { result ≡ with_max (payload_for a shelf.now) device }
{
    match read_max(payload_of(shelf, a)) {
        Some(max) => details::set_given(device, 0, 0, types::CONTROL, u16::from(max)),
        None => device,
    }
}

fn apply_kept(device: Device, a: Asked, choice: Choice, shelf: &[u8]) -> Device
    requires { a.start + 8192 ≤ length shelf.now }
    ensures { result ≡ applied choice (entries_for a shelf.now) device }
{
    let base = a.start + MOST;
    let kept = usize::from(a.kept).min(LIMIT);
    apply(device, choice, shelf, base, kept)
}

fn apply_interface(device: Device, a: Asked, shelf: &[u8]) -> Device
    requires { a.start + 8192 ≤ length shelf.now }
    ensures { result ≡ device_by SetInterface a shelf.now device }
{
    if UNCHOSEN <= a.chosen {
        return device;
    }
    let one = interface_choice(a.setup, a.chosen);
    apply_kept(device, a, one, shelf)
}

// The device with the details that a completed request makes, by the shelf before the request or after it (`device_still`).
pub fn device_after(device: Device, a: Asked, shelf: &[u8]) -> Device
    requires { a.start + 8192 ≤ length shelf.now }
    ensures { result ≡ device_by (kind_of a.setup) a shelf.now device }
{
    match kind_of(a.setup) {
        Kind::DeviceRead => set_max(device, a, shelf),
        Kind::SetConfiguration => apply_kept(device, a, configuration_choice(a.setup), shelf),
        Kind::SetInterface => apply_interface(device, a, shelf),
        Kind::ConfigurationRead | Kind::Other => device,
    }
}

// The device's row: with those details, and with what the request left of it otherwise.
pub fn row_after(device: Device, a: Asked, r: Completed, shelf: &[u8]) -> Device
    requires { a.start + 8192 ≤ length shelf.now }
    ensures { result ≡ row_with r (device_by (kind_of a.setup) a shelf.now device) }
{
    let mut d = device_after(device, a, shelf);
    d.chosen = r.chosen;
    d.kept = r.kept;
    d
}
