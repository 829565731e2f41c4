// Addresses of fifteen bits in pages of 8,192, and reading through them.
#![tactic(auto, unfolding(crate::specs::OperandDefinitions::address_definitions))]

ghost use Rattle.std.specs.Prelude.{◌≡◌, ◌<◌};
ghost use Rattle.std.specs.Int.Signed.{mag};
ghost use Rattle.steps.specs.Address.{add_in_page, add_wrapping, address_of, fetch_of, pointer_of, resolve_of, displacement_of, displaced_of, relative_of};

use common::Address;

pub(crate) fn add_in_page(a: Address, k: u8) -> Address
    ensures { result ≡ add_in_page a k }
{
    Address(a.0 / 8192 * 8192 + (a.0 % 8192 + k as u16) % 8192)
}

pub fn add_wrapping(a: Address, k: u8) -> Address
    ensures { result ≡ add_wrapping a k }
{
    Address(((a.0 as u32 + k as u32) % 32768) as u16)
}

pub fn address_of(high: u8, low: u8) -> Address
    ensures { result ≡ address_of high low }
{
    Address(((high as u32 * 256 + low as u32) % 32768) as u16)
}

pub fn fetch(window: &[u8], a: Address) -> Option<u8>
    ensures { result ≡ fetch_of window.now a }
{
    window.get(a.0 as usize).copied()
}

pub(crate) fn pointer(window: &[u8], a: Address) -> Option<Address>
    ensures { result ≡ pointer_of window.now a }
{
    let high = fetch(window, a)?;
    let low = fetch(window, add_in_page(a, 1))?;
    Some(address_of(high, low))
}

// The indirect bit is the number that it is in the instruction: a caller may pass any.
pub fn resolve(window: &[u8], indirect: u8, a: Address) -> Option<Address>
    ensures { result ≡ resolve_of window.now indirect a }
{
    if indirect == 0 {
        Some(a)
    } else {
        pointer(window, a)
    }
}

// The seven-bit field as a signed number.
fn displacement(b: u8) -> i16
    ensures { result ≡ displacement_of b }
{
    let d = b % 128;
    if d < 64 { d as i16 } else { d as i16 - 128 }
}

// A page is added first, so that the signed sum is never negative.
fn displaced(a: Address, d: i16) -> Address
    requires { mag d < 64 }
    ensures { result ≡ displaced_of a d }
{
    let o = (a.0 % 8192 + 8192) as i16 + d;
    Address(a.0 / 8192 * 8192 + (o as u16) % 8192)
}

pub fn relative(next: Address, b: u8) -> Address
    ensures { result ≡ relative_of next b }
{
    let d = displacement(b);
    displaced(next, d)
}
