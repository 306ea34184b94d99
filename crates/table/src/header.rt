// The header of a file: eight fields of two bytes, each with a least and a greatest value.
ghost use Rattle.std.specs.Prelude.{◌≡◌, ℕ, ◌*◌, ◌<◌, ◌⊎◌, Decides};
ghost use Rattle.model.specs.Order.{Answered};
ghost use Rattle.table.specs.Header.{OutOfBounds, fault_at, fields};

use crate::bytes::word;
use model::fault::{Fault, Refusal};

pub const HEADER_LENGTH: usize = 16;

pub const FIELDS: usize = 8;

// A fault at a place in a file.
pub fn fault_at(number: Refusal, place: u32) -> Fault
    ensures { result ≡ fault_at number place }
{
    Fault {
        number,
        a: place,
        b: 0,
        c: 0,
    }
}

// Whether a value lies outside its bounds.
fn out_of_bounds(value: u16, bounds: (u32, u32)) -> bool
    ensures { Decides result ((value < bounds.0) ⊎ (bounds.1 < value)) }
{
    let value = u32::from(value);
    let (least, greatest) = bounds;
    !(least..=greatest).contains(&value)
}

// The lowest field outside its bounds, as a refusal with the field's offset.
pub fn check_fields(
    bytes: &[u8],
    bounds: &[(u32, u32); FIELDS],
    number: Refusal,
) -> Result<(), Fault>
    ensures { Answered (OutOfBounds bytes.now bounds.now) (λ i. fault_at number (2 * i)) fields result }
{
    for (field, within) in bounds.iter().enumerate() {
        if out_of_bounds(word(bytes, 2 * field), *within) {
            return Err(fault_at(number, 2 * field as u32));
        }
    }
    Ok(())
}
