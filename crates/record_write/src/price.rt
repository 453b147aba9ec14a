// The price of one slot written.
ghost use Rattle.std.specs.Prelude.{◌≡◌};
ghost use Rattle.record_write.specs.Stores.{priced_over};

use crate::put::put;
use book::look::{SLOT_PLACES, SLOT_PRICES_AT};

// Writes the price of a slot over a record's bytes. Bytes of another length stay, and so do all for a
// number that is no slot.
pub fn write_slot_price(part: &mut [u8], slot: u8, price: u64)
    ensures { part.new ≡ priced_over part.old slot price }
{
    let Some(record) = part.as_mut_array() else {
        return;
    };
    if slot < SLOT_PLACES {
        put(record, SLOT_PRICES_AT + 8 * slot as usize, price);
    }
}
