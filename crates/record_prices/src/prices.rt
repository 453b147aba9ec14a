// The slot prices of a record, held against its bits, its sum and the greatest price of a print.
ghost use Rattle.std.specs.Prelude.{◌≡◌, ◌&&◌, ◌*◌, eqb, length};
ghost use Rattle.rules.specs.Brought.{low_slots};
ghost use Rattle.rules.specs.Record.{record_size, good_prices, holdings_in};
ghost use Rattle.record_prices.specs.Left.{Left};

use book::look::{RECORD_SIZE, SLOT_PLACES, SLOT_PRICES_AT};
use endian::LittleEndian;

// A print's price is below this: it comes as an i64.
pub const PRICE_LIMIT: u64 = 0x8000_0000_0000_0000;

// How many pairs of slots there are up to the last that has a price.
#[tactic(auto, using(rules::proofs::Bytes::are_bytes_lem, crate::proofs::Left::left_none, crate::proofs::Left::pair_none))]
fn priced(bytes: &[u8]) -> usize
    ensures { Left bytes.now (2 * result) 0 0 }
{
    for pair in (0..SLOT_PLACES as usize / 2).rev() {
        let at = SLOT_PRICES_AT + 16 * pair;
        if (u64::read(bytes, at) | u64::read(bytes, at + 8)) != 0 {
            return pair + 1;
        }
    }
    0
}

// Whether each slot has a price where its bit is set and zero where it is not, the sum is their
// total, and no price is too high for a print. Bytes of another length are no record. The bits that
// the prices make are gathered from the last pair of slots down and compared at once.
#[tactic(auto, using(crate::proofs::Left::left_few, crate::proofs::Left::pair_refused, crate::proofs::Left::bits_met, crate::proofs::Left::bits_missed))]
pub fn prices_stand(bytes: &[u8]) -> bool
    ensures { result ≡ eqb (length bytes.now) record_size && (good_prices (holdings_in bytes.now) && low_slots (holdings_in bytes.now)) }
{
    if bytes.len() != RECORD_SIZE {
        return false;
    }
    let mut bits: u64 = 0;
    let mut total: u128 = 0;
    for pair in (0..priced(bytes)).rev() {
        let at = SLOT_PRICES_AT + 16 * pair;
        let lower = u64::read(bytes, at);
        let upper = u64::read(bytes, at + 8);
        if PRICE_LIMIT <= (lower | upper) {
            return false;
        }
        bits = 4 * bits + (2 * u64::from(0 < upper) + u64::from(0 < lower));
        // Two prices below the limit fit into 64 bits together.
        let both = u128::from(upper.wrapping_add(lower));
        total += both;
    }
    bits == u64::from(u32::read(bytes, 32)) && total == u128::read(bytes, 48)
}
