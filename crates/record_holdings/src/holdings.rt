// The slots, links and fallback of a record, held to what prints always leave. Nothing is taken off
// the expiry before it is known to be large enough.
ghost use Rattle.std.specs.Prelude.{◌≡◌, ◌&&◌, ◌≤◌, eqb, length};
ghost use Rattle.rules.specs.Log.{every};
ghost use Rattle.rules.specs.Brought.{slots_after, fallback_time_tests, left_by_prints};
ghost use Rattle.rules.specs.Record.{record_size, good_prices, opening_in, holdings_in};
ghost use Rattle.record_holdings.specs.Tests.{all_after, first_links, link_tests, fallback_tests};

use endian::LittleEndian;
use numbers::time::span;
use record_prices::prices::{PRICE_LIMIT, prices_stand};

// ---- the slots

// Whether each filled slot lies so many seconds or more after the first slot. They rise, so only the
// lowest is asked.
#[tactic(auto, using(crate::proofs::Stand::none_filled, crate::proofs::Stand::lowest_filled))]
fn all_after(bits: u32, slot: u32, seconds: u64) -> bool
    ensures { result ≡ all_after bits slot seconds }
{
    bits == 0 || seconds <= u64::from(bits.trailing_zeros()) * u64::from(slot)
}

// Whether each filled slot has its boundary at 2 or later: where the first boundary is before that,
// they must make up for it.
#[tactic(auto, using(crate::proofs::Stand::slots_late, crate::proofs::Stand::slots_made_up, crate::proofs::Stand::least_is, endian::proofs::TwosComplement::came))]
fn slots_stand(bytes: &[u8]) -> bool
    ensures { result ≡ slots_after (opening_in bytes.now) (holdings_in bytes.now) }
{
    let least = 2 + i64::from(u32::read(bytes, 12));
    let Some(missing) = span(i64::read(bytes, 40), least) else {
        return true;
    };
    all_after(u32::read(bytes, 32), u32::read(bytes, 16), missing)
}

// ---- the links

// Whether the first so many links, at most five, are after the expiry, and no price of theirs is too
// high for a print.
fn first_stand(bytes: &[u8], links: u8) -> bool
    requires { links ≤ 5 }
    ensures { result ≡ first_links bytes.now links }
{
    let expiry = i64::read(bytes, 40);
    (0..usize::from(links)).all(|i| {
        let time = i64::read(bytes, 64 + 8 * i);
        let price = u64::read(bytes, 104 + 8 * i);
        expiry < time && price < PRICE_LIMIT
    })
}

// Whether the links are as prints leave them; without one, link changed is zero. The rules read a sixth
// link as a zero behind the five places, which is not after an expiry of 1 or later.
#[tactic(auto, using(crate::proofs::Stand::no_links, crate::proofs::Stand::links_early, crate::proofs::Stand::links_told, crate::proofs::Stand::links_many, endian::proofs::TwosComplement::came))]
fn links_stand(bytes: &[u8]) -> bool
    ensures { result ≡ every (link_tests bytes.now) }
{
    let links = u8::read(bytes, 3);
    if links == 0 {
        return i64::read(bytes, 168) == 0;
    }
    1 <= i64::read(bytes, 40) && links <= 5 && first_stand(bytes, links)
}

// ---- the fallback

// Whether a fallback of this time was published within the lookback before the expiry, and at 2 or
// later.
#[tactic(auto, using(crate::proofs::Stand::fallback_soon, crate::proofs::Stand::fallback_behind, crate::proofs::Stand::fallback_age, endian::proofs::TwosComplement::came), unfolding(rules::specs::Record::opening_in))]
fn in_time(bytes: &[u8], time: i64) -> bool
    ensures { result ≡ every (fallback_time_tests (opening_in bytes.now) time) }
{
    let Some(age) = span(time, i64::read(bytes, 40)) else {
        return false;
    };
    2 <= time && age <= u64::from(u32::read(bytes, 24))
}

// Whether the fallback is as a print leaves it; without one, fallback changed is zero.
#[tactic(auto, using(crate::proofs::Stand::no_fallback, crate::proofs::Stand::fallback_high, endian::proofs::TwosComplement::came))]
fn fallback_stands(bytes: &[u8]) -> bool
    ensures { result ≡ every (fallback_tests bytes.now) }
{
    let price = u64::read(bytes, 152);
    if price == 0 {
        return i64::read(bytes, 176) == 0;
    }
    if PRICE_LIMIT <= price {
        return false;
    }
    in_time(bytes, i64::read(bytes, 144))
}

// ---- all of it

// Whether slot prices, slots, links and fallback are such as prints leave. Where any stands, the two
// times that prints are measured by fit: that follows. Bytes of another length are no record.
#[tactic(auto, using(crate::proofs::Stand::prices_fail, crate::proofs::Stand::slots_fail, crate::proofs::Stand::links_fail, crate::proofs::Stand::fallback_left, rules::proofs::Bytes::are_bytes_lem))]
pub fn holdings_stand(bytes: &[u8]) -> bool
    ensures { result ≡ eqb (length bytes.now) record_size && (good_prices (holdings_in bytes.now) && left_by_prints (opening_in bytes.now) (holdings_in bytes.now)) }
{
    prices_stand(bytes) && slots_stand(bytes) && links_stand(bytes) && fallback_stands(bytes)
}
