// The candidates without the print of a slot.
ghost use Rattle.std.specs.Prelude.{◌≡◌, ◌^◌, ◌≤◌, ◌<◌};
ghost use Rattle.core_parts.specs.States.{stored_of};
ghost use Rattle.withdrawals.specs.Freed.{freed_parts};

use core_parts::state::SettlementParts;

// The state without the print of slot i, which has this price.
#[tactic(auto, using(core_take::proofs::Bits::mask_is), unfolding(core_parts::specs::States::stored_of))]
pub(crate) fn freed(s: SettlementParts, i: u8, price: u64, now: i64) -> SettlementParts
    requires { (i < 32) × (2 ^ i ≤ s.filled_slots) × (price ≤ (stored_of s).sum) }
    ensures { stored_of result ≡ freed_parts (stored_of s) i price now }
{
    SettlementParts {
        filled_slots: s.filled_slots - (1 << (i as u32)),
        sample_sum: s.sample_sum - price as u128,
        window_changed: now,
        ..s
    }
}
