// The settlement candidates of one series: the stored parts, once they are taken.
ghost use Rattle.std.specs.Prelude.{◌≡◌};
ghost use Rattle.rules.specs.State.{good_state, parts_of, restore};
ghost use Rattle.rules.specs.Series.{no_candidates};
ghost use Rattle.rules.specs.Decision.{ones};
ghost use Rattle.core_terms.specs.Params.{terms_of};
ghost use Rattle.core_parts.specs.States.{stored_of, value_or};
ghost use Rattle.metalbook_core.specs.States.{state_of, restored_of};

pub use core_parts::state::SettlementParts;
use core_terms::error::CoreError;
use core_terms::params::OracleParams;

#[derive(Debug, Clone, Copy, PartialEq, Eq)]
pub struct SettlementState {
    pub parts: SettlementParts,
}

// The answer, and beside it the state, as 01 has it: on a refusal the empty one.
#[derive(Debug, Clone, Copy, PartialEq, Eq)]
pub struct Restored {
    pub result: Result<(), CoreError>,
    pub state: SettlementState,
}

impl SettlementState {
    // No candidates.
    pub fn empty() -> SettlementState
        ensures { state_of result ≡ parts_of no_candidates }
    {
        SettlementState {
            parts: SettlementParts::empty(),
        }
    }

    // `restore`'s test, of terms that are in range.
    pub fn in_range(self, params: OracleParams) -> bool
        ensures { result ≡ good_state (terms_of params) (state_of self) }
    {
        self.parts.in_range(params)
    }

    // The state of stored parts; on a refusal the empty state.
    pub fn restore(params: OracleParams, p: SettlementParts) -> Restored
        ensures { (restored_of result ≡ restore (terms_of params) (stored_of p)) × (state_of result.state ≡ value_or (parts_of no_candidates) (restore (terms_of params) (stored_of p))) }
    {
        match p.check(params) {
            Ok(()) => Restored {
                result: Ok(()),
                state: SettlementState { parts: p },
            },
            Err(e) => Restored {
                result: Err(e),
                state: SettlementState::empty(),
            },
        }
    }

    // The parts to store.
    pub fn parts(self) -> SettlementParts
        ensures { stored_of result ≡ state_of self }
    {
        self.parts
    }

    // How many slots are filled.
    pub fn filled(self) -> u32
        ensures { result ≡ ones self.parts.filled_slots }
    {
        u32::count_ones(self.parts.filled_slots)
    }

    // How many links there are.
    pub fn next_len(self) -> u8
        ensures { result ≡ self.parts.next_len }
    {
        self.parts.next_len
    }
}
