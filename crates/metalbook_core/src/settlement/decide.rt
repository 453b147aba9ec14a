// The decision.
ghost use Rattle.std.specs.Prelude.{◌≡◌};
ghost use Rattle.rules.specs.Decision.{voted};
ghost use Rattle.rules.specs.State.{decide_call};
ghost use Rattle.core_terms.specs.Params.{terms_of};
ghost use Rattle.core_decide.specs.Decisions.{decision_of, order_of};
ghost use Rattle.metalbook_core.specs.States.{state_of};

use crate::settlement::state::SettlementState;
pub use core_decide::decide::{Decision, Order, SettleMethod};
use core_terms::error::CoreError;
use core_terms::params::OracleParams;
use core_terms::units::UnixTimestamp;

impl SettlementState {
    // The decision at the time now, by an order: 12 for the terms, 11 for the state, and then the
    // cascade's.
    pub fn decide_by(
        self,
        params: OracleParams,
        expiry: UnixTimestamp,
        now: i64,
        order: Order,
    ) -> Result<Decision, CoreError>
        ensures { decision_of result ≡ decide_call (order_of order) (terms_of params) expiry.0 (state_of self) now }
    {
        core_decide::decide::decide_by(self.parts, params, expiry, now, order)
    }

    // The same by the vote.
    pub fn decide(
        self,
        params: OracleParams,
        expiry: UnixTimestamp,
        now: i64,
    ) -> Result<Decision, CoreError>
        ensures { decision_of result ≡ decide_call voted (terms_of params) expiry.0 (state_of self) now }
    {
        core_decide::decide::decide(self.parts, params, expiry, now)
    }
}
