// Taking a print.
ghost use Rattle.std.specs.Prelude.{◌≡◌};
ghost use Rattle.rules.specs.State.{add_print_call, add_print_state, offer_call, offer_state};
ghost use Rattle.core_terms.specs.Params.{terms_of};
ghost use Rattle.core_prices.specs.Prints.{print_of, quote_of};
ghost use Rattle.core_take.specs.Uses.{used_of};
ghost use Rattle.metalbook_core.specs.States.{state_of};

use crate::settlement::state::SettlementState;
use core_prices::print::{Print, Quote};
pub use core_take::take::{Added, PrintUse};
use core_terms::params::OracleParams;
use core_terms::units::UnixTimestamp;

impl SettlementState {
    // Takes a print: 12 for the terms, 11 for the state, 13 for the print, and then the core's
    // answer. A refusal gives back the state that was given.
    pub fn add_print(
        self,
        params: OracleParams,
        expiry: UnixTimestamp,
        print: Print,
        now: i64,
    ) -> Added<SettlementState>
        ensures { (used_of result.result ≡ add_print_call (terms_of params) expiry.0 (state_of self) (print_of print)) × (state_of result.state ≡ add_print_state (terms_of params) expiry.0 (state_of self) (print_of print) now) }
    {
        let Added { result, state } = core_take::take::add_print(
            self.parts, params, expiry, print, now,
        );
        Added {
            result,
            state: SettlementState { parts: state },
        }
    }

    // An offered print: 12 for the terms, 11 for the state, then its acceptance and the core's
    // answer. A refusal gives back the state that was given.
    pub fn offer(
        self,
        params: OracleParams,
        expiry: UnixTimestamp,
        max_conf_bps: u16,
        quote: Quote,
        now: i64,
    ) -> Added<SettlementState>
        ensures { (used_of result.result ≡ offer_call (terms_of params) max_conf_bps expiry.0 (state_of self) (quote_of quote)) × (state_of result.state ≡ offer_state (terms_of params) max_conf_bps expiry.0 (state_of self) (quote_of quote) now) }
    {
        let Added { result, state } = core_take::take::offer(
            self.parts,
            params,
            expiry,
            max_conf_bps,
            quote,
            now,
        );
        Added {
            result,
            state: SettlementState { parts: state },
        }
    }
}
