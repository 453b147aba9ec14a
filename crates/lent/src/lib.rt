// The entry that lends the state, as the Rust's `add_print(&mut self, ..)` does.
#![tactic(auto)]

ghost use Rattle.std.specs.Prelude.{◌≡◌};
ghost use Rattle.rules.specs.State.{add_print_call, add_print_state};
ghost use Rattle.core_terms.specs.Params.{terms_of};
ghost use Rattle.core_prices.specs.Prints.{print_of};
ghost use Rattle.metalbook_core.specs.States.{state_of};
ghost use Rattle.core_take.specs.Uses.{used_of};

use metalbook_core::error::CoreError;
use metalbook_core::settlement::params::OracleParams;
use metalbook_core::settlement::print::Print;
use metalbook_core::settlement::state::SettlementState;
use metalbook_core::settlement::take::{Added, PrintUse};
use metalbook_core::units::UnixTimestamp;

// Takes a print, with the core's answer. A refusal leaves the state as it was.
pub fn add_print(
    state: &mut SettlementState,
    params: OracleParams,
    expiry: UnixTimestamp,
    print: Print,
    now: i64,
) -> Result<PrintUse, CoreError>
    ensures { (used_of result ≡ add_print_call (terms_of params) expiry.0 (state_of state.old) (print_of print))
        × (state_of state.new ≡ add_print_state (terms_of params) expiry.0 (state_of state.old) (print_of print) now) }
{
    let s = *state;
    let t = s.add_print(params, expiry, print, now);
    *state = t.state;
    t.result
}

// The same by value: it lends a local, so that a caller needs no borrow.
pub fn add_through(
    state: SettlementState,
    params: OracleParams,
    expiry: UnixTimestamp,
    print: Print,
    now: i64,
) -> Added<SettlementState>
    ensures { (used_of result.result ≡ add_print_call (terms_of params) expiry.0 (state_of state) (print_of print))
        × (state_of result.state ≡ add_print_state (terms_of params) expiry.0 (state_of state) (print_of print) now) }
{
    let mut s = state;
    let result = add_print(&mut s, params, expiry, print, now);
    Added { result, state: s }
}
