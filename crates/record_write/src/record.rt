// Records written, field after field in the order of their offsets.
ghost use Rattle.std.specs.Prelude.{◌≡◌, ◌+◌, ◌≤◌, map};
ghost use Rattle.std.proofs.lemmas.List.Edits.{sets};
ghost use Rattle.rules.specs.Bytes.{concat, bytes};
ghost use Rattle.rules.specs.Record.{record_size, prices_in};
ghost use Rattle.core_terms.specs.Params.{terms_of};
ghost use Rattle.core_parts.specs.States.{stored_of};
ghost use Rattle.record_read.specs.Records.{opening_of};
ghost use Rattle.record_write.specs.Stores.{head_fields, seconds_fields, sum_fields, last_fields, record_of, record_over};

use crate::put::put;
use book::look::RECORD_SIZE;
use core_parts::state::SettlementParts;
use core_terms::params::OracleParams;
use endian::LittleEndian;
use record_read::contents::Opening;

// The fields of a record beside its opening and its candidates. The tag and the method are bytes of the
// format, and the definitions of a record speak of them as these numbers too: enums would be turned back
// where they are written.
#[derive(Debug, Clone, Copy, PartialEq, Eq)]
pub struct Outcome {
    pub tag: u8,
    pub samples: u16,
    pub method: u8,
    pub fixing_time: i64,
    pub price: u64,
}

// ---- the fields, in groups

// Bytes 0 to 11.
fn write_head(
    part: &mut [u8; RECORD_SIZE],
    tag: u8,
    p: OracleParams,
    links: u8,
    bps: u16,
    samples: u16,
)
    ensures { part.new ≡ sets part.old 0 (concat (head_fields tag (terms_of p) links bps samples)) }
{
    put(part, 0, tag);
    put(part, 1, p.k_next_print);
    put(part, 2, p.expo);
    put(part, 3, links);
    put(part, 4, p.slot_tolerance_s);
    put(part, 6, p.min_samples);
    put(part, 8, bps);
    put(part, 10, samples);
}

// Bytes 12 to 39. The method's number and three zeros are that number in four bytes.
fn write_seconds(part: &mut [u8; RECORD_SIZE], p: OracleParams, bits: u32, method: u8)
    ensures { part.new ≡ sets part.old 12 (concat (seconds_fields (terms_of p) bits method)) }
{
    put(part, 12, p.window_s);
    put(part, 16, p.slot_s);
    put(part, 20, p.challenge_delay_s);
    put(part, 24, p.fallback_lookback_s);
    put(part, 28, p.hard_deadline_s);
    put(part, 32, bits);
    put(part, 36, method as u32);
}

// Bytes 40 to 63.
fn write_sum(part: &mut [u8; RECORD_SIZE], expiry: i64, sum: u128)
    ensures { part.new ≡ sets part.old 40 (concat (sum_fields expiry sum)) }
{
    put(part, 40, expiry);
    put(part, 48, sum);
}

// The five times or prices of the links, from an offset on.
fn write_links<T: LittleEndian<8> + Copy>(part: &mut [u8; RECORD_SIZE], at: usize, links: [T; 5])
    requires { at + 40 ≤ record_size }
    ensures { part.new ≡ sets part.old at (concat (map (λ x. bytes 8 (T.bits x)) links)) }
{
    for (i, x) in links.iter().enumerate() {
        put(part, at + 8 * i, *x);
    }
}

// Bytes 144 to 199.
fn write_last(part: &mut [u8; RECORD_SIZE], state: SettlementParts, outcome: Outcome)
    ensures { part.new ≡ sets part.old 144 (concat (last_fields state.fallback_time state.fallback_price state.window_changed state.next_print_changed state.fallback_changed outcome.fixing_time outcome.price)) }
{
    put(part, 144, state.fallback_time);
    put(part, 152, state.fallback_price);
    put(part, 160, state.window_changed);
    put(part, 168, state.next_print_changed);
    put(part, 176, state.fallback_changed);
    put(part, 184, outcome.fixing_time);
    put(part, 192, outcome.price);
}

// ---- the record as a whole

// Writes a record over a record's bytes, whose slot prices stay. Bytes of another length stay too.
// Opening and state are not given as one `Contents`: that is copied at each call, and an open then takes
// five times the instructions, a fix a third more.
pub fn write_record(part: &mut [u8], opening: Opening, state: SettlementParts, outcome: Outcome)
    ensures { part.new ≡ record_over part.old (record_of (opening_of opening) (stored_of state) (prices_in part.old) outcome) }
{
    let Some(record) = part.as_mut_array() else {
        return;
    };
    write_head(
        record,
        outcome.tag,
        opening.params,
        state.next_len,
        opening.max_conf_bps,
        outcome.samples,
    );
    write_seconds(record, opening.params, state.filled_slots, outcome.method);
    write_sum(record, opening.expiry.get(), state.sample_sum);
    write_links(record, 64, state.next_times);
    write_links(record, 104, state.next_prices);
    write_last(record, state, outcome);
}
