// The outcome of a record: what stands in its bytes, and what is to stand there.
ghost use Rattle.std.specs.Prelude.{◌≡◌};
ghost use Rattle.core_decide.specs.Decisions.{decision_of};
ghost use Rattle.record_read.specs.Records.{outcome_in};
ghost use Rattle.record_read.specs.Outcomes.{IsStored};

use core_decide::decide::{Decision, SettleMethod};
use core_terms::error::CoreError;
use core_terms::units::StrikeUsd;
use endian::LittleEndian;

// What a record stores of a decision, as the numbers that stand there.
#[derive(Debug, Clone, Copy, PartialEq, Eq)]
pub struct StoredOutcome {
    pub samples: u16,
    pub method: u8,
    pub price: u64,
}

impl From<Decision> for StoredOutcome {
    ghost from_gives = { IsStored };

    // A Wait, which no record stores, has zeros.
    fn from(d: Decision) -> StoredOutcome {
        match d {
            Decision::Settle {
                method,
                price,
                samples,
            } => StoredOutcome {
                samples,
                method: method.number(),
                price: price.get(),
            },
            Decision::Void => StoredOutcome {
                samples: 0,
                method: SettleMethod::Void.number(),
                price: 0,
            },
            Decision::Wait { .. } => StoredOutcome {
                samples: 0,
                method: 0,
                price: 0,
            },
        }
    }
}

// The outcome by its fields, or 1: 5 is Void, which has no price.
pub fn read_outcome(bytes: &[u8]) -> Result<Decision, CoreError>
    ensures { decision_of result ≡ outcome_in bytes.now }
{
    let method = SettleMethod::try_from(u8::read(bytes, 36))?;
    match method {
        SettleMethod::Void => Ok(Decision::Void),
        _ => Ok(Decision::Settle {
            method,
            price: StrikeUsd::new(u64::read(bytes, 192)),
            samples: u16::read(bytes, 10),
        }),
    }
}
