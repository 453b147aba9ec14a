// Prints, and their acceptance.
ghost use Rattle.std.specs.Prelude.{◌≡◌, ◌*◌, ltb};
ghost use Rattle.rules.specs.Prints.{good_print, new_print, accept};
ghost use Rattle.core_prices.specs.Prints.{print_of, print_at, print_result_of, quote_at};

use core_terms::error::CoreError;

#[derive(Debug, Clone, Copy, PartialEq, Eq)]
pub struct Print {
    pub price: u64,
    pub publish_time: i64,
    pub prev_publish_time: i64,
}

// What acceptance is given.
#[derive(Debug, Clone, Copy, PartialEq, Eq)]
pub struct Quote {
    pub price: i64,
    pub conf: u64,
    pub exponent: i32,
    pub publish_time: i64,
    pub prev_publish_time: i64,
}

impl Print {
    // Whether the price and the times are good: what making a print and adding one ask.
    pub fn in_range(self) -> bool
        ensures { result ≡ good_print (print_of self) }
    {
        let prev = self.prev_publish_time;
        if self.price == 0 {
            return false;
        }
        if prev <= 0 {
            return false;
        }
        prev <= self.publish_time
    }

    // The source's constructor: it takes the fields one by one.
    pub fn try_new(
        price: u64,
        publish_time: i64,
        prev_publish_time: i64,
    ) -> Result<Print, CoreError>
        ensures { print_result_of result ≡ new_print (print_at price publish_time prev_publish_time) }
    {
        let p = Print {
            price,
            publish_time,
            prev_publish_time,
        };
        if !p.in_range() {
            return Err(CoreError::InvalidPrint);
        }
        Ok(p)
    }

    pub fn price(self) -> u64
        ensures { result ≡ self.price }
    {
        self.price
    }

    pub fn publish_time(self) -> i64
        ensures { result ≡ self.publish_time }
    {
        self.publish_time
    }

    pub fn prev_publish_time(self) -> i64
        ensures { result ≡ self.prev_publish_time }
    {
        self.prev_publish_time
    }
}

// Whether price * bps < conf * 10,000, exactly: no product of these overflows 128 bits.
fn too_wide(price: u64, bps: u16, conf: u64) -> bool
    ensures { result ≡ ltb (price * bps) (conf * 10000) }
{
    (price as u128) * (bps as u128) < (conf as u128) * 10000
}

// The acceptance of a print on a series with the exponent expo and the bound max_conf_bps. The quote
// is no one parameter: the source takes its numbers one by one, and the port keeps that.
pub fn accept_print(
    price: i64,
    conf: u64,
    exponent: i32,
    publish_time: i64,
    prev_publish_time: i64,
    expo: i8,
    max_conf_bps: u16,
) -> Result<Print, CoreError>
    ensures { print_result_of result ≡ accept expo max_conf_bps (quote_at price conf exponent publish_time prev_publish_time) }
{
    if price <= 0 {
        return Err(CoreError::InvalidPrint);
    }
    let e = expo as i32;
    if exponent != e {
        return Err(CoreError::ExponentMismatch);
    }
    let amount = price as u64;
    if too_wide(amount, max_conf_bps, conf) {
        return Err(CoreError::ConfidenceTooWide);
    }
    Print::try_new(amount, publish_time, prev_publish_time)
}
