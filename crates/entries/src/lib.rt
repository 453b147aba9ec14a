// Entries for C and Rust, on numbers and byte slices. A refusal is its number; of the mean and of
// acceptance, 255 says that there is none.
#![tactic(auto)]

ghost use Rattle.std.specs.Prelude.{◌≡◌, ◌+◌, ◌*◌, ◌^◌};
ghost use Rattle.rules.specs.Bytes.{word};
ghost use Rattle.rules.specs.Mean.{mean};
ghost use Rattle.rules.specs.Prints.{accept};
ghost use Rattle.core_prices.specs.Prints.{print_result_of, quote_at};
ghost use Rattle.rules.specs.Book.{answer_to, book_after};
ghost use Rattle.entries.specs.Codes.{code_of, stored_price, stored_amount, place_code, answer_code, first_after, second_after, third_after};

use answers::answer::Answer;
use core_prices::print::Print;
use core_terms::error::CoreError;

// The mean of count prices with this sum, stored in price.
#[unsafe(no_mangle)]
pub extern "C" fn lanternfold_to_atoms(
    sum_low: u64,
    sum_high: u64,
    count: u32,
    expo: i8,
    price: &mut u64,
) -> u8
    ensures { (result ≡ code_of (mean (sum_high * 2 ^ 64 + sum_low) count expo))
        × (price.new ≡ stored_price price.old (mean (sum_high * 2 ^ 64 + sum_low) count expo)) }
{
    let sum = (sum_high as u128) * 0x1_0000_0000_0000_0000 + (sum_low as u128);
    match core_prices::mean::to_atoms(sum, count, expo) {
        Ok(p) => {
            *price = p.get();
            255
        }
        Err(e) => e.number(),
    }
}

// The number of a refusal, or 255.
fn refusal(r: Result<Print, CoreError>) -> u8
    ensures { result ≡ code_of (print_result_of r) }
{
    match r {
        Ok(_) => 255,
        Err(e) => e.number(),
    }
}

// The acceptance of a print, whose price is stored in amount. It is split by `let .. else`, which 01
// asks for here and in `core_take`.
#[unsafe(no_mangle)]
pub extern "C" fn lanternfold_accept_print(
    price: i64,
    conf: u64,
    exponent: i32,
    publish_time: i64,
    prev_publish_time: i64,
    expo: i8,
    max_conf_bps: u16,
    amount: &mut u64,
) -> u8
    ensures { (result ≡ code_of (accept expo max_conf_bps (quote_at price conf exponent publish_time prev_publish_time)))
        × (amount.new ≡ stored_amount amount.old (accept expo max_conf_bps (quote_at price conf exponent publish_time prev_publish_time))) }
{
    let accepted = core_prices::print::accept_print(
        price,
        conf,
        exponent,
        publish_time,
        prev_publish_time,
        expo,
        max_conf_bps,
    );
    let Ok(print) = accepted else {
        return refusal(accepted);
    };
    *amount = print.price();
    255
}

// ---- one command on a book

// A place, or 255 for none.
fn place(i: Option<u8>) -> u64
    ensures { result ≡ place_code i }
{
    i.unwrap_or(255) as u64
}

// A time in two's complement.
#[tactic(auto, using(endian::proofs::TwosComplement::word_is))]
fn bits(z: i64) -> u64
    ensures { result ≡ word 64 z }
{
    z.cast_unsigned()
}

// Gives the entry to the book: a refusal's number, or 255 Opened, 254 Used, 253 Wait, 252 Settle,
// 251 Void, 250 Done. Used stores slot, link and fallback in the three numbers, Wait its time in the
// first, Settle method, price and samples; a number that the answer does not have stays.
#[unsafe(no_mangle)]
pub extern "C" fn lanternfold_command(
    book: &mut [u8],
    entry: &[u8],
    first: &mut u64,
    second: &mut u64,
    third: &mut u64,
) -> u8
    ensures { (result ≡ answer_code (answer_to book.old entry.now))
        × (book.new ≡ book_after book.old entry.now)
        × (first.new ≡ first_after first.old (answer_to book.old entry.now))
        × (second.new ≡ second_after second.old (answer_to book.old entry.now))
        × (third.new ≡ third_after third.old (answer_to book.old entry.now)) }
{
    match commands::apply::apply(book, entry) {
        Answer::Opened => 255,
        Answer::Used(u) => {
            *first = place(u.slot);
            *second = place(u.next_print);
            *third = u.fallback as u64;
            254
        }
        Answer::Wait { until } => {
            *first = bits(until);
            253
        }
        Answer::Settle {
            method,
            price,
            samples,
        } => {
            *first = method.number() as u64;
            *second = price.get();
            *third = samples as u64;
            252
        }
        Answer::Void => 251,
        Answer::Done => 250,
        Answer::Refused(r) => r.number(),
    }
}
