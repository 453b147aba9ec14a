// Signed times. The comparison comes before the operation, so that nothing overflows: the form of 01,
// in place of `checked_add` and `checked_sub`.
ghost use Rattle.std.specs.Prelude.{◌≡◌, pos, ◌+ℤ◌, ◌-ℤ◌};
ghost use Rattle.rules.specs.Decision.{max_z};
ghost use Rattle.numbers.specs.Times.{time_of, gap_of};

// t + d where it fits.
pub fn after(t: i64, d: u32) -> Option<i64>
    ensures { result ≡ time_of (t +ℤ pos d) }
{
    let w = i64::from(d);
    if i64::MAX - w < t {
        return None;
    }
    Some(t + w)
}

// t - d where it fits.
pub fn before(t: i64, d: u32) -> Option<i64>
    ensures { result ≡ time_of (t -ℤ pos d) }
{
    let w = i64::from(d);
    if t < i64::MIN + w {
        return None;
    }
    Some(t - w)
}

// The later of two times.
pub fn later(a: i64, b: i64) -> i64
    ensures { result ≡ max_z a b }
{
    a.max(b)
}

// How far `to` lies ahead of `from`, where it is not behind: it may be as much as 2^64 - 1.
pub fn span(from: i64, to: i64) -> Option<u64>
    ensures { result ≡ gap_of from to }
{
    if to < from {
        return None;
    }
    Some(to.abs_diff(from))
}
