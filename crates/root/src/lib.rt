// Quotients and roots of whole numbers, rounded up.
#![tactic(auto)]

ghost use Rattle.std.specs.Prelude.{◌≡◌, ◌+◌, ◌*◌, ◌/◌, ◌%◌, ◌^◌, ◌≤◌, ◌<◌};
ghost use Rattle.root.specs.Root.{ceil_div, least_root, least_root_over};

// The answer where the divisor or the factor is 0. Not an Option: what `rules` divides by is never 0, and each of its calls would
// have to say so.
const OVER_ZERO: u64 = 0;

// The least q with n <= d * q; OVER_ZERO where d is 0.
pub fn ceil_div(n: u64, d: u64) -> u64
    ensures { result ≡ ceil_div n d }
{
    if d == 0 { OVER_ZERO } else { n.div_ceil(d) }
}

// The whole root of a number and what is left over: the number less the root's square, at most twice the root.
// Where the number is below 2^62, the sum of the fields has both: they pass between calls as one u64, in a register
// (a struct costs a quarter more a root: docs/changes/R-5.md).
#[derive(Clone, Copy)]
struct Whole {
    // the root, from bit 32 on
    high: u64,
    left: u64,
}

// A root of one in `high`: 2^32.
const HIGH_ONE: u64 = 4294967296;

// The lowest bits of n, by shifts and a difference: document 02, R-5, allows no more here.
fn low_bits(n: u64, bits: u32) -> u64
    requires { bits < 64 }
    ensures { result ≡ n % 2 ^ bits }
{
    n - ((n >> bits) << bits)
}

// x with one digit more, in base 4, by a shift and a sum (R-5).
fn with_digit(x: u64, digit: u64) -> u64
    requires { (x < 2 ^ 32) × (digit < 4) }
    ensures { result ≡ 4 * x + digit }
{
    (x << 2) + digit
}

// The whole root of n and what is left over, from the sum of those of its quarter, n / 4, whose root has one binary digit
// less.
fn from_quarter(quarter: u64, n: u64) -> Whole
    requires { let r = quarter / 2 ^ 32 in let l = quarter % 2 ^ 32 in (r * r + l ≡ n / 4) × (l ≤ 2 * r) }
    ensures { let r = result.high / 2 ^ 32 in
        (result.high ≡ 2 ^ 32 * r) × (r * r + result.left ≡ n) × (result.left ≤ 2 * r) }
{
    let root = quarter >> 32;
    let left = with_digit(low_bits(quarter, 32), low_bits(n, 2));
    // what a digit of one takes: (2 * root + 1)^2 - (2 * root)^2
    let taken = with_digit(root, 1);
    if taken <= left {
        Whole {
            high: (root << 33) + HIGH_ONE,
            left: left - taken,
        }
    } else {
        Whole {
            high: root << 33,
            left,
        }
    }
}

// The sum of n's whole root and what is left over, as they stand in `Whole`. The number falls at each call.
fn whole_root(n: u64) -> u64
    requires { n < 2 ^ 62 }
    ensures { let r = result / 2 ^ 32 in let l = result % 2 ^ 32 in (r * r + l ≡ n) × (l ≤ 2 * r) }
{
    if n == 0 {
        return 0;
    }
    let whole = from_quarter(whole_root(n >> 2), n);
    whole.high + whole.left
}

// The least r with n <= r * r: the whole root, or one more where something is left over.
pub fn least_root(n: u64) -> u64
    ensures { result ≡ least_root n }
{
    let whole = from_quarter(whole_root(n >> 2), n);
    let root = whole.high >> 32;
    if 0 < whole.left { root + 1 } else { root }
}

// The least t with n <= a * t * t; OVER_ZERO where a is 0.
pub fn least_root_over(n: u64, a: u64) -> u64
    ensures { result ≡ least_root_over n a }
{
    if a == 0 {
        OVER_ZERO
    } else {
        least_root(ceil_div(n, a))
    }
}
