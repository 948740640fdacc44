ghost use Rattle.std.specs.Prelude.{◌≡◌, ◌/◌, ◌<◌, T};
ghost use Rattle.allocation.specs.Divisor.{is_reciprocal};

// Of numbers below this a reciprocal gives the exact quotient; it is made for divisors up to half of it.
const RECIPROCAL_LIMIT: u64 = 1 << 32;

// To make a reciprocal takes a division, which pays where more numbers than these are divided.
const FEW_NUMBERS: usize = 2;

// A divisor of many numbers. Most are divided by one multiplication with its reciprocal, which takes a fraction of a
// division's time.
#[derive(Clone, Copy)]
pub(crate) struct Divisor {
    pub by: u64,
    // 2^64 / by, rounded up; 0 where it is not used.
    pub reciprocal: u64,
    ghost exact: { T (is_reciprocal by reciprocal) },
}

impl Divisor {
    // The divisor `by` of so many numbers, that grow evenly up to the largest. A reciprocal is made where it is exact for
    // about half of them or more.
    pub(crate) fn new(by: u64, numbers: usize, largest: u64) -> Divisor
        ensures { result.by ≡ by }
    {
        let pays = numbers > FEW_NUMBERS && largest / 2 < RECIPROCAL_LIMIT;
        let reciprocal = if pays && (2..=RECIPROCAL_LIMIT / 2).contains(&by) {
            u64::MAX / by + 1
        } else {
            0
        };
        Divisor { by, reciprocal }
    }

    // The quotient of a number, rounded down.
    pub(crate) fn quotient(self, number: u64) -> u64
        requires { 0 < self.by }
        ensures { result ≡ number / self.by }
    {
        if self.reciprocal > 0 && number < RECIPROCAL_LIMIT {
            ((u128::from(number) * u128::from(self.reciprocal)) >> 64) as u64
        } else {
            number / self.by
        }
    }
}
