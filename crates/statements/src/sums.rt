ghost use Rattle.std.specs.Prelude.{◌≡◌, ℕ, ◌+◌, ◌<◌, ◌≤◌, ℤ, ◌++◌, length, take, drop, slice_index};
ghost use Rattle.statements.specs.Limits.{later_places, sum_count, largest_statement_sum};

/// The retailers of an area, numbered from 1.
pub const RETAILERS: usize = terms::RETAILERS as usize;

/// The sums of a statement: each retailer's, and the host remainder's. A first stage writes so many numbers.
pub const SUMS: usize = RETAILERS + 1;

/// The numbers that a later stage writes: an adjustment of each sum, and then the sums.
pub const LATER_PLACES: usize = 2 * SUMS;

// The most that a sum is counted to. No book comes near it, and the difference of two such sums is an i64.
pub(crate) const LARGEST_SUM: u64 = i64::MAX as u64;

/// What the days of a span come to, in megajoules.
#[derive(Clone, Copy, PartialEq, Eq, Debug)]
pub struct Sums {
    /// What the figures of each retailer's points come to, in the order of the retailers' numbers.
    pub retailers: [u64; RETAILERS],
    /// What is left to the host retailer.
    pub remainder: u64,
    ghost retailers_fit: { (k : ℕ) → slice_index retailers k ≤ largest_statement_sum },
    ghost remainder_fits: { remainder ≤ largest_statement_sum },
}

impl Sums {
    ghost use Rattle.statements.specs.Lists.{first_list, later_list, listed};
    ghost use Rattle.statements.specs.Sums.{sum_at};

    // The sum at a place: the retailers' in their order, and then the host remainder's.
    fn at(&self, place: usize) -> u64
        ensures value { result ≡ sum_at self.now place }
        ensures fits { result ≤ largest_statement_sum }
    {
        if place < RETAILERS {
            self.retailers[place]
        } else {
            self.remainder
        }
    }

    // Writes as many numbers as there are sums, each by its place among them, from a place of a list on.
    fn write_numbers<F: Fn(usize) -> i64>(list: &mut [i64], from: usize, number: F)
        requires room { from + sum_count ≤ length list.old }
        requires callable { (place : ℕ) → place < sum_count → F.pre number place }
        ensures { (f : ℕ → ℤ) → ((place : ℕ) (x : ℤ) → place < sum_count → F.post number place x → x ≡ f place)
            → list.new ≡ take from list.old ++ (listed f ++ drop (from + sum_count) list.old) }
    {
        for place in 0..SUMS {
            list[from + place] = number(place);
        }
    }

    // Writes the sums into the first places of a list.
    pub(crate) fn write(&self, list: &mut [i64])
        requires { sum_count ≤ length list.old }
        ensures { list.new ≡ first_list self.now list.old }
    {
        Sums::write_numbers(list, 0, |place| self.at(place) as i64);
    }

    // Writes what was added to older sums, which may be negative, and then the sums, into the first places of a list.
    pub(crate) fn write_after(&self, old: &Sums, list: &mut [i64])
        requires { later_places ≤ length list.old }
        ensures { list.new ≡ later_list old.now self.now list.old }
    {
        Sums::write_numbers(
            list,
            0,
            |place| self.at(place) as i64 - old.at(place) as i64,
        );
        Sums::write_numbers(list, SUMS, |place| self.at(place) as i64);
    }
}
