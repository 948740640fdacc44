ghost use Rattle.std.specs.Prelude.{◌≡◌, ◌+◌, ◌-◌, ◌^◌, min};

/// The account of a day with a load: five energies in whole megajoules, and a count.
#[derive(Clone, Copy, PartialEq, Eq, Debug)]
pub struct Account {
    /// The net system load of the day.
    pub load: u64,
    /// What the figures of the points come to that a reading covers on the day.
    pub supplied: u64,
    /// What the figures of all other points come to, as scaled.
    pub generated: u64,
    /// What the load leaves beside both, never negative.
    pub remainder: u64,
    /// What supplied energy has beyond the load, never negative.
    pub excess: u64,
    /// The missing count: how many estimated points have no estimate.
    pub missing: u64,
}

impl Account {
    // The account of a day with this load, beside these sums.
    pub(crate) fn new(load: u64, supplied: u64, generated: u64, missing: u64) -> Account
        ensures { result ≡ record {
          load = load;
          supplied = supplied;
          generated = generated;
          remainder = load - min (supplied + generated) (2 ^ 64 - 1);
          excess = supplied - load;
          missing = missing;
        } }
    {
        Account {
            load,
            supplied,
            generated,
            remainder: load.saturating_sub(supplied.saturating_add(generated)),
            excess: supplied.saturating_sub(load),
            missing,
        }
    }
}
