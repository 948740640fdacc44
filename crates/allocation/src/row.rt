ghost use Rattle.std.specs.Prelude.{◌≡◌, ℕ, ◌≤◌};

/// A row of a sharing: it has a weight and takes a share. What a share leaves of the row is fixed by the ghost members.
pub trait Row {
    /// The largest weight that this kind of row can have.
    const LARGEST: u64;

    // The same number, as clauses name it.
    ghost LARGEST: { ℕ };

    // The weight of a row.
    ghost weight: { Self → ℕ };

    // The row once it has taken a share.
    ghost with_share: { Self → ℕ → Self };

    /// The weight of the row.
    fn weight(&self) -> u64
        ensures { result ≡ weight self.now };

    /// Takes a share, in the place of one taken before.
    fn take(&mut self, share: u64)
        ensures { self.new ≡ with_share self.old share };

    // No row weighs more than its kind can.
    ghost within_largest: { (row : Self) → weight row ≤ LARGEST };
}
