ghost use Rattle.std.specs.Prelude.{◌≡◌};
ghost use Rattle.terms.specs.Limits.{retailers};
ghost use Rattle.rules.specs.Calls.{is_between};

use terms::RETAILERS;

// Whether there is such a retailer.
pub(crate) fn retailer_within(retailer: u32) -> bool
    ensures { result ≡ is_between 1 retailers retailer }
{
    (1..=RETAILERS).contains(&retailer)
}
