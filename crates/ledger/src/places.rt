ghost use Rattle.std.specs.Prelude.{◌≡◌, map, length, is_some, is_ok, count_by, nat_lt, OnOk, IfErr};
ghost use Rattle.std.specs.Fn.{FnReturnsAt};
ghost use Rattle.std.specs.List.{list_all, list_any};
ghost use Rattle.rules.specs.Readings as held;
ghost use Rattle.rules.specs.declared.entry.Reading.{Reading};
ghost use Rattle.ledger.specs.Places.{EachTestOf, TakesPlace, freed_place, holds_passing};

use rules::Reading;

/// Whether a new reading covers a day of an old one of its point, and so replaces it.
pub fn replaces(new: &Reading, old: &Reading) -> bool
    ensures { result ≡ held.replaces new.now old.now }
{
    new.point == old.point && new.start < old.end && old.start < new.end
}

// Whether a place holds a reading that passes a test.
fn place_passes<F: Fn(&Reading) -> bool>(place: &Option<Reading>, test: &F) -> bool
    requires { F.IsAlwaysCallable test.now }
    ensures { EachTestOf (FnReturnsAt F.Fn test.now)
        (λ passes. result ≡ holds_passing passes place.now) }
{
    place.is_some_and(|reading| test(&reading))
}

// Whether some place holds a reading that passes a test. It looks no further than it must.
pub(crate) fn some_passing<F: Fn(&Reading) -> bool>(places: &[Option<Reading>], test: F) -> bool
    requires { F.IsAlwaysCallable test }
    ensures { EachTestOf (FnReturnsAt F.Fn test)
        (λ passes. result ≡ list_any (holds_passing passes) places.now) }
{
    places.iter().any(|place| place_passes(place, &test))
}

// Whether every place holds a reading that passes a test. It looks no further than it must.
pub(crate) fn all_passing<F: Fn(&Reading) -> bool>(places: &[Option<Reading>], test: F) -> bool
    requires { F.IsAlwaysCallable test }
    ensures { EachTestOf (FnReturnsAt F.Fn test)
        (λ passes. result ≡ list_all (holds_passing passes) places.now) }
{
    places.iter().all(|place| place_passes(place, &test))
}

// Frees a place where a new reading replaces the one in it.
fn free_where_replaced(place: &mut Option<Reading>, new: &Reading)
    ensures { place.new ≡ freed_place new.now place.old }
{
    if place.is_some_and(|old| replaces(new, &old)) {
        *place = None;
    }
}

/// Frees the places of the readings that a new one replaces. The others stay.
pub fn free_replaced(places: &mut [Option<Reading>], new: &Reading)
    ensures { places.new ≡ map (freed_place new.now) places.old }
{
    for place in places.iter_mut() {
        free_where_replaced(place, new);
    }
}

/// Puts a reading into the first free place. Where no place is free the reading comes back, and the places stay.
pub fn take_place(places: &mut [Option<Reading>], reading: Reading) -> Result<(), Reading>
    ensures free { is_ok result
        ≡ nat_lt (count_by (λ place. is_some place) places.old) (length places.old) }
    ensures taken { OnOk result (TakesPlace reading places.old places.new) }
    ensures full { IfErr result (λ back. (back ≡ reading) × (places.new ≡ places.old)) }
{
    let free = places
        .iter()
        .position(|place| place.is_none())
        .ok_or(reading)?;
    places[free] = Some(reading);
    Ok(())
}
