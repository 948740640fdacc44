ghost use Rattle.sheet.specs.Coverage.{CoverageReaches};
ghost use Rattle.sheet.specs.HeldReadings.{PlacesHoldHeldReadings};
ghost use Rattle.sheet.specs.RowsByPlaces.{RowsByPlaces};

/// The readings in the places of a ledger are the held ones.
pub fn places_hold_held_readings()
    ensures { PlacesHoldHeldReadings }
{}

/// Each point is covered from its start day up to a day that enrolments and readings alone move.
pub fn coverage_reaches()
    ensures { CoverageReaches }
{}

/// Lists are known by their places, and a table laid day by day has one for each point and day.
pub fn rows_by_places()
    ensures { RowsByPlaces }
{}
