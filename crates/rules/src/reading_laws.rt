//! What holds of the entries and the readings of every history that a book can have.

ghost use Rattle.rules.specs.ReadingLaws.{EntriesLieInTheBook, HeldLieEndToEnd, HeldLieInBook, HeldWithinPlaces, LastCoveringIsHeld, OtherEntriesLeaveReadings, ReadingsReplaceWholes};
ghost use Rattle.rules.specs.WorkedReadings.{WorkedReadings};

/// An accepted entry speaks of days and points of the book.
pub fn entries_lie_in_the_book()
    ensures { EntriesLieInTheBook }
{}

/// The last accepted reading that covers a point's day is the one held reading that covers it.
pub fn last_covering_reading_is_held()
    ensures { LastCoveringIsHeld }
{}

/// The held readings of a point lie end to end from its start day to its last mark.
pub fn held_readings_lie_end_to_end()
    ensures { HeldLieEndToEnd }
{}

/// A newly accepted reading replaces whole readings, and firm ones only where it is firm itself.
pub fn new_reading_replaces_whole_readings()
    ensures { ReadingsReplaceWholes }
{}

/// No more readings are held than there are places.
pub fn held_readings_have_places()
    ensures { HeldWithinPlaces }
{}

/// Entries that are no readings leave what is held, and entries of other points a point's marks.
pub fn other_entries_leave_readings()
    ensures { OtherEntriesLeaveReadings }
{}

/// A held reading keeps within the limits of the book, and each day that it covers has a load.
pub fn held_readings_lie_in_the_book()
    ensures { HeldLieInBook }
{}

/// One book and its readings, worked by hand: each refusal that a reading can meet.
pub fn worked_readings_hold()
    ensures { WorkedReadings }
{}
