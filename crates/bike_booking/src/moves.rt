//! The laws: which row changes book a bicycle put and a dock marked, and what holds at the ends of a request.

ghost use Rattle.bike_book.specs.ChangeLaws.{Everywhere};
ghost use Rattle.bike_booking.specs.Ends.{StoredDocksLaw, SoundEndsLaw};
ghost use Rattle.bike_booking.specs.PutLaws.{AtEachMoment, AwayLaw, AtDockLaw, MarkedEmptyLaw, MarkedHeldLaw};
ghost use Rattle.bike_booking.specs.PutLaws.{AddDocksLaw};

/// The laws of a bicycle's record put, in another state or place or both: from no dock to no dock, and from, into or in
/// a dock, whose station reports. The numbers to write follow from those stored.
pub fn books_put()
    ensures away { AtEachMoment AwayLaw }
    ensures at_dock { AtEachMoment AtDockLaw }
{}

/// The laws of a dock marked as broken or as working, whose station reports: an empty one, and one with a bicycle in
/// it. The numbers to write follow from those stored.
pub fn books_marked()
    ensures empty { AtEachMoment MarkedEmptyLaw }
    ensures held { AtEachMoment MarkedHeldLaw }
{}

/// The law of docks that a station gets, which are empty and work. It doesn't report.
pub fn books_added_docks()
    ensures { Everywhere AddDocksLaw }
{}

/// The law of both ends of a request: between two sound operators, row changes that book what lies between lead
/// from the tables of the one to those of the other, and a station's numbers begin as they are stored.
pub fn books_request()
    ensures stored { StoredDocksLaw }
    ensures ends { SoundEndsLaw }
{}
