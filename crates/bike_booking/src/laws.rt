//! The laws of an accepted request.

ghost use Rattle.bike_booking.specs.Booking.{BooksAccepted};
ghost use Rattle.bike_booking.specs.Figures.{FiguresFollow};

/// The laws of an accepted request, of whatever command. Its row changes lead from the tables of the sound operator
/// that accepts it to those of the operator after it, and its figures are those of that operator.
pub fn books_accepted()
    ensures books { BooksAccepted }
    ensures figures { FiguresFollow }
{}
