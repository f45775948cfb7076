//! The row of what was archived.

ghost use Rattle.std.specs.Prelude.{◌≡◌, option_map};
ghost use Rattle.bike_readings.specs.Readings.{books_read};
ghost use Rattle.bike_readings.specs.Views.{books_of};

use crate::columns::{number_in, request_count_in};
use crate::part::Part;
use bike_book::RequestCount;
use bike_book::columns::books;
use bike_fields::GREATEST_SERIAL;
use bike_fixed::Within;

/// The row of `books`: how much was archived.
#[derive(Clone, Copy)]
pub struct StoredBooks {
    pub requests: RequestCount,
    pub entries: u32,
    pub rentals: u32,
}

/// What a row of `books` spells.
pub fn read_books(part: Part<'_>) -> Option<StoredBooks>
    ensures { option_map books_of result ≡ books_read part.entry }
{
    if part.column_count() != books::COLUMNS {
        return None;
    }
    let _one: Within<1, 1> = number_in(&part, books::ONE)?;
    let requests = request_count_in(&part, books::REQUESTS)?;
    let entries: Within<0, GREATEST_SERIAL> = number_in(&part, books::ENTRIES)?;
    let rentals: Within<0, GREATEST_SERIAL> = number_in(&part, books::RENTALS)?;
    Some(StoredBooks {
        requests,
        entries: entries.get(),
        rentals: rentals.get(),
    })
}
