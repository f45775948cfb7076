//! The operator's figures, which a request needs beside what its command names.

ghost use Rattle.std.specs.Prelude.{◌≡◌};
ghost use Rattle.bike_booking.specs.Figures.{entries_after, figures_after, orders_after, rentals_after};

use bike_accepted::{Accepted, BookedEntry, Change};
use bike_book::RequestCount;
use bike_fixed::Moment;

/// The operator's moment, and how many rentals, orders, entries and accepted requests it has.
#[derive(Clone, Copy)]
pub struct Figures {
    /// The greatest moment of an accepted request.
    pub now: Moment,
    /// How many rentals there are.
    pub rentals: u32,
    /// How many orders.
    pub orders: u32,
    /// How many entries.
    pub entries: u32,
    /// How many accepted requests.
    pub requests: RequestCount,
}

/// How many rentals there are with what is added.
fn rentals_after(rentals: u32, change: &Option<Change<'_>>) -> u32
    ensures { result ≡ rentals_after rentals change.now }
{
    match change {
        Some(Change::AddRental { rental, .. }) => *rental,
        _ => rentals,
    }
}

/// How many orders there are with what is added.
fn orders_after(orders: u32, change: &Option<Change<'_>>) -> u32
    ensures { result ≡ orders_after orders change.now }
{
    match change {
        Some(Change::AddOrder { order, .. }) => *order,
        _ => orders,
    }
}

/// How many entries there are with the one that is booked.
fn entries_after(entries: u32, entry: &Option<BookedEntry>) -> u32
    ensures { result ≡ entries_after entries entry.now }
{
    match entry {
        Some(booked) => booked.entry.number().get(),
        None => entries,
    }
}

impl Figures {
    /// The figures with an accepted command; none where no further request can be numbered.
    pub fn after(&self, now: Moment, accepted: &Accepted<'_>) -> Option<Figures>
        ensures { result ≡ figures_after self.entry.now now accepted.now }
    {
        let requests = self.requests.next()?;
        Some(Figures {
            now,
            rentals: rentals_after(self.rentals, &accepted.change),
            orders: orders_after(self.orders, &accepted.change),
            entries: entries_after(self.entries, &accepted.entry),
            requests,
        })
    }
}
