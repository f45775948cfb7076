//! What is known of the operator when a request is read, and whether the ledger has room for one more entry.

ghost use Rattle.std.specs.Prelude.{◌≡◌, IfSome};
ghost use Rattle.bike_operator.specs.Operator.{last_number};
ghost use Rattle.bike_operator.specs.View.{has_full_ledger};
ghost use Rattle.bike_booking.specs.Figures.{figures_of};
ghost use Rattle.bike_schema.specs.Answers.{Answers};
ghost use Rattle.bike_views.specs.Open.{AnswersOpen};

use bike_booking::Figures;
use bike_fleet_reads::order_count;
use bike_laws::ledger_room_law;
use bike_office_reads::{entry_count, find_since, last_request, open_rental_count, rental_count};
use bike_operator::{MOST_BIKES, MOST_ENTRIES};
use bike_schema::StatementFault;
use sqlite::{Alter, Connection};

/// What is known of the operator before a request is read.
#[derive(Clone, Copy)]
pub struct KnownFigures {
    /// Its figures.
    pub figures: Figures,
    /// Whether each open rental is known to be its rider's newest.
    pub newest_tells: bool,
}

/// The operator's figures, by five look-ups, and one more for each of rentals, entries and requests that has no row. It
/// fails as `know_figures` does.
pub fn find_figures<S: Alter>(conn: &mut Connection<S>) -> Result<Figures, StatementFault>
    ensures { Answers S.Store conn.old conn.new result (λ s m figures. figures ≡ figures_of s) }
{
    let since = find_since(conn)?;
    let rentals = rental_count(conn)?;
    let orders = order_count(conn)?;
    let entries = entry_count(conn)?;
    let last = last_request(conn)?;
    Ok(Figures {
        now: since.later(&last.moment),
        rentals,
        orders,
        entries,
        requests: last.number,
    })
}

/// The operator's figures: those that are known, and else those that are read.
///
/// `NoMemory` comes where the engine wants memory that is refused, and `StoreFailed` where it fails otherwise, or a row
/// holds what the product never writes. In each case the tables are as before the call, or as before the transaction.
pub fn know_figures<S: Alter>(
    conn: &mut Connection<S>,
    known: &Option<Figures>,
) -> Result<Figures, StatementFault>
    ensures { AnswersOpen S.Store conn.old conn.new result
        (λ s m figures. IfSome known.now (λ f. f ≡ figures_of s) → figures ≡ figures_of s) }
{
    match known {
        Some(figures) => Ok(*figures),
        None => find_figures(conn),
    }
}

/// Whether so many entries and the open rentals are as many entries as there may be. Open rentals, of which there are
/// at most as many as bicycles, are counted only where so many could fill the ledger.
pub(crate) fn is_ledger_full<S: Alter>(
    conn: &mut Connection<S>,
    entries: u32,
) -> Result<bool, StatementFault>
    ensures { AnswersOpen S.Store conn.old conn.new result
        (λ s m full. entries ≡ last_number s.entries → full ≡ has_full_ledger s) }
{
    ledger_room_law();
    if entries < MOST_ENTRIES - MOST_BIKES {
        return Ok(false);
    }
    let open = open_rental_count(conn)?;
    let needed = u64::from(entries) + u64::from(open);
    Ok(needed >= u64::from(MOST_ENTRIES))
}
