//! A rider, as queries show one.

ghost use Rattle.std.specs.Prelude.{◌≡◌, IfOk, IsTrue};
ghost use Rattle.bike_book.specs.Rows.{rider_row};
ghost use Rattle.bike_schema.specs.Answers.{Answers};
ghost use Rattle.bike_office_reads.specs.Newest.{NewestTells};
ghost use Rattle.bike_queries.specs.Infos.{balance_at, rider_info_at};

use bike_book::columns::riders;
use bike_fields::{RentalNumber, RiderNumber};
use bike_fixed::Cents;
use bike_office_reads::{find_open_rental, find_rider_row};
use bike_schema::{StatementFault, cents_at, flag_at};
use sqlite::{Alter, Connection, Row};

/// What is shown of a rider.
#[derive(Clone, Copy, Debug, PartialEq, Eq)]
pub struct RiderInfo {
    /// Whether the rider is blocked.
    pub is_blocked: bool,
    /// The rider's balance, over all entries, archived ones included.
    pub balance: Cents,
    /// The number of the rider's open rental; none where the rider doesn't ride.
    pub rental: Option<RentalNumber>,
}

/// Whether the rider of a row of `riders_4` is blocked, and the balance.
fn read_rider(row: &Row) -> Result<(bool, Cents), StatementFault>
    ensures { IfOk result (λ x.
        (rider : _) (r : _) (balance : _) → row.now ≡ rider_row rider r balance → x ≡ (r.is_blocked, balance)) }
{
    let is_blocked = flag_at(row, riders::BLOCKED)?;
    let balance = cents_at(row, riders::BALANCE)?;
    Ok((is_blocked, balance))
}

/// The balance of the rider of this number, over all entries, archived ones included; `None` where there is no such
/// rider. Every fault is the database's.
pub fn find_balance<S: Alter>(
    conn: &mut Connection<S>,
    rider: RiderNumber,
) -> Result<Option<Cents>, StatementFault>
    ensures { Answers S.Store conn.old conn.new result (λ s m x. x ≡ balance_at s rider) }
{
    match find_rider_row(conn, rider)? {
        Some(row) => {
            let (_, balance) = read_rider(&row)?;
            Ok(Some(balance))
        }
        None => Ok(None),
    }
}

/// The rider of this number, if there is one. The open rental is found as `find_open_rental` finds it: by the rider's
/// newest alone where the caller knows that each open rental is its rider's newest. Every fault is the database's.
pub fn find_rider_info<S: Alter>(
    conn: &mut Connection<S>,
    rider: RiderNumber,
    newest_tells: bool,
) -> Result<Option<RiderInfo>, StatementFault>
    ensures { Answers S.Store conn.old conn.new result
        (λ s m x. (IsTrue newest_tells → NewestTells s) → x ≡ rider_info_at s rider) }
{
    match find_rider_row(conn, rider)? {
        Some(row) => {
            let (is_blocked, balance) = read_rider(&row)?;
            let rental = find_open_rental(conn, rider, newest_tells)?;
            Ok(Some(RiderInfo {
                is_blocked,
                balance,
                rental,
            }))
        }
        None => Ok(None),
    }
}
