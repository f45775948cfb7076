//! Serving one row.

ghost use Rattle.std.specs.Prelude.{◌≡◌, ◌≢◌, ◌≤◌, false, Some, Err};
ghost use Rattle.csv.specs.Records.{fields_of};
ghost use Rattle.sqlite_trees.specs.View.{doubt};
ghost use Rattle.bike_desk.specs.Desk.{desk_state, KeepsDatabase, OfOperator};
ghost use Rattle.bike_batch.specs.Rows.{call_of, ChangesNothing};
ghost use Rattle.bike_batch.specs.ImportServing.{desk_fault, GoesOn, ServesCall, ServesRow};

use crate::import_fault::ImportFault;
use crate::request::row_request;
use bike_commands::{Reply, Request};
use bike_desk::{Desk, DeskFault};
use bike_fields::Ident;
use bike_fixed::Moment;
use csv::StringRecord;
use sqlite::Alter;
use std::alloc::Global;

/// Serves the request of the row of that number. An error where it isn't accepted.
fn serve_request<S: Alter>(
    alloc: Global,
    desk: &mut Desk<S>,
    moment: Moment,
    number: u64,
    request: &Request,
) -> Result<(), ImportFault>
    ensures clean { doubt (desk_state S.Store desk.old).is_clean ≤ doubt (desk_state S.Store desk.new).is_clean }
    ensures goes_on { desk.old.is_stopped ≡ false → GoesOn desk.new (desk_fault result) }
    ensures served { OfOperator S.Store desk.old desk.new (λ s.
        ServesCall S.Store desk.new s number (moment, request.now) result) }
    ensures rests { OfOperator S.Store desk.old desk.new (λ s.
        ChangesNothing s (Some (moment, request.now)) → result ≢ Err (ImportFault.Desk DeskFault.StoreFailed)
        → KeepsDatabase S.Store desk.old desk.new) }
{
    match desk.apply(alloc, moment, request)? {
        Reply::Refused(refusal) => Err(ImportFault::Row(number, refusal)),
        _ => Ok(()),
    }
}

/// Serves the row of that number in the import of that name. An error where it isn't accepted: the desk is then as it
/// was, but where its store failed.
pub fn import_row<S: Alter>(
    alloc: Global,
    desk: &mut Desk<S>,
    moment: Moment,
    name: &Ident,
    number: u64,
    row: &StringRecord,
) -> Result<(), ImportFault>
    ensures clean { doubt (desk_state S.Store desk.old).is_clean ≤ doubt (desk_state S.Store desk.new).is_clean }
    ensures goes_on { desk.old.is_stopped ≡ false → GoesOn desk.new (desk_fault result) }
    ensures served { OfOperator S.Store desk.old desk.new (λ s.
        ServesRow S.Store desk.new s number (fields_of row.now)
        (call_of moment name.now number (fields_of row.now)) result) }
    ensures rests { OfOperator S.Store desk.old desk.new (λ s.
        ChangesNothing s (call_of moment name.now number (fields_of row.now))
        → result ≢ Err (ImportFault.Desk DeskFault.StoreFailed) → KeepsDatabase S.Store desk.old desk.new) }
{
    moment.bounds();
    let request = row_request(alloc, name, number, row)?;
    let served = serve_request(alloc, desk, moment, number, &request);
    drop(request);
    served
}
