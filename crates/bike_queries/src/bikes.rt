//! Where a bicycle is.

ghost use Rattle.std.specs.Prelude.{◌≡◌};
ghost use Rattle.bike_schema.specs.Answers.{Answers};
ghost use Rattle.bike_queries.specs.Infos.{place_at};

use bike_fields::BicycleNumber;
use bike_fleet_reads::find_bike;
use bike_operator::{Bike, Place};
use bike_schema::StatementFault;
use sqlite::{Alter, Connection};
use std::alloc::Global;

/// The place of the bicycle of this number, if there is one. `NoMemory` where its texts find no room; every other
/// fault is the database's.
pub fn find_place<S: Alter>(
    alloc: Global,
    conn: &mut Connection<S>,
    bike: BicycleNumber,
) -> Result<Option<Place>, StatementFault>
    ensures { Answers S.Store conn.old conn.new result (λ s m x. x ≡ place_at s bike) }
{
    match find_bike(alloc, conn, bike)? {
        Some(found) => {
            let Bike {
                place,
                type_id: _,
                state: _,
            } = found;
            Ok(Some(place))
        }
        None => Ok(None),
    }
}
