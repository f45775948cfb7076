//! The queries in SQL.

ghost use Rattle.bike_judges.specs.Texts.{AsksLines};

use crate::query::Query;

/// The text of a query.
pub(crate) fn text(query: Query) -> &'static str
    ensures { AsksLines result.now query }
{
    match query {
        Query::Meta => "SELECT * FROM meta ORDER BY one",
        Query::System => "SELECT * FROM system ORDER BY one",
        Query::Plans => "SELECT * FROM plans ORDER BY plan_id",
        Query::Segments => "SELECT segments.*, plans.* FROM segments \
             LEFT JOIN plans ON plans.plan_id = segments.plan_id \
             ORDER BY segments.plan_id, segments.seq",
        Query::Types => "SELECT types.*, plans.* FROM types \
             LEFT JOIN plans ON plans.plan_id = types.plan_id \
             ORDER BY types.type_id",
        Query::Regions => "SELECT * FROM regions ORDER BY region_id",
        Query::StationRows => "SELECT stations_4.*, regions.* FROM stations_4 \
             LEFT JOIN regions ON regions.region_id = stations_4.region_id \
             ORDER BY stations_4.station_id",
        Query::Stations => "SELECT station_id, 0, 0, stations_4.* FROM stations_4 \
             UNION ALL SELECT station_id, 1, dock, docks.*, \
             NULL, NULL, NULL, NULL, NULL, NULL, NULL, NULL, NULL, NULL FROM docks \
             UNION ALL SELECT station_id, 2, bike, bikes.*, NULL, NULL, NULL, NULL, NULL FROM bikes \
             ORDER BY 1, 2, 3",
        Query::Docks => "SELECT docks.*, stations_4.* FROM docks \
             LEFT JOIN stations_4 ON stations_4.station_id = docks.station_id \
             ORDER BY docks.station_id, docks.dock",
        Query::BikeNames => "SELECT bikes.*, types.*, stations_4.* FROM bikes \
             LEFT JOIN types ON types.type_id = bikes.type_id \
             LEFT JOIN stations_4 ON stations_4.station_id = bikes.station_id \
             ORDER BY bikes.bike",
        Query::BikeUses => "SELECT bikes.*, rentals.*, orders.* FROM bikes \
             LEFT JOIN rentals ON rentals.rental = bikes.rental \
             LEFT JOIN orders ON orders.ord = bikes.ord \
             ORDER BY bikes.bike",
        Query::BikeTrucks => "SELECT bikes.*, trucks.* FROM bikes \
             LEFT JOIN trucks ON trucks.truck = bikes.truck \
             ORDER BY bikes.bike",
        Query::BikeDocks =>
            "SELECT station_id, dock, 0, 0, docks.*, NULL, NULL, NULL, NULL, NULL FROM docks \
             UNION ALL SELECT station_id, dock, 1, bike, bikes.* FROM bikes \
             ORDER BY 1, 2, 3, 4",
        Query::Trucks =>
            "SELECT truck, 0, 0, trucks.*, NULL, NULL, NULL, NULL, NULL, NULL FROM trucks \
             UNION ALL SELECT truck, 1, bike, bikes.* FROM bikes \
             ORDER BY 1, 2, 3",
        Query::RiderRows => "SELECT riders_4.*, plans.* FROM riders_4 \
             LEFT JOIN plans ON plans.plan_id = riders_4.plan_id \
             ORDER BY riders_4.rider",
        Query::Rentals => "SELECT * FROM rentals ORDER BY rental",
        Query::OrderNames => "SELECT orders.*, trucks.*, types.* FROM orders \
             LEFT JOIN trucks ON trucks.truck = orders.truck \
             LEFT JOIN types ON types.type_id = orders.type_id \
             ORDER BY orders.ord",
        Query::OrderEnds => "SELECT orders.*, origins.*, targets.* FROM orders \
             LEFT JOIN stations_4 AS origins ON origins.station_id = orders.from_end \
             LEFT JOIN stations_4 AS targets ON targets.station_id = orders.to_end \
             ORDER BY orders.ord",
        Query::OrderBikes => "SELECT ord, 0, 0, orders.* FROM orders \
             UNION ALL SELECT ord, 1, bike, bikes.* FROM bikes \
             ORDER BY 1, 2, 3",
        Query::Entries => "SELECT * FROM entries ORDER BY entry",
        Query::EntryRentals => "SELECT entries.*, rentals.* FROM entries \
             LEFT JOIN rentals ON rentals.rental = entries.rental \
             ORDER BY entries.entry",
        Query::History => "SELECT * FROM history ORDER BY number",
        Query::HistoryKeys => "SELECT caller, req_key, number FROM history \
             ORDER BY caller, req_key, number",
        Query::Names => "SELECT * FROM more_names ORDER BY kind, id, language",
        Query::NamePlaces => "SELECT more_names.*, stations_4.*, regions.* FROM more_names \
             LEFT JOIN stations_4 ON stations_4.station_id = more_names.id \
             LEFT JOIN regions ON regions.region_id = more_names.id \
             ORDER BY more_names.kind, more_names.id, more_names.language",
        Query::NameOffers => "SELECT more_names.*, types.*, plans.* FROM more_names \
             LEFT JOIN types ON types.type_id = more_names.id \
             LEFT JOIN plans ON plans.plan_id = more_names.id \
             ORDER BY more_names.kind, more_names.id, more_names.language",
        Query::Books => "SELECT * FROM books ORDER BY one",
    }
}
