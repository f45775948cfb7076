//! The routes.

ghost use Rattle.std.specs.Prelude.{◌≡◌, OnOk, Some, None, map, option_map, codes};
ghost use Rattle.bike_http_head.specs.Table.{table, with_route, with_routes, route_at, found_at};

use bike_feed_texts::Feed;
use matchit::{InsertError, Router};
use std::alloc::Global;

/// A route: the form of a path.
#[derive(Clone, Copy)]
pub enum Route {
    /// `/riders/{rider}/start`
    Start,
    /// `/docks/{station}/end`
    End,
    /// `/docks/{station}/mark-dock`
    MarkDock,
    /// `/docks/{station}/mark-bike`
    MarkStationBike,
    /// `/crews/{truck}/load`
    Load,
    /// `/crews/{truck}/unload`
    Unload,
    /// `/crews/{truck}/mark-bike`
    MarkTruckBike,
    /// `/office`
    Office,
    /// `/office/{name}`
    Staff,
    /// `/riders/{rider}`
    Rider,
    /// `/bikes/{bike}`
    Bike,
    /// `/rentals/{rental}`
    Rental,
    /// `/orders/{order}`
    Order,
    /// `/history/{after}`
    History,
    /// `/gbfs/3.0/NAME.json`
    Publish(Feed),
}

const ROUTES: [(&str, Route); 21] = [
    ("/riders/{rider}/start", Route::Start),
    ("/docks/{station}/end", Route::End),
    ("/docks/{station}/mark-dock", Route::MarkDock),
    ("/docks/{station}/mark-bike", Route::MarkStationBike),
    ("/crews/{truck}/load", Route::Load),
    ("/crews/{truck}/unload", Route::Unload),
    ("/crews/{truck}/mark-bike", Route::MarkTruckBike),
    ("/office", Route::Office),
    ("/office/{name}", Route::Staff),
    ("/riders/{rider}", Route::Rider),
    ("/bikes/{bike}", Route::Bike),
    ("/rentals/{rental}", Route::Rental),
    ("/orders/{order}", Route::Order),
    ("/history/{after}", Route::History),
    ("/gbfs/3.0/gbfs.json", Route::Publish(Feed::Gbfs)),
    (
        "/gbfs/3.0/system_information.json",
        Route::Publish(Feed::SystemInformation),
    ),
    (
        "/gbfs/3.0/vehicle_types.json",
        Route::Publish(Feed::VehicleTypes),
    ),
    (
        "/gbfs/3.0/station_information.json",
        Route::Publish(Feed::StationInformation),
    ),
    (
        "/gbfs/3.0/station_status.json",
        Route::Publish(Feed::StationStatus),
    ),
    (
        "/gbfs/3.0/system_pricing_plans.json",
        Route::Publish(Feed::SystemPricingPlans),
    ),
    (
        "/gbfs/3.0/system_regions.json",
        Route::Publish(Feed::SystemRegions),
    ),
];

/// The routes of the product, all of them.
#[derive(Drop)]
pub struct Routes {
    router: Router<Route>,
    ghost holds: { router ≡ table },
}

/// The route that a path takes.
#[derive(Clone, Copy)]
pub struct RouteMatch<'p> {
    /// The route.
    pub route: Route,
    /// What stands in the place of its parameter; empty where it has none.
    pub part: &'p str,
}

fn add(router: &mut Router<Route>, text: &str, route: Route) -> Result<(), InsertError>
    ensures { OnOk result (router.new ≡ with_route router.old text.now route) }
{
    router.insert(text, route)
}

fn add_all(router: &mut Router<Route>, routes: &[(&str, Route)]) -> Result<(), InsertError>
    ensures { OnOk result (router.new ≡ with_routes router.old (map (λ r. (r.0.now, r.1)) routes.now)) }
{
    for (text, route) in routes {
        add(router, text, *route)?;
    }
    Ok(())
}

impl Routes {
    /// The routes of the product; an error is a want of memory.
    pub fn new(alloc: Global) -> Result<Routes, InsertError> {
        let mut router = Router::new(alloc);
        add_all(&mut router, &ROUTES)?;
        Ok(Routes { router })
    }

    /// The route that the path takes, as it stands: nothing in it is decoded.
    pub fn find<'p>(&self, path: &'p str) -> Option<RouteMatch<'p>>
        ensures { option_map (λ found. (found.route, found.part.now)) result ≡ found_at path.now }
    {
        let Ok(found) = self.router.at(path) else {
            return None;
        };
        let part = match found.params.iter().next() {
            Some((_, part)) => part,
            None => "",
        };
        Some(RouteMatch {
            route: *found.value,
            part,
        })
    }
}

/// Which routes some paths take: a part that is empty, a slash too many and an escape take none.
pub fn route_laws(_example: Route)
    // Paths with a route.
    ensures start { route_at (codes "/riders/17/start") ≡ Some Route.Start }
    ensures rider { route_at (codes "/riders/17") ≡ Some Route.Rider }
    ensures office { route_at (codes "/office") ≡ Some Route.Office }
    ensures staff { route_at (codes "/office/ann") ≡ Some Route.Staff }
    ensures history { route_at (codes "/history/0") ≡ Some Route.History }
    ensures feed { route_at (codes "/gbfs/3.0/station_status.json") ≡ Some (Route.Publish Feed.StationStatus) }
    ensures any_part { route_at (codes "/bikes/x%2f") ≡ Some Route.Bike }
    // Paths that are near one and have none.
    ensures trailing { route_at (codes "/riders/17/start/") ≡ None }
    ensures empty { route_at (codes "/riders//start") ≡ None }
    ensures no_rider { route_at (codes "/riders/") ≡ None }
    ensures doubled { route_at (codes "//office") ≡ None }
    ensures no_name { route_at (codes "/office/") ≡ None }
    ensures longer { route_at (codes "/office/ann/") ≡ None }
    ensures no_after { route_at (codes "/history") ≡ None }
    ensures other_feed { route_at (codes "/gbfs/3.0/x.json") ≡ None }
    ensures absolute { route_at (codes "http://h/office") ≡ None }
{}
