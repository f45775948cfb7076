//! Each record made of plain values once, and what half an hour costs.

use bike_catalogue::{Plan, Station, VehicleType};
use bike_fares::{fare, fare_by_minutes};
use bike_fields::{FieldFault, Form, Propulsion, Segment};
use bike_fixed::{Cents, Moment};
use std::alloc::Global;

/// A plan of 1.00, and of 0.25 more each 5 minutes from minute 30 on.
fn plan(alloc: Global) -> Result<Plan, FieldFault> {
    let segment = Segment::new(30, 25, 5, None)?;
    Plan::new(alloc, "basic", "Basic", 100, false, "Hourly", &[segment])
}

/// What half an hour costs by the plan above, by division and minute by minute.
fn fares(alloc: Global) -> Option<(Cents, Cents)> {
    let start = Moment::new(1_700_000_000)?;
    let end = Moment::new(1_700_001_800)?;
    if end.seconds() < start.seconds() {
        return None;
    }
    match plan(alloc) {
        Ok(plan) => Some((fare(&plan, start, end), fare_by_minutes(&plan, start, end))),
        Err(_) => None,
    }
}

fn is_type_made(alloc: Global) -> bool {
    let made = VehicleType::new(
        alloc,
        "city",
        "City",
        Form::Bicycle,
        Propulsion::Human,
        0,
        "basic",
    );
    match made {
        Ok(it) => it.type_id().as_str() == "city",
        Err(_) => false,
    }
}

fn is_station_made(alloc: Global) -> bool {
    match Station::new(alloc, "a1", "Harbour", 41_890_169, 12_492_269, 2) {
        Ok(it) => it.lat().microdegrees() == 41_890_169 && it.docks().get() == 2,
        Err(_) => false,
    }
}

#[test]
fn records_of_plain_values(rt: HostRuntime) {
    let cost = Cents::new(125);
    assert_eq!(rt; fares(rt.alloc()), Some((cost, cost)));
    assert!(rt; is_type_made(rt.alloc()));
    assert!(rt; is_station_made(rt.alloc()));
}
