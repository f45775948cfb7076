//! Four requests, a crash, and what is read after it.

use bike_commands::Request;
use bike_fields::BicycleNumber;
use bike_fixed::Moment;
use bike_operator::Place;
use bike_recovery::{Reading, run_in_memory};
use bike_requests::read_line;
use std::alloc::Global;
use std::test::Fail;

/// A city with one bicycle, which is at the depot, and no station.
const LINES: [&str; 4] = [
    "1700000000\toffice\tk1\tset-system\tmetro\ten\tMetro\t24/7\tfeeds@example.org\tEtc/UTC\t\
     EUR\thttp://127.0.0.1:8080\t30",
    "1700000000\toffice\tk2\tadd-plan\tbasic\tBasic\t100\tfalse\tHourly\t30:25:5:-",
    "1700000000\toffice\tk3\tadd-type\tcity\tCity\tbicycle\thuman\t0\tbasic",
    "1700000000\toffice\tk4\tadd-bike\t7\tcity",
];

/// The feed `station_status` of that city for the moment 1700000600.
const STATUS: &str =
    "{\"last_updated\":\"2023-11-14T22:23:20Z\",\"ttl\":30,\"version\":\"3.0\",\"data\":{\"stations\":[]}}";

/// The requests that the lines spell.
pub(crate) fn requests(alloc: Global, lines: &[&str]) -> Result<Vec<(Moment, Request)>, Fail> {
    let mut calls = Vec::new(alloc);
    for line in lines {
        let Ok(Some(call)) = read_line(alloc, line.as_bytes()) else {
            return Err("a line spells a request".into());
        };
        calls.push(call)?;
    }
    Ok(calls)
}

/// Whether the bicycle is at the depot and the feed was written.
fn is_read(reading: &Reading) -> bool {
    matches!(reading.place, Ok(Some(Place::Depot))) && reading.status.is_ok()
}

/// How many requests were answered before the crash, where what it left could be read as it should be.
fn read_after_crash(
    alloc: Global,
    calls: &[(Moment, Request)],
    bike: BicycleNumber,
    moment: Moment,
    out: &mut Vec<u8>,
) -> Option<usize> {
    let ran = run_in_memory(alloc, calls, bike, moment, out)?;
    match &ran.1 {
        Ok(read) if is_read(&read.1) => Some(ran.0.replies.len()),
        _ => None,
    }
}

#[test]
fn what_a_crash_leaves_is_read(rt: HostRuntime) -> Result<(), Fail> {
    let calls = requests(rt.alloc(), &LINES)?;
    let bike = BicycleNumber::new(7).ok_or("a bicycle's number")?;
    let moment = Moment::new(1_700_000_600).ok_or("a moment")?;
    let mut out = Vec::new(rt.alloc());
    let told = read_after_crash(rt.alloc(), calls.as_slice(), bike, moment, &mut out);
    assert_eq!(rt; told, Some(LINES.len()));
    assert_eq!(rt; out.as_slice(), STATUS.as_bytes());
    Ok(())
}
