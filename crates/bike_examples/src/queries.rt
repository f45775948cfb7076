//! What a desk tells of a rider's balance and of a station's bicycles and docks.

use crate::crash::requests;
use bike_audit::adopt;
use bike_commands::Request;
use bike_desk::{Desk, DeskFault};
use bike_fields::{Field, Ident, RiderNumber};
use bike_fixed::Moment;
use sqlite::{Alter, Connection};
use std::alloc::Global;
use std::test::Fail;

/// A station of two docks, of which the second is broken, with bicycle 7 in the first; rider 17 has paid 25.00.
const LINES: [&str; 13] = [
    "1699999200\toffice\tf1\tset-system\tmetro\ten\tMetro\t24/7\tfeeds@example.org\tEtc/UTC\t\
     EUR\thttp://127.0.0.1:8080\t30",
    "1699999200\toffice\tf2\tadd-plan\tbasic\tBasic\t100\tfalse\tHourly\t30:25:5:-",
    "1699999200\toffice\tf3\tadd-type\tcity\tCity\tbicycle\thuman\t0\tbasic",
    "1699999200\toffice\tf4\tadd-station\ta1\tHarbour\t41.890169\t12.492269\t2",
    "1699999200\toffice\tf5\tadd-bike\t7\tcity",
    "1699999200\toffice\tf6\tadd-truck\t3\t20",
    "1699999200\toffice\tf7\topen-order\t3\t*\ta1\tcity\t1",
    "1699999200\toffice\tf8\tload\t3\t1\t7",
    "1699999200\toffice\tf9\tunload\t3\t1\t7\tto\t1",
    "1699999200\toffice\tf10\tclose-order\t1",
    "1699999200\toffice\tf11\tmark-dock\ta1\t2\tbroken",
    "1699999200\toffice\tg1\tadd-rider\t17",
    "1699999200\toffice\tg2\ttop-up\t17\t2500",
];

/// A balance in hundredths, and what is counted at a station: bicycles available and disabled, docks available and
/// disabled.
type Told = (i64, [u32; 4]);

fn tell<S: Alter>(
    alloc: Global,
    desk: &mut Desk<S>,
    rider: RiderNumber,
    station: &Ident,
) -> Result<Option<Told>, DeskFault> {
    let Some(balance) = desk.balance(rider)? else {
        return Ok(None);
    };
    let Some(counts) = desk.station_counts(alloc, station)? else {
        return Ok(None);
    };
    let counted = [
        counts.available,
        counts.disabled,
        counts.docks_available,
        counts.docks_disabled,
    ];
    Ok(Some((balance.hundredths(), counted)))
}

/// What is told once the requests are served over an empty database in memory.
fn told_after(alloc: Global, calls: &[(Moment, Request)], station: &Ident) -> Option<Told> {
    let rider = RiderNumber::new(17)?;
    let Ok(conn) = Connection::open_in_memory(alloc) else {
        return None;
    };
    let Ok(mut desk) = adopt(alloc, conn) else {
        return None;
    };
    drop(desk.run_list(alloc, calls));
    let told = tell(alloc, &mut desk, rider, station);
    drop(desk);
    told.unwrap_or(None)
}

#[test]
fn a_balance_and_a_stations_counts(rt: HostRuntime) -> Result<(), Fail> {
    let calls = requests(rt.alloc(), &LINES)?;
    let station = Ident::new(rt.alloc(), Field::Station, "a1")?;
    let told = told_after(rt.alloc(), calls.as_slice(), &station);
    assert_eq!(rt; told, Some((2500, [1, 0, 0, 1])));
    Ok(())
}
