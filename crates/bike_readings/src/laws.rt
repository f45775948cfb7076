//! The laws of readings.

ghost use Rattle.bike_operator.specs.Operator.{Operator};
ghost use Rattle.bike_operator.specs.Sound.{IsSound};
ghost use Rattle.bike_readings.specs.BothWays.{MetaReading, SystemReading, PlanReading, SegmentReading, TypeReading};
ghost use Rattle.bike_readings.specs.BothWays.{RegionReading, StationReading, DockReading, BikeReading, TruckReading};
ghost use Rattle.bike_readings.specs.BothWays.{RiderReading, RentalReading, OrderReading, EntryReading, RequestReading};
ghost use Rattle.bike_readings.specs.BothWays.{NameReading, BooksReading};
ghost use Rattle.bike_readings.specs.SoundRows.{HasBounds};

/// The law of readings: what a row spells is that of which it is made, and each record within its bounds is spelled by
/// its row.
pub fn reads_both_ways()
    // The totals, and the catalogue with its stations.
    ensures meta { MetaReading }
    ensures system { SystemReading }
    ensures plans { PlanReading }
    ensures segments { SegmentReading }
    ensures types { TypeReading }
    ensures regions { RegionReading }
    ensures stations { StationReading }
    ensures docks { DockReading }
    // The fleet and the riders.
    ensures bikes { BikeReading }
    ensures trucks { TruckReading }
    ensures riders { RiderReading }
    // What was done: rentals, orders, entries and requests.
    ensures rentals { RentalReading }
    ensures orders { OrderReading }
    ensures entries { EntryReading }
    ensures history { RequestReading }
    // Names in further languages.
    ensures more_names { NameReading }
    // What was archived.
    ensures books { BooksReading }
{}

/// The law of bounds: the records of a sound operator keep the bounds of rows.
pub fn keeps_bounds()
    ensures { (s : Operator) → IsSound s → HasBounds s }
{}
