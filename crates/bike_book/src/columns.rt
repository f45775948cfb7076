//! Where the columns of the tables stand in their rows.
//!
//! `specs/Rows` gives the rows, and the schema the columns of the same names. In a line that holds the rows of several
//! tables the row behind one begins after as many columns as that has: `COLUMNS`.

/// The columns of `meta`.
pub mod meta {
    /// 1, the key of the one row.
    pub const ONE: usize = 0;

    /// The name of the product.
    pub const APP: usize = 1;

    /// The version of the schema.
    pub const VERSION: usize = 2;

    /// Seconds: the moment of the last request of versions 1 to 3, and 0 where there was none.
    pub const NOW: usize = 3;

    /// Hundredths: the cash by archived entries; by all entries in versions 1 to 3.
    pub const CASH: usize = 4;

    /// Hundredths: the revenue by archived entries; by all entries in versions 1 to 3.
    pub const REVENUE: usize = 5;

    /// How many there are.
    pub const COLUMNS: usize = crate::table!(count meta);
}

/// The columns of `system`.
pub mod system {
    /// 1, the key of the one row.
    pub const ONE: usize = 0;

    /// The system's identifier.
    pub const SYSTEM_ID: usize = 1;

    /// The BCP-47 tag of the language.
    pub const LANGUAGE: usize = 2;

    /// The name in the system's language.
    pub const NAME: usize = 3;

    /// The opening hours, as OpenStreetMap writes them.
    pub const HOURS: usize = 4;

    /// The e-mail address for the feeds.
    pub const CONTACT: usize = 5;

    /// The time zone, as tzdata names it.
    pub const ZONE: usize = 6;

    /// The ISO 4217 code of the currency.
    pub const CURRENCY: usize = 7;

    /// The URL below which the feeds stand.
    pub const BASE_URL: usize = 8;

    /// Seconds.
    pub const TTL: usize = 9;

    /// How many there are.
    pub const COLUMNS: usize = crate::table!(count system);
}

/// The columns of `plans`.
pub mod plans {
    /// The plan's identifier.
    pub const PLAN_ID: usize = 0;

    /// The name in the system's language.
    pub const NAME: usize = 1;

    /// Hundredths.
    pub const PRICE: usize = 2;

    /// Whether taxes are added, 0 or 1.
    pub const TAXABLE: usize = 3;

    /// The description in the system's language.
    pub const DESCRIPTION: usize = 4;

    /// How many there are.
    pub const COLUMNS: usize = crate::table!(count plans);
}

/// The columns of `segments`.
pub mod segments {
    /// The plan's identifier.
    pub const PLAN_ID: usize = 0;

    /// The place of the segment in its plan, from 1.
    pub const SEQ: usize = 1;

    /// Minutes.
    pub const START: usize = 2;

    /// Hundredths.
    pub const RATE: usize = 3;

    /// Minutes.
    pub const EVERY: usize = 4;

    /// Minutes, or NULL.
    pub const FINISH: usize = 5;

    /// How many there are.
    pub const COLUMNS: usize = crate::table!(count segments);
}

/// The columns of `types`.
pub mod types {
    /// The vehicle type's identifier.
    pub const TYPE_ID: usize = 0;

    /// The name in the system's language.
    pub const NAME: usize = 1;

    /// The form, by GBFS's word.
    pub const FORM: usize = 2;

    /// The propulsion, by GBFS's word.
    pub const PROPULSION: usize = 3;

    /// Metres.
    pub const RANGE_M: usize = 4;

    /// The plan's identifier.
    pub const PLAN_ID: usize = 5;

    /// How many there are.
    pub const COLUMNS: usize = crate::table!(count types);
}

/// The columns of `regions`.
pub mod regions {
    /// The region's identifier.
    pub const REGION_ID: usize = 0;

    /// The name in the system's language.
    pub const NAME: usize = 1;

    /// How many there are.
    pub const COLUMNS: usize = crate::table!(count regions);
}

/// The columns of `stations_4`, and of its earlier tables, which end before the bicycles by type: the first of these
/// before the region.
pub mod stations {
    /// The station's identifier.
    pub const STATION_ID: usize = 0;

    /// The name in the system's language.
    pub const NAME: usize = 1;

    /// Microdegrees.
    pub const LAT: usize = 2;

    /// Microdegrees.
    pub const LON: usize = 3;

    /// How many docks it has.
    pub const DOCKS: usize = 4;

    /// Whether it is installed, 0 or 1.
    pub const INSTALLED: usize = 5;

    /// Whether it rents, 0 or 1.
    pub const RENTING: usize = 6;

    /// Whether it takes bicycles back, 0 or 1.
    pub const RETURNING: usize = 7;

    /// Seconds.
    pub const REPORTED: usize = 8;

    /// How many docks are available.
    pub const FREE: usize = 9;

    /// How many docks are broken.
    pub const BROKEN: usize = 10;

    /// NULL where it stands in no region.
    pub const REGION_ID: usize = 11;

    /// Its bicycles by type, as a text.
    pub const BY_TYPE: usize = 12;

    /// How many there are.
    pub const COLUMNS: usize = crate::table!(count stations);
}

/// The columns of `docks`.
pub mod docks {
    /// The station's identifier.
    pub const STATION_ID: usize = 0;

    /// The dock's number.
    pub const DOCK: usize = 1;

    /// Whether it is broken, 0 or 1.
    pub const BROKEN: usize = 2;

    /// How many there are.
    pub const COLUMNS: usize = crate::table!(count docks);
}

/// The columns of `bikes`. Those from `STATION_ID` on tell the place.
pub mod bikes {
    /// The bicycle's number.
    pub const BIKE: usize = 0;

    /// The vehicle type's identifier.
    pub const TYPE_ID: usize = 1;

    /// The number of its state: fit, disabled or retired.
    pub const STATE: usize = 2;

    /// The station in whose dock it is, or NULL.
    pub const STATION_ID: usize = 3;

    /// The dock, or NULL.
    pub const DOCK: usize = 4;

    /// The rental in which it is, or NULL.
    pub const RENTAL: usize = 5;

    /// The truck on which it is, or NULL.
    pub const TRUCK: usize = 6;

    /// The order for which it is on the truck.
    pub const ORD: usize = 7;

    /// How many there are.
    pub const COLUMNS: usize = crate::table!(count bikes);
}

/// The columns of `trucks`.
pub mod trucks {
    /// The truck's number.
    pub const TRUCK: usize = 0;

    /// How many bicycles it carries.
    pub const CAPACITY: usize = 1;

    /// How many there are.
    pub const COLUMNS: usize = crate::table!(count trucks);
}

/// The columns of `riders`.
pub mod riders {
    /// The rider's number.
    pub const RIDER: usize = 0;

    /// Whether the rider is blocked, 0 or 1.
    pub const BLOCKED: usize = 1;

    /// Hundredths: over all entries, archived ones included.
    pub const BALANCE: usize = 2;

    /// Hundredths: the balance by the entries that were archived.
    pub const BEFORE: usize = 3;

    /// The rider's own plan, or NULL.
    pub const PLAN_ID: usize = 4;

    /// How many there are.
    pub const COLUMNS: usize = crate::table!(count riders);
}

/// The columns of `rentals`. Those of the closing are NULL while it is open.
pub mod rentals {
    /// The rental's number.
    pub const RENTAL: usize = 0;

    /// The rider's number.
    pub const RIDER: usize = 1;

    /// The bicycle's number.
    pub const BIKE: usize = 2;

    /// The plan's identifier.
    pub const PLAN_ID: usize = 3;

    /// The station where it was started.
    pub const FROM_STATION: usize = 4;

    /// Seconds.
    pub const START: usize = 5;

    /// NULL where the bicycle was recovered, too.
    pub const TO_STATION: usize = 6;

    /// Seconds.
    pub const FINISH: usize = 7;

    /// Hundredths.
    pub const FARE: usize = 8;

    /// Hundredths.
    pub const REFUNDED: usize = 9;

    /// How many there are.
    pub const COLUMNS: usize = crate::table!(count rentals);
}

/// The columns of `orders`.
pub mod orders {
    /// The order's number.
    pub const ORD: usize = 0;

    /// The truck's number.
    pub const TRUCK: usize = 1;

    /// A station's identifier, or `*` for the depot.
    pub const FROM_END: usize = 2;

    /// In the same way.
    pub const TO_END: usize = 3;

    /// The vehicle type's identifier.
    pub const TYPE_ID: usize = 4;

    /// How many bicycles are to be brought.
    pub const QUANTITY: usize = 5;

    /// How many were.
    pub const DELIVERED: usize = 6;

    /// Whether it is open, 0 or 1.
    pub const IS_OPEN: usize = 7;

    /// How many there are.
    pub const COLUMNS: usize = crate::table!(count orders);
}

/// The columns of `entries`.
pub mod entries {
    /// The entry's number.
    pub const ENTRY: usize = 0;

    /// The number of its kind: 1 to 6.
    pub const KIND: usize = 1;

    /// The rider's number.
    pub const RIDER: usize = 2;

    /// 0 but for a fare and a refund.
    pub const RENTAL: usize = 3;

    /// Hundredths.
    pub const AMOUNT: usize = 4;

    /// Seconds.
    pub const AT: usize = 5;

    /// How many there are.
    pub const COLUMNS: usize = crate::table!(count entries);
}

/// The columns of `history`.
pub mod history {
    /// The request's number.
    pub const NUMBER: usize = 0;

    /// Seconds.
    pub const MOMENT: usize = 1;

    /// The caller's text.
    pub const CALLER: usize = 2;

    /// The request's key.
    pub const REQ_KEY: usize = 3;

    /// The command's text.
    pub const COMMAND: usize = 4;

    /// The reply's text.
    pub const REPLY: usize = 5;

    /// How many there are.
    pub const COLUMNS: usize = crate::table!(count history);
}

/// The columns of `more_names`.
pub mod more_names {
    /// The kind of what has the name, by its word.
    pub const KIND: usize = 0;

    /// The identifier of what has the name.
    pub const ID: usize = 1;

    /// The BCP-47 tag of the language.
    pub const LANGUAGE: usize = 2;

    /// The name in that language.
    pub const NAME: usize = 3;

    /// How many there are.
    pub const COLUMNS: usize = crate::table!(count more_names);
}

/// The columns of `books`, whose one row tells how much was archived; it has none where nothing was.
pub mod books {
    /// 1, the key of the one row.
    pub const ONE: usize = 0;

    /// So many accepted requests.
    pub const REQUESTS: usize = 1;

    /// So many entries.
    pub const ENTRIES: usize = 2;

    /// So many rentals.
    pub const RENTALS: usize = 3;

    /// How many there are.
    pub const COLUMNS: usize = crate::table!(count books);
}
