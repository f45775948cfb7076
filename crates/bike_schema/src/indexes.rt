//! The statements that make the indexes beside those of the keys.

/// Bicycles by the docks in which they are.
pub const BIKES_BY_DOCK: &str = "CREATE INDEX bikes_by_dock ON bikes (station_id, dock)";

/// Bicycles by the trucks on which they are.
pub const BIKES_BY_TRUCK: &str = "CREATE INDEX bikes_by_truck ON bikes (truck)";

/// Rentals by their riders.
pub const RENTALS_BY_RIDER: &str = "CREATE INDEX rentals_by_rider ON rentals (rider)";

/// Further names by their languages.
pub const MORE_NAMES_BY_LANGUAGE: &str =
    "CREATE INDEX more_names_by_language ON more_names (language)";

/// Further names by what they name. All that is read of a thing's names stands in it, so the table isn't read beside
/// it.
pub const MORE_NAMES_BY_THING: &str =
    "CREATE INDEX more_names_by_thing ON more_names (kind, id, language, name)";

/// Requests by caller and key. A UNIQUE index would be probed for each row whenever the file is opened.
pub const HISTORY_BY_KEY: &str = "CREATE INDEX history_by_key ON history (caller, req_key)";
