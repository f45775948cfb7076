//! A station, and its counts.

use bike_catalogue::Station;
use bike_fields::Ident;
use bike_fixed::Moment;

/// A station with its flags as they were set, when it last reported, and the region in which it stands.
#[derive(Drop)]
pub struct StationInfo {
    /// Its name, its place and its docks.
    pub station: Station,
    /// Whether it stands at its place.
    pub is_installed: bool,
    /// Whether bicycles are rented there while it is installed.
    pub is_renting: bool,
    /// Whether bicycles are taken back there while it is installed.
    pub is_returning: bool,
    /// When it last reported.
    pub reported: Moment,
    /// The region in which it stands; none where it stands in none.
    pub region: Option<Ident>,
}

/// How many bicycles of a vehicle type can be rented at a station.
#[derive(Debug, Drop)]
pub struct TypeCount {
    /// The vehicle type.
    pub type_id: Ident,
    /// How many of it can be rented; 0 too.
    pub count: u32,
}

/// The counts of a station, as GBFS's `station_status` has them.
#[derive(Drop)]
pub struct Counts {
    /// How many bicycles can be rented: they are fit, and in a dock that isn't broken.
    pub available: u32,
    /// How many of each vehicle type can be rented, in byte order of the types' identifiers.
    pub by_type: Vec<TypeCount>,
    /// How many bicycles in its docks can't be rented.
    pub disabled: u32,
    /// How many docks are empty and work.
    pub docks_available: u32,
    /// How many docks are broken.
    pub docks_disabled: u32,
}
