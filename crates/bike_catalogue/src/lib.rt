//! The typed records of the catalogue.
//!
//! A value of a type here keeps the type's bounds, and a method tells them to a proof. A constructor
//! answers the value of the fields given, or names the first bad field and the first bound that it breaks.
#![tactic(auto)]

mod more_name;
mod plan;
mod region;
mod settings;
mod station;
mod system;
mod vehicle_type;

pub use more_name::MoreName;
pub use plan::Plan;
pub use region::Region;
pub use settings::Settings;
pub use station::Station;
pub use system::System;
pub use vehicle_type::VehicleType;
