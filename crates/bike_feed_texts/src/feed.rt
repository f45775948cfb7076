//! The names of the feeds.

ghost use Rattle.std.specs.Prelude.{◌≡◌, codes};
ghost use Rattle.bike_feed_texts.specs.Feeds.{feed_name, feed_of};

/// A feed of GBFS v3.0.
#[derive(Clone, Copy, Debug, PartialEq, Eq, Drop)]
pub enum Feed {
    /// Where the others are found.
    Gbfs,
    /// What is published of the system as a whole.
    SystemInformation,
    /// The vehicle types.
    VehicleTypes,
    /// The stations: names, places and docks.
    StationInformation,
    /// The stations: counts, flags and last reports.
    StationStatus,
    /// The pricing plans.
    SystemPricingPlans,
    /// The regions in which stations stand.
    SystemRegions,
}

impl Feed {
    /// Its name in GBFS.
    pub fn name(self) -> &'static str
        ensures { result.now ≡ feed_name self }
    {
        match self {
            Feed::Gbfs => "gbfs",
            Feed::SystemInformation => "system_information",
            Feed::VehicleTypes => "vehicle_types",
            Feed::StationInformation => "station_information",
            Feed::StationStatus => "station_status",
            Feed::SystemPricingPlans => "system_pricing_plans",
            Feed::SystemRegions => "system_regions",
        }
    }

    /// The feed of that name; none where no feed has it.
    #[tactic(auto, unfolding(crate::specs::Feeds::feed_of))]
    pub fn read(text: &str) -> Option<Feed>
        ensures { result ≡ feed_of text.now }
    {
        match text {
            "gbfs" => Some(Feed::Gbfs),
            "system_information" => Some(Feed::SystemInformation),
            "vehicle_types" => Some(Feed::VehicleTypes),
            "station_information" => Some(Feed::StationInformation),
            "station_status" => Some(Feed::StationStatus),
            "system_pricing_plans" => Some(Feed::SystemPricingPlans),
            "system_regions" => Some(Feed::SystemRegions),
            _ => None,
        }
    }
}
