//! The refusals: why a request changes nothing.

ghost use Rattle.std.specs.Prelude.{◌≡◌, IfSome, ◌≤◌, length, ℕ, Some};
ghost use Rattle.bike_commands.specs.Refusals.{number_of, name_of};
ghost use Rattle.bike_commands.specs.declared.refusal.Refusal.{Refusal};

/// Why a request is refused. A refused request changes nothing and keeps no key.
#[derive(Clone, Copy, Debug, PartialEq, Eq)]
pub enum Refusal {
    /// No station has the identifier.
    UnknownStation,
    /// The station has no dock of the number.
    UnknownDock,
    /// No bicycle has the number.
    UnknownBike,
    /// No rider has the number.
    UnknownRider,
    /// No rental has the number.
    UnknownRental,
    /// No vehicle type has the identifier.
    UnknownType,
    /// No pricing plan has the identifier.
    UnknownPlan,
    /// No truck has the number.
    UnknownTruck,
    /// No order has the number.
    UnknownOrder,
    /// The name or number is taken.
    AlreadyThere,
    /// The request can't be read: a field is missing, misspelled or out of its bounds.
    BadField,
    /// No bicycle is in the dock.
    DockEmpty,
    /// A bicycle is in the dock.
    DockFull,
    /// The dock is broken.
    DockBroken,
    /// The bicycle isn't fit.
    BikeDisabled,
    /// The station isn't installed or isn't renting.
    NotRenting,
    /// The station isn't installed or isn't returning.
    NotReturning,
    /// The rider is blocked.
    RiderBlocked,
    /// The rider's balance is below 0.
    BalanceNegative,
    /// The rider has an open rental.
    RiderIsRiding,
    /// The bicycle isn't in a rental.
    NotRented,
    /// The bicycle isn't in the depot.
    NotInDepot,
    /// The bicycle is retired.
    BikeRetired,
    /// The order asks for more bicycles than the truck holds.
    TruckTooSmall,
    /// The bicycle isn't where the order takes it from.
    WrongPlace,
    /// The bicycle isn't of the order's type.
    WrongType,
    /// The order is closed.
    OrderClosed,
    /// Delivered bicycles and those on the truck fill the order already.
    OrderFilled,
    /// A bicycle of the order is on the truck.
    BikesOnTruck,
    /// The amount is more than the fare less its refunds.
    RefundTooLarge,
    /// The rental is open.
    RentalOpen,
    /// A limit on how many there may be is reached.
    LimitReached,
    /// The caller used the key for another command.
    KeyReused,
    /// The truck is full.
    TruckFull,
    /// The rental is closed.
    RentalClosed,
    /// The order is another truck's, or its two ends are equal.
    WrongTruckOrEnds,
    /// No region has the identifier.
    UnknownRegion,
    /// No system is set.
    SystemMissing,
    /// Nothing of the kind and identifier has a name in the language, or none that can be removed.
    UnknownName,
}

impl Refusal {
    /// The number that an answer line prints, 1 to 39.
    pub fn number(self) -> u32
        ensures { result ≡ number_of self }
    {
        match self {
            Refusal::UnknownStation => 1,
            Refusal::UnknownDock => 2,
            Refusal::UnknownBike => 3,
            Refusal::UnknownRider => 4,
            Refusal::UnknownRental => 5,
            Refusal::UnknownType => 6,
            Refusal::UnknownPlan => 7,
            Refusal::UnknownTruck => 8,
            Refusal::UnknownOrder => 9,
            Refusal::AlreadyThere => 10,
            Refusal::BadField => 11,
            Refusal::DockEmpty => 12,
            Refusal::DockFull => 13,
            Refusal::DockBroken => 14,
            Refusal::BikeDisabled => 15,
            Refusal::NotRenting => 16,
            Refusal::NotReturning => 17,
            Refusal::RiderBlocked => 18,
            Refusal::BalanceNegative => 19,
            Refusal::RiderIsRiding => 20,
            Refusal::NotRented => 21,
            Refusal::NotInDepot => 22,
            Refusal::BikeRetired => 23,
            Refusal::TruckTooSmall => 24,
            Refusal::WrongPlace => 25,
            Refusal::WrongType => 26,
            Refusal::OrderClosed => 27,
            Refusal::OrderFilled => 28,
            Refusal::BikesOnTruck => 29,
            Refusal::RefundTooLarge => 30,
            Refusal::RentalOpen => 31,
            Refusal::LimitReached => 32,
            Refusal::KeyReused => 33,
            Refusal::TruckFull => 34,
            Refusal::RentalClosed => 35,
            Refusal::WrongTruckOrEnds => 36,
            Refusal::UnknownRegion => 37,
            Refusal::SystemMissing => 38,
            Refusal::UnknownName => 39,
        }
    }

    /// The name that an answer line prints.
    pub fn name(self) -> &'static str
        ensures value { result.now ≡ name_of self }
        ensures short { length result.now ≤ 19 }
    {
        match self {
            Refusal::UnknownStation => "unknown_station",
            Refusal::UnknownDock => "unknown_dock",
            Refusal::UnknownBike => "unknown_bike",
            Refusal::UnknownRider => "unknown_rider",
            Refusal::UnknownRental => "unknown_rental",
            Refusal::UnknownType => "unknown_type",
            Refusal::UnknownPlan => "unknown_plan",
            Refusal::UnknownTruck => "unknown_truck",
            Refusal::UnknownOrder => "unknown_order",
            Refusal::AlreadyThere => "already_there",
            Refusal::BadField => "bad_field",
            Refusal::DockEmpty => "dock_empty",
            Refusal::DockFull => "dock_full",
            Refusal::DockBroken => "dock_broken",
            Refusal::BikeDisabled => "bike_disabled",
            Refusal::NotRenting => "not_renting",
            Refusal::NotReturning => "not_returning",
            Refusal::RiderBlocked => "rider_blocked",
            Refusal::BalanceNegative => "balance_negative",
            Refusal::RiderIsRiding => "rider_is_riding",
            Refusal::NotRented => "not_rented",
            Refusal::NotInDepot => "not_in_depot",
            Refusal::BikeRetired => "bike_retired",
            Refusal::TruckTooSmall => "truck_too_small",
            Refusal::WrongPlace => "wrong_place",
            Refusal::WrongType => "wrong_type",
            Refusal::OrderClosed => "order_closed",
            Refusal::OrderFilled => "order_filled",
            Refusal::BikesOnTruck => "bikes_on_truck",
            Refusal::RefundTooLarge => "refund_too_large",
            Refusal::RentalOpen => "rental_open",
            Refusal::LimitReached => "limit_reached",
            Refusal::KeyReused => "key_reused",
            Refusal::TruckFull => "truck_full",
            Refusal::RentalClosed => "rental_closed",
            Refusal::WrongTruckOrEnds => "wrong_truck_or_ends",
            Refusal::UnknownRegion => "unknown_region",
            Refusal::SystemMissing => "system_missing",
            Refusal::UnknownName => "unknown_name",
        }
    }

    /// The refusal that has the number.
    pub fn from_number(number: u32) -> Option<Refusal>
        ensures found { IfSome result (λ r. number_of r ≡ number) }
        ensures only { (r : Refusal) → number_of r ≡ number → result ≡ Some r }
    {
        match number {
            1 => Some(Refusal::UnknownStation),
            2 => Some(Refusal::UnknownDock),
            3 => Some(Refusal::UnknownBike),
            4 => Some(Refusal::UnknownRider),
            5 => Some(Refusal::UnknownRental),
            6 => Some(Refusal::UnknownType),
            7 => Some(Refusal::UnknownPlan),
            8 => Some(Refusal::UnknownTruck),
            9 => Some(Refusal::UnknownOrder),
            10 => Some(Refusal::AlreadyThere),
            11 => Some(Refusal::BadField),
            12 => Some(Refusal::DockEmpty),
            13 => Some(Refusal::DockFull),
            14 => Some(Refusal::DockBroken),
            15 => Some(Refusal::BikeDisabled),
            16 => Some(Refusal::NotRenting),
            17 => Some(Refusal::NotReturning),
            18 => Some(Refusal::RiderBlocked),
            19 => Some(Refusal::BalanceNegative),
            20 => Some(Refusal::RiderIsRiding),
            21 => Some(Refusal::NotRented),
            22 => Some(Refusal::NotInDepot),
            23 => Some(Refusal::BikeRetired),
            24 => Some(Refusal::TruckTooSmall),
            25 => Some(Refusal::WrongPlace),
            26 => Some(Refusal::WrongType),
            27 => Some(Refusal::OrderClosed),
            28 => Some(Refusal::OrderFilled),
            29 => Some(Refusal::BikesOnTruck),
            30 => Some(Refusal::RefundTooLarge),
            31 => Some(Refusal::RentalOpen),
            32 => Some(Refusal::LimitReached),
            33 => Some(Refusal::KeyReused),
            34 => Some(Refusal::TruckFull),
            35 => Some(Refusal::RentalClosed),
            36 => Some(Refusal::WrongTruckOrEnds),
            37 => Some(Refusal::UnknownRegion),
            38 => Some(Refusal::SystemMissing),
            39 => Some(Refusal::UnknownName),
            _ => None,
        }
    }
}
