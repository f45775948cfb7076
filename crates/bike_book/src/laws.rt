//! The laws: which row changes book each record that an accepted command puts or adds, and the close of its request.

ghost use Rattle.bike_book.specs.ByType.{CountsLaw, SameTypesLaw, ChangedTypeLaw, NoTypesLaw, IdentsLaw, ReadsBack};
ghost use Rattle.bike_book.specs.ChangeLaws.{Everywhere};
ghost use Rattle.bike_book.specs.ChangeLaws.{SetSystemLaw, AddPlanLaw, AddTypeLaw, SetPlanLaw, AddRegionLaw};
ghost use Rattle.bike_book.specs.ChangeLaws.{AddStationLaw, SetStationLaw, SetRegionLaw, AddNameLaw, SetOwnNameLaw};
ghost use Rattle.bike_book.specs.ChangeLaws.{SetFurtherNameLaw, RemoveNameLaw, ChangeSystemLaw, MoveStationLaw};
ghost use Rattle.bike_book.specs.ChangeLaws.{AddBikeLaw, AddTruckLaw, AddRiderLaw, SetRiderLaw};
ghost use Rattle.bike_book.specs.ChangeLaws.{AddRentalLaw, CloseRentalLaw, AddOrderLaw, SetOrderLaw};
ghost use Rattle.bike_book.specs.CloseLaws.{AtEachClose, QuietCloseLaw, EntryCloseLaw, RefundCloseLaw};
ghost use Rattle.bike_book.specs.Found.{WhereListed, FoundByKey, FoundListed, FoundByColumns, FoundNumbers};
ghost use Rattle.bike_book.specs.NotThere.{WhereSound, NoRefundsYet, NoBalanceYet, NoneDockedYet, NoTypesYet};
ghost use Rattle.bike_book.specs.NotThere.{NoneBrokenYet};

/// The laws of the changes of the catalogue.
pub fn books_catalogue()
    // Records of the catalogue that are set or added.
    ensures set_system { Everywhere SetSystemLaw }
    ensures add_plan { Everywhere AddPlanLaw }
    ensures add_type { Everywhere AddTypeLaw }
    ensures set_plan { Everywhere SetPlanLaw }
    ensures add_region { Everywhere AddRegionLaw }
    ensures add_station { Everywhere AddStationLaw }
    ensures set_station { Everywhere SetStationLaw }
    ensures set_region { Everywhere SetRegionLaw }
    // Names that are set, and those in a further language that are added, set or removed.
    ensures add_name { Everywhere AddNameLaw }
    ensures set_own_name { Everywhere SetOwnNameLaw }
    ensures set_further_name { Everywhere SetFurtherNameLaw }
    ensures remove_name { Everywhere RemoveNameLaw }
    // Corrections of the system, and of where a station lies.
    ensures change_system { Everywhere ChangeSystemLaw }
    ensures move_station { Everywhere MoveStationLaw }
{}

/// The laws of a bicycle, truck or rider added, and of a rider blocked or opened.
pub fn books_fleet()
    ensures add_bike { Everywhere AddBikeLaw }
    ensures add_truck { Everywhere AddTruckLaw }
    ensures add_rider { Everywhere AddRiderLaw }
    ensures set_rider { Everywhere SetRiderLaw }
{}

/// The laws of the changes of rentals and orders.
pub fn books_rentals()
    ensures add_rental { Everywhere AddRentalLaw }
    ensures close_rental { Everywhere CloseRentalLaw }
    ensures add_order { Everywhere AddOrderLaw }
    ensures set_order { Everywhere SetOrderLaw }
{}

/// The laws of the close of a request: with no entry, with a top-up or a fare, and with a refund.
pub fn books_close()
    ensures quiet { AtEachClose QuietCloseLaw }
    ensures entry { AtEachClose EntryCloseLaw }
    ensures refund { AtEachClose RefundCloseLaw }
{}

/// What soundness says of a rental, a rider and a station that isn't there: its numbers are 0.
pub fn starts_at_zero()
    ensures refunds { WhereSound NoRefundsYet }
    ensures balance { WhereSound NoBalanceYet }
    ensures docked { WhereSound NoneDockedYet }
    ensures types { WhereSound NoTypesYet }
    ensures broken { WhereSound NoneBrokenYet }
{}

/// What is found in the tables of a sound operator: rows by their keys and by other columns, and how many there are.
pub fn finds_rows()
    ensures by_key { WhereListed FoundByKey }
    ensures listed { WhereListed FoundListed }
    ensures by_columns { WhereListed FoundByColumns }
    ensures numbers { WhereListed FoundNumbers }
{}

/// What is told of a station's bicycles by type: their counts are the operator's, and the types change with these. What
/// is read of their text are the types.
pub fn counts_by_type()
    // The counts at a station, and when its types are the same, change by one, or are none.
    ensures counts { CountsLaw }
    ensures same { SameTypesLaw }
    ensures changed { ChangedTypeLaw }
    ensures none { NoTypesLaw }
    // The text of the types, and what is read of it.
    ensures idents { IdentsLaw }
    ensures reads { ReadsBack }
{}
