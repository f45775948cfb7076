//! The tables of a day.

ghost use Rattle.std.specs.Prelude.{◌≡◌, codes};
ghost use Rattle.bike_day_texts.specs.Tables.{table_name, table_of};

/// A table of a day.
#[derive(Clone, Copy, Debug, PartialEq, Eq, Drop)]
pub enum DayTable {
    /// The ledger's entries.
    Entries,
    /// The rentals that ended.
    Rentals,
    /// The accepted requests.
    Requests,
}

impl DayTable {
    /// Its name.
    pub fn name(self) -> &'static str
        ensures { result.now ≡ table_name self }
    {
        match self {
            DayTable::Entries => "entries",
            DayTable::Rentals => "rentals",
            DayTable::Requests => "requests",
        }
    }

    /// The table of that name; none where no table has it.
    #[tactic(auto, unfolding(crate::specs::Tables::table_of))]
    pub fn read(text: &str) -> Option<DayTable>
        ensures { result ≡ table_of text.now }
    {
        match text {
            "entries" => Some(DayTable::Entries),
            "rentals" => Some(DayTable::Rentals),
            "requests" => Some(DayTable::Requests),
            _ => None,
        }
    }
}
