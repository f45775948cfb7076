//! The tables of the schema by name.

ghost use Rattle.std.specs.Prelude.{◌≡◌, IfOk, IfErr};
ghost use Rattle.bike_sql.specs.Layout.{table_of};
ghost use Rattle.bike_schema.specs.Layouts.{layout_of, name_of};
ghost use Rattle.bike_schema.specs.declared.fault.StatementFault.TheVariants.{NoMemory};
ghost use Rattle.bike_recognition.specs.Names.{table_named};
ghost use Rattle.bike_recognition.specs.Wanted.{Defines, AsksRowidsOf};

use bike_book::table;
use bike_schema::StatementFault;
use sqlite_resolve::define_table;
use sqlite_schema::schema::Table;
use std::alloc::Global;

/// A table of the schema.
#[derive(Clone, Copy, Debug, PartialEq, Eq)]
pub enum TableName {
    Meta,
    System,
    Plans,
    Segments,
    Types,
    Regions,
    Stations,
    Docks,
    Bikes,
    Trucks,
    Riders,
    Rentals,
    Orders,
    Entries,
    History,
    MoreNames,
    Books,
}

impl TableName {
    /// The name of the table in a database.
    pub fn name(self) -> &'static str
        ensures { result.now ≡ name_of (table_named self) }
    {
        match self {
            TableName::Meta => table!(name meta),
            TableName::System => table!(name system),
            TableName::Plans => table!(name plans),
            TableName::Segments => table!(name segments),
            TableName::Types => table!(name types),
            TableName::Regions => table!(name regions),
            TableName::Stations => table!(name stations),
            TableName::Docks => table!(name docks),
            TableName::Bikes => table!(name bikes),
            TableName::Trucks => table!(name trucks),
            TableName::Riders => table!(name riders),
            TableName::Rentals => table!(name rentals),
            TableName::Orders => table!(name orders),
            TableName::Entries => table!(name entries),
            TableName::History => table!(name history),
            TableName::MoreNames => table!(name more_names),
            TableName::Books => table!(name books),
        }
    }

    /// The statement that makes the table.
    fn definition(self) -> &'static str
        ensures { Defines result.now (layout_of (table_named self)) }
    {
        match self {
            TableName::Meta => table!(create meta),
            TableName::System => table!(create system),
            TableName::Plans => table!(create plans),
            TableName::Segments => table!(create segments),
            TableName::Types => table!(create types),
            TableName::Regions => table!(create regions),
            TableName::Stations => table!(create stations),
            TableName::Docks => table!(create docks),
            TableName::Bikes => table!(create bikes),
            TableName::Trucks => table!(create trucks),
            TableName::Riders => table!(create riders),
            TableName::Rentals => table!(create rentals),
            TableName::Orders => table!(create orders),
            TableName::Entries => table!(create entries),
            TableName::History => table!(create history),
            TableName::MoreNames => table!(create more_names),
            TableName::Books => table!(create books),
        }
    }

    /// The query that answers all rowids of the table, in order. Where the key is one number, that is the rowid.
    pub(crate) fn rowids_query(self) -> &'static str
        ensures { AsksRowidsOf (layout_of (table_named self)) result.now }
    {
        match self {
            TableName::Meta => "SELECT one FROM meta ORDER BY one",
            TableName::System => "SELECT one FROM system ORDER BY one",
            TableName::Plans => "SELECT rowid FROM plans ORDER BY rowid",
            TableName::Segments => "SELECT rowid FROM segments ORDER BY rowid",
            TableName::Types => "SELECT rowid FROM types ORDER BY rowid",
            TableName::Regions => "SELECT rowid FROM regions ORDER BY rowid",
            TableName::Stations => "SELECT rowid FROM stations_4 ORDER BY rowid",
            TableName::Docks => "SELECT rowid FROM docks ORDER BY rowid",
            TableName::Bikes => "SELECT bike FROM bikes ORDER BY bike",
            TableName::Trucks => "SELECT truck FROM trucks ORDER BY truck",
            TableName::Riders => "SELECT rider FROM riders_4 ORDER BY rider",
            TableName::Rentals => "SELECT rental FROM rentals ORDER BY rental",
            TableName::Orders => "SELECT ord FROM orders ORDER BY ord",
            TableName::Entries => "SELECT entry FROM entries ORDER BY entry",
            TableName::History => "SELECT number FROM history ORDER BY number",
            TableName::MoreNames => "SELECT rowid FROM more_names ORDER BY rowid",
            TableName::Books => "SELECT one FROM books ORDER BY one",
        }
    }

    /// The table as the product makes it, in tree 0. Only memory can be refused.
    pub(crate) fn defined(self, alloc: Global) -> Result<Table, StatementFault>
        ensures table { IfOk result (λ table. table ≡ table_of (layout_of (table_named self)) 0) }
        ensures memory { IfErr result (λ fault. fault ≡ NoMemory) }
    {
        match define_table(alloc, self.definition().as_bytes()) {
            Ok(table) => Ok(table),
            Err(_) => Err(StatementFault::NoMemory),
        }
    }
}
