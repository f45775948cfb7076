//! Why a connection wasn't raised.

ghost use Rattle.std.specs.Prelude.{◌≡◌};
ghost use Rattle.bike_audit.specs.Audit.{row_name};
ghost use Rattle.bike_migrate.specs.Raising.{failed, name_at};

use bike_audit::BadRow;
use bike_recognition::{Earlier, TableName};
use bike_schema::StatementFault;
use sqlite::{Alter, Connection};
use std::error::Error;
use std::fmt;
use std::fmt::{Debug, Display, Formatter};

/// A row that is not an operator's, in a database of this version; of the newest where none is named.
#[derive(Debug, Drop)]
pub struct UnsoundRow {
    pub earlier: Option<Earlier>,
    pub row: BadRow,
}

impl UnsoundRow {
    /// The name of its table, as it is at the version.
    pub fn table_name(&self) -> &'static str
        ensures { result.now ≡ name_at self.now.earlier (row_name self.now.row).0 }
    {
        match (self.earlier, self.row.table) {
            (Some(earlier), TableName::Stations) => earlier.stations_name(),
            (Some(_), TableName::Riders) => "riders",
            (_, table) => table.name(),
        }
    }
}

/// Why a connection wasn't raised.
#[derive(Debug, Drop)]
pub enum RaiseCause {
    /// The database has some of the product's names, and isn't the product's. It is as it was.
    Foreign,
    /// The tables stand for no operator: this is the first row that is not an operator's. The database is as it was.
    Unsound(UnsoundRow),
    /// The database is of this later version of the schema. It is as it was.
    Newer(u64),
    /// Memory was refused. What is stored stands for the operator for which it stood.
    NoMemory,
    /// The store failed, or failed to undo what was begun before memory was refused. What is stored stands for the
    /// operator for which it stood.
    StoreFailed,
}

impl Display for RaiseCause {
    ghost use Rattle.std.specs.Prelude.{Some};
    ghost use Rattle.bike_migrate.specs.Raising.{word_of};

    ghost output = { λ cause. Some (word_of cause) };

    fn fmt<W: fmt::Write>(&self, f: &mut Formatter<W>) -> fmt::Result {
        match self {
            RaiseCause::Foreign => f.write_str("foreign"),
            RaiseCause::Unsound(_) => f.write_str("unsound"),
            RaiseCause::Newer(_) => f.write_str("newer"),
            RaiseCause::NoMemory => f.write_str("out of memory"),
            RaiseCause::StoreFailed => f.write_str("store failed"),
        }
    }
}

/// A connection that wasn't raised, and why. It is outside a transaction; after `StoreFailed` where the disk is clean.
#[derive(Drop)]
pub struct RaiseFault<S: Alter> {
    pub conn: Connection<S>,
    pub cause: RaiseCause,
}

impl<S: Alter> RaiseFault<S> {
    /// A statement on the connection failed. Where its transaction is open still, the store failed to undo that.
    pub(crate) fn failed(fault: StatementFault, conn: Connection<S>) -> RaiseFault<S>
        ensures { result ≡ failed fault conn }
    {
        let is_outside = conn.is_autocommit();
        let cause = match fault {
            StatementFault::NoMemory if is_outside => RaiseCause::NoMemory,
            StatementFault::NoMemory | StatementFault::StoreFailed => RaiseCause::StoreFailed,
        };
        RaiseFault { conn, cause }
    }
}

impl<S: Alter> Display for RaiseFault<S> {
    ghost use Rattle.std.specs.Prelude.{Some};
    ghost use Rattle.bike_migrate.specs.Raising.{word_of};

    ghost output = { λ fault. Some (word_of fault.cause) };

    fn fmt<W: fmt::Write>(&self, f: &mut Formatter<W>) -> fmt::Result {
        Display::fmt(&self.cause, f)
    }
}

/// As for users: a connection shows nothing.
impl<S: Alter> Debug for RaiseFault<S> {
    fn fmt<W: fmt::Write>(&self, f: &mut Formatter<W>) -> fmt::Result {
        Display::fmt(self, f)
    }
}

impl<S: Alter + Drop> Error for RaiseFault<S> {}
