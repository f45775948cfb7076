//! How the program ends: a line on standard error, and its exit status.

ghost use Rattle.std.specs.Prelude.{◌≡◌, ◌++◌, codes, Err};
ghost use Rattle.std.specs.Fmt.{decimal};
ghost use Rattle.std.specs.Process.{exit_status};
ghost use Rattle.bike_audit.specs.Adoption.{handed};
ghost use Rattle.bike_migrate.specs.Raising.{handed as handed_back};
ghost use Rattle.bike_console.specs.Pieces.{Puts, PutsLine};
ghost use Rattle.bike_console.specs.Ends.{word_of, row_detail, detail_of, fault_status, status_of, line_of};
ghost use Rattle.bike_console.specs.Ends.{adopt_fault, raise_fault, day_fault, fault_of_desk, feed_fault, import_fault};
ghost use Rattle.bike_console.specs.Ends.{history_fault, table_fault};

use crate::pieces::{put, put_key, put_number};
use bike_audit::{AdoptCause, AdoptFault};
use bike_batch::{DayTableFault, HistoryFault, ImportFault, LinesFault};
use bike_commands::Refusal;
use bike_desk::DeskFault;
use bike_feeds::FeedFault;
use bike_fixed::DayFault;
use bike_json::Output;
use bike_migrate::{RaiseCause, RaiseFault, UnsoundRow};
use sqlite::{Alter, Connection, ErrorCode};
use std::alloc::AllocError;
use std::error::Error;
use std::fmt;
use std::fmt::{Display, Formatter};
use std::process::ExitCode;

/// What the program can't go on after.
#[derive(Debug, Drop)]
pub enum Fault {
    /// No system is set, so there is no feed.
    SystemMissing,
    /// The row of this number, from 1, of an import is refused.
    RowRefused(u64, Refusal),
    /// The record of this number behind the header of an import is no row.
    RowUnreadable(u64),
    /// An import has no header, or another one.
    BadHeader,
    /// A day's date is none.
    BadDate,
    /// A day's time zone is none.
    BadZone,
    /// A day lies outside the years that have tables.
    DayOutOfRange,
    /// The store failed.
    StoreFailed,
    /// Memory was refused.
    OutOfMemory,
    /// The database belongs to another program, or somebody added a UNIQUE index to a table of the product's.
    Foreign,
    /// The tables stand for no operator: this is the first row that is not an operator's.
    Unsound(UnsoundRow),
    /// The database is of this earlier version of the schema.
    Older(u64),
    /// The database is of this later version of the schema.
    Newer(u64),
    /// The history can be told behind this number alone, or behind a greater one.
    Begins(u64),
    /// The input failed.
    ReadFailed,
    /// The input takes more reads than there may be.
    TooManyReads,
    /// The output failed.
    WriteFailed,
    /// The clock gave no moment.
    NoClock,
    /// The port can't be listened on.
    BindFailed,
    /// No connection can be accepted.
    AcceptFailed,
}

impl Fault {
    /// The first words of its line on standard error. An input of too many reads, and a clock, a port and a connection
    /// that fail, are told as a read that failed.
    pub fn word(&self) -> &'static str
        ensures { result.now ≡ word_of self.now }
    {
        match self {
            Fault::SystemMissing => "system missing",
            Fault::RowRefused(_, _) | Fault::RowUnreadable(_) => "row",
            Fault::BadHeader => "bad header",
            Fault::BadDate => "bad date",
            Fault::BadZone => "bad zone",
            Fault::DayOutOfRange => "day out of range",
            Fault::StoreFailed => "store failed",
            Fault::OutOfMemory => "out of memory",
            Fault::Foreign => "foreign",
            Fault::Unsound(_) => "unsound",
            Fault::Older(_) => "older",
            Fault::Newer(_) => "newer",
            Fault::Begins(_) => "begins",
            Fault::ReadFailed | Fault::TooManyReads | Fault::NoClock => "read failed",
            Fault::BindFailed | Fault::AcceptFailed => "read failed",
            Fault::WriteFailed => "write failed",
        }
    }

    /// The exit status.
    pub fn status(&self) -> u8
        ensures { result ≡ fault_status self.now }
    {
        match self {
            Fault::SystemMissing | Fault::RowRefused(_, _) | Fault::RowUnreadable(_) => 1,
            Fault::BadHeader | Fault::BadDate | Fault::BadZone | Fault::DayOutOfRange => 1,
            Fault::StoreFailed => 3,
            Fault::OutOfMemory => 4,
            Fault::Foreign | Fault::Unsound(_) | Fault::Older(_) | Fault::Newer(_) => 5,
            Fault::Begins(_) => 5,
            Fault::ReadFailed | Fault::TooManyReads | Fault::WriteFailed => 6,
            Fault::NoClock | Fault::BindFailed | Fault::AcceptFailed => 6,
        }
    }

    /// The fault of a desk: one that was stopped is one whose store failed.
    fn of_desk(fault: DeskFault) -> Fault
        ensures { result ≡ fault_of_desk fault }
    {
        match fault {
            DeskFault::NoMemory => Fault::OutOfMemory,
            DeskFault::StoreFailed | DeskFault::Stopped => Fault::StoreFailed,
        }
    }

    /// The fault of a day that has no bounds.
    fn of_day(fault: DayFault) -> Fault
        ensures { result ≡ day_fault fault }
    {
        match fault {
            DayFault::BadDate => Fault::BadDate,
            DayFault::BadZone => Fault::BadZone,
            DayFault::OutOfRange => Fault::DayOutOfRange,
            DayFault::NoMemory => Fault::OutOfMemory,
        }
    }

    /// The fault of a day's table.
    pub fn of_table(fault: DayTableFault) -> Fault
        ensures { result ≡ table_fault fault }
    {
        match fault {
            DayTableFault::Day(fault) => Fault::of_day(fault),
            DayTableFault::Write => Fault::WriteFailed,
            DayTableFault::Desk(fault) => Fault::of_desk(fault),
        }
    }

    /// The fault of the history.
    pub fn of_history(fault: HistoryFault) -> Fault
        ensures { result ≡ history_fault fault }
    {
        match fault {
            HistoryFault::Write => Fault::WriteFailed,
            HistoryFault::Desk(fault) => Fault::of_desk(fault),
        }
    }

    /// The fault of an import.
    pub fn of_import(fault: ImportFault) -> Fault
        ensures { result ≡ import_fault fault }
    {
        match fault {
            ImportFault::BadHeader => Fault::BadHeader,
            ImportFault::Unreadable(number) => Fault::RowUnreadable(number),
            ImportFault::Row(number, refusal) => Fault::RowRefused(number, refusal),
            ImportFault::Read | ImportFault::TooManyRows => Fault::ReadFailed,
            ImportFault::Desk(fault) => Fault::of_desk(fault),
        }
    }

    /// The fault of a feed.
    pub fn of_feed(fault: FeedFault) -> Fault
        ensures { result ≡ feed_fault fault }
    {
        match fault {
            FeedFault::SystemMissing => Fault::SystemMissing,
            FeedFault::Write => Fault::WriteFailed,
            FeedFault::Desk(fault) => Fault::of_desk(fault),
        }
    }

    /// The fault of an adoption, and the connection that it hands back.
    pub fn taken_from<S: Alter>(fault: AdoptFault<S>) -> (Connection<S>, Fault)
        ensures conn { result.0 ≡ handed fault }
        ensures told { result.1 ≡ adopt_fault fault }
    {
        let AdoptFault { conn, cause } = fault;
        let told = match cause {
            AdoptCause::Foreign => Fault::Foreign,
            AdoptCause::Unsound(row) => Fault::Unsound(UnsoundRow { earlier: None, row }),
            AdoptCause::Older(version) => Fault::Older(version),
            AdoptCause::Newer(version) => Fault::Newer(version),
            AdoptCause::NoMemory => Fault::OutOfMemory,
            AdoptCause::StoreFailed => Fault::StoreFailed,
        };
        (conn, told)
    }

    /// The end of a task whose connection wasn't adopted: the connection that the adoption hands back, and its fault.
    pub fn refused<S: Alter>(fault: AdoptFault<S>) -> (Connection<S>, Result<u64, Fault>)
        ensures conn { result.0 ≡ handed fault }
        ensures told { result.1 ≡ Err (adopt_fault fault) }
    {
        let (conn, told) = Fault::taken_from(fault);
        (conn, Err(told))
    }

    /// The fault of a raise, and the connection that it hands back.
    pub fn taken_from_raise<S: Alter>(fault: RaiseFault<S>) -> (Connection<S>, Fault)
        ensures conn { result.0 ≡ handed_back fault }
        ensures told { result.1 ≡ raise_fault fault }
    {
        let RaiseFault { conn, cause } = fault;
        let told = match cause {
            RaiseCause::Foreign => Fault::Foreign,
            RaiseCause::Unsound(bad) => Fault::Unsound(bad),
            RaiseCause::Newer(version) => Fault::Newer(version),
            RaiseCause::NoMemory => Fault::OutOfMemory,
            RaiseCause::StoreFailed => Fault::StoreFailed,
        };
        (conn, told)
    }
}

/// The first words of the fault's line.
impl Display for Fault {
    ghost use Rattle.std.specs.Prelude.{Some};
    ghost use Rattle.bike_console.specs.Ends.{word_of};

    ghost output = { λ fault. Some (word_of fault) };

    fn fmt<W: fmt::Write>(&self, f: &mut Formatter<W>) -> fmt::Result {
        f.write_str(self.word())
    }
}

impl Error for Fault {}

impl From<AllocError> for Fault {
    ghost use Rattle.std.specs.Prelude.{◌≡◌};
    ghost use Rattle.bike_console.specs.declared.end.Fault.TheVariants.{OutOfMemory};

    ghost from_gives = { λ _ told. told ≡ OutOfMemory };

    fn from(_: AllocError) -> Fault {
        Fault::OutOfMemory
    }
}

impl From<LinesFault> for Fault {
    ghost use Rattle.std.specs.Prelude.{◌≡◌};
    ghost use Rattle.bike_console.specs.Ends.{lines_fault};

    ghost from_gives = { λ fault told. told ≡ lines_fault fault };

    fn from(fault: LinesFault) -> Fault {
        match fault {
            LinesFault::Read => Fault::ReadFailed,
            LinesFault::TooManyReads => Fault::TooManyReads,
            LinesFault::Write => Fault::WriteFailed,
            LinesFault::Desk(fault) => Fault::of_desk(fault),
        }
    }
}

impl From<sqlite::Error> for Fault {
    ghost use Rattle.std.specs.Prelude.{◌≡◌};
    ghost use Rattle.bike_console.specs.Ends.{open_fault};

    ghost from_gives = { λ error told. told ≡ open_fault error };

    fn from(error: sqlite::Error) -> Fault {
        match error {
            sqlite::Error::SqliteFailure(ErrorCode::OutOfMemory) => Fault::OutOfMemory,
            _ => Fault::StoreFailed,
        }
    }
}

/// Writes a version or a request's number, and a space before it.
fn put_spaced<W: Output>(out: &mut W, going: bool, number: u64) -> bool
    ensures { Puts (W.contents out.old) (W.contents out.new) (codes " " ++ decimal number) going result }
{
    let going = put(out, going, b" ");
    put_number(out, going, number)
}

/// Writes a row's number, with a space on either side, and what is wrong with it.
fn put_row<W: Output>(out: &mut W, going: bool, number: u64, what: &str) -> bool
    ensures { Puts (W.contents out.old) (W.contents out.new) (row_detail number what.now) going result }
{
    let going = put(out, going, b" ");
    let going = put_number(out, going, number);
    let going = put(out, going, b" ");
    put(out, going, what.as_bytes())
}

/// Writes what is told of the fault behind its first words.
fn put_detail<W: Output>(out: &mut W, going: bool, fault: &Fault) -> bool
    ensures { Puts (W.contents out.old) (W.contents out.new) (detail_of fault.now) going result }
{
    match fault {
        Fault::Unsound(bad) => {
            let going = put(out, going, b" ");
            let going = put(out, going, bad.table_name().as_bytes());
            let going = put(out, going, b" ");
            put_key(out, going, &bad.row.key)
        }
        Fault::RowRefused(number, refusal) => put_row(out, going, *number, refusal.name()),
        Fault::RowUnreadable(number) => put_row(out, going, *number, "unreadable"),
        Fault::Older(version) => put_spaced(out, going, *version),
        Fault::Newer(version) => put_spaced(out, going, *version),
        Fault::Begins(number) => put_spaced(out, going, *number),
        _ => going,
    }
}

/// Writes the fault at which the program ends, if there is one, as a line, and gives the exit status, which is the same
/// where the output refuses a part of that line: then a front of it is written. A fault's line is its first words;
/// `row` has the row's number behind them and the refusal's name or `unreadable`, `unsound` a table and a key, whose
/// columns are parted by `/`, `older` and `newer` a version, and `begins` the number of a request.
pub fn exit_code<W: Output>(errors: &mut W, end: &Result<u64, Fault>) -> ExitCode
    ensures status { exit_status result ≡ status_of end.now }
    ensures told { PutsLine (W.contents errors.old) (W.contents errors.new) (line_of end.now) }
{
    match end {
        Ok(_) => ExitCode::SUCCESS,
        Err(fault) => {
            let going = put(errors, true, fault.word().as_bytes());
            let going = put_detail(errors, going, fault);
            put(errors, going, b"\n");
            ExitCode::from(fault.status())
        }
    }
}
