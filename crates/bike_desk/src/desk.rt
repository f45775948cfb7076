//! The desk, and the one call that changes what it keeps.

ghost use Rattle.std.specs.Prelude.{◌≡◌, ◌≤◌, false, IsTrue, IfOk, OnOk, Err};
ghost use Rattle.sqlite_trees.specs.View.{doubt};
ghost use Rattle.bike_operator.specs.Runs.{step};
ghost use Rattle.bike_schema.specs.Makes.{OthersStay};
ghost use Rattle.bike_desk.specs.Desk.{desk_over, desk_state, IsAt, OfOperator, KeepsDatabase};
ghost use Rattle.bike_desk.specs.Runs.{LeavesEither};

use crate::fault::DeskFault;
use crate::newest::{Newest, know_newest};
use crate::remembered::DeskMemory;
use crate::serve::serve;
use bike_booking::Figures;
use bike_commands::{Reply, Request};
use bike_fixed::Moment;
use bike_requests::command_text;
use sqlite::{Alter, Connection};
use std::alloc::Global;
use std::marker::Model;

/// A connection whose tables stand for an operator.
#[derive(Drop)]
pub struct Desk<S: Alter> {
    pub(crate) conn: Connection<S>,
    pub(crate) stopped: bool,
    pub(crate) newest: Newest,
    pub(crate) figures: Option<Figures>,
}

impl<S: Alter> Model for Desk<S> {
    ghost use Rattle.std.specs.Prelude.{◌||◌};
    ghost use Rattle.bike_desk.specs.Desk.{DeskValue, desk_code};
    ghost use Rattle.bike_desk.specs.Newest.{knows_newest};

    ghost Value = { DeskValue S };

    ghost coded = { desk_code S.code };

    // An open transaction counts as a stop.
    ghost view = { λ d. record {
      conn = d.conn;
      is_stopped = d.stopped || d.conn.in_transaction;
      remembered = record { newest_tells = knows_newest d.newest; figures = d.figures };
    } };
}

impl<S: Alter> Desk<S> {
    /// A desk over a connection, whatever its database holds. One that begins at an operator is made by an adoption,
    /// which audits the tables first.
    pub fn over(conn: Connection<S>) -> Desk<S>
        ensures { result ≡ desk_over conn }
    {
        Desk {
            conn,
            stopped: false,
            newest: Newest::Unknown,
            figures: None,
        }
    }

    /// Whether the desk serves no more, because its store failed.
    pub fn stopped(&self) -> bool
        ensures { result ≡ self.now.is_stopped }
    {
        self.stopped || !self.conn.is_autocommit()
    }

    /// Gives the connection back.
    pub fn close(self) -> Connection<S>
        ensures same { result ≡ self.conn }
        ensures autocommit { self.is_stopped ≡ false → result.in_transaction ≡ false }
    {
        let Desk { conn, .. } = self;
        conn
    }

    /// Serves one request that comes at the moment, in one transaction. Tables of other names stay as they are. A
    /// request that changes nothing of the operator, since it is refused or its key is kept, changes nothing of the
    /// database.
    ///
    /// `NoMemory` comes before anything changes and leaves everything as it was. `StoreFailed` comes where the engine
    /// fails, memory for it included, where what is stored is no sound operator's, or where the history has as many
    /// requests as its table can have (2^63 - 1); else each decision is booked. It stops the desk, and what a crash may
    /// leave then stands for the operator before or after the request. A stopped desk answers every request `Stopped`
    /// and stays as it is; no other desk answers that.
    pub fn apply(
        &mut self,
        alloc: Global,
        moment: Moment,
        request: &Request,
    ) -> Result<Reply, DeskFault>
        // An accepted or refused request: the reply is that of the step, and the tables are those after it.
        ensures clean { doubt (desk_state S.Store self.old).is_clean ≤ doubt (desk_state S.Store self.new).is_clean }
        ensures ok { OfOperator S.Store self.old self.new (λ s.
            IfOk result (λ reply. (reply ≡ (step s moment request.now).0)
            × IsAt S.Store self.new (step s moment request.now).1)) }
        // All else stays: other tables, and the whole database where the operator does.
        ensures others { OfOperator S.Store self.old self.new (λ s.
            OnOk result (OthersStay (desk_state S.Store self.old).now (desk_state S.Store self.new).now)) }
        ensures rests { OfOperator S.Store self.old self.new (λ s. (step s moment request.now).1 ≡ s
            → OnOk result (KeepsDatabase S.Store self.old self.new)) }
        ensures goes_on { OnOk result (self.new.is_stopped ≡ false) }
        // Each fault: what it leaves of the desk, and of the database.
        ensures no_memory { result ≡ Err DeskFault.NoMemory → self.new ≡ self.old }
        ensures store_failed { OfOperator S.Store self.old self.new (λ s. result ≡ Err DeskFault.StoreFailed
            → LeavesEither S.Store self.new s (moment, request.now)) }
        ensures stops { result ≡ Err DeskFault.StoreFailed → IsTrue self.new.is_stopped }
        // A stopped desk.
        ensures stopped { result ≡ Err DeskFault.Stopped → IsTrue self.old.is_stopped }
        ensures stays { IsTrue self.old.is_stopped → (result ≡ Err DeskFault.Stopped) × (self.new ≡ self.old) }
    {
        if self.stopped() {
            return Err(DeskFault::Stopped);
        }
        // What writing takes of memory is taken before anything is read.
        let Ok(text) = command_text(alloc, &request.command) else {
            return Err(DeskFault::NoMemory);
        };
        let Ok(newest) = know_newest(&mut self.conn, self.newest, &request.command) else {
            self.stopped = true;
            return Err(DeskFault::StoreFailed);
        };
        self.newest = newest;
        let remembered = DeskMemory {
            newest_tells: newest.tells(),
            figures: self.figures,
        };
        let text = text.as_str();
        match serve(alloc, &mut self.conn, moment, request, text, &remembered) {
            Ok(served) => {
                self.figures = served.figures;
                Ok(served.reply)
            }
            Err(_) => {
                self.stopped = true;
                Err(DeskFault::StoreFailed)
            }
        }
    }
}
