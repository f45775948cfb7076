//! Who is told how far an audit is.

ghost use Rattle.std.specs.Prelude.{◌≡◌, [], ◌∷◌, List, Option};
ghost use Rattle.bike_recognition.specs.declared.table.TableName.{TableName};
ghost use Rattle.bike_audit.specs.Watching.{told_after};

use bike_recognition::TableName;

/// Who is told how far an audit is, which is long work over a large database.
pub trait Watch {
    /// The tables that it was told of so far, in order, where it keeps that.
    ghost told: { Self → Option (List TableName) };

    /// The tables before this one are judged, and it is the next.
    fn reached(&mut self, table: TableName)
        ensures { told self.new ≡ told_after (told self.old) (table ∷ []) };
}

/// Nobody is told.
#[derive(Clone, Copy, Debug, Drop)]
pub struct NoWatch;

impl Watch for NoWatch {
    ghost use Rattle.std.specs.Prelude.{None};

    ghost told = { λ _. None };

    fn reached(&mut self, table: TableName) {
        let _ = table;
    }
}
