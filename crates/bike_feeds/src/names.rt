//! Names in further languages, asked for only where there are any.

ghost use Rattle.std.specs.Prelude.{◌≡◌, ◌≢◌, false, Err};
ghost use Rattle.bike_operator.specs.Names.{further_names};
ghost use Rattle.bike_queries.specs.Pages.{IsTold};
ghost use Rattle.bike_desk.specs.Queries.{Queries};

use bike_catalogue::MoreName;
use bike_desk::{Desk, DeskFault};
use bike_fields::{Ident, NameKind};
use sqlite::Alter;
use std::alloc::Global;

/// Whether there is any name in a further language.
pub(crate) fn is_translated<S: Alter>(alloc: Global, desk: &mut Desk<S>) -> Result<bool, DeskFault>
    ensures query { Queries S.Store desk.old desk.new result (λ s translated. IsTold translated s) }
    ensures takes_none { result ≢ Err DeskFault.NoMemory }
{
    let first = desk.language_after(alloc, None)?;
    Ok(first.is_some())
}

/// The further names of what has this kind and identifier. Where there are none at all, the desk isn't asked.
pub(crate) fn find_names<S: Alter>(
    alloc: Global,
    desk: &mut Desk<S>,
    translated: bool,
    kind: NameKind,
    id: &Ident,
) -> Result<Vec<MoreName>, DeskFault>
    requires { desk.old.is_stopped ≡ false }
    ensures query { Queries S.Store desk.old desk.new result
        (λ s names. IsTold translated s → names.items ≡ further_names s kind id.now) }
    ensures takes_none { result ≢ Err DeskFault.NoMemory }
{
    if !translated {
        return Ok(Vec::new(alloc));
    }
    desk.names_of(alloc, kind, id)
}
