//! What a command on names names: one in a further language that is new, and one that is there.

ghost use Rattle.std.specs.Prelude.{◌≡◌, ◌||◌, ℕ, List, option_map};
ghost use Rattle.bike_commands.specs.declared.command.Command.TheVariants as command;
ghost use Rattle.bike_operator.specs.Names.{has_all_names, has_named, is_own_language, is_system};
ghost use Rattle.bike_operator.specs.View.{name_view, view_of};
ghost use Rattle.bike_schema.specs.Answers.{Answers};
ghost use Rattle.bike_office_reads.specs.Accounts.{system_key};
ghost use Rattle.bike_views.specs.Open.{AnswersOpen};
ghost use Rattle.bike_views.specs.Parts.{is_among};

use crate::empty::empty_view;
use bike_catalogue::MoreName;
use bike_fields::{Ident, Language, NameKind};
use bike_fleet_reads::{has_region, has_station, has_type};
use bike_office_reads::{find_names, find_system_key, has_plan};
use bike_operator::{MOST_FURTHER_NAMES, View};
use bike_schema::StatementFault;
use sqlite::{Alter, Connection};
use std::alloc::Global;

/// Whether the system of this identifier and language, if one is set, has the identifier.
fn is_system(system: &Option<(Ident, Language)>, id: &Ident) -> bool
    ensures { (o : _) → system.now ≡ option_map system_key o → result ≡ is_system o id.now }
{
    match system {
        Some((system_id, _)) => system_id.as_str() == id.as_str(),
        None => false,
    }
}

/// Whether the system of this identifier and language, if one is set, has the language.
fn is_own_language(system: &Option<(Ident, Language)>, language: &Language) -> bool
    ensures { (o : _) → system.now ≡ option_map system_key o → result ≡ is_own_language o language.now }
{
    match system {
        Some((_, own)) => own.as_str() == language.as_str(),
        None => false,
    }
}

/// Whether one of these names is in the language.
fn is_among(names: &[MoreName], language: &Language) -> bool
    ensures { result ≡ is_among language.now names.now }
{
    names
        .iter()
        .any(|name| name.language().as_str() == language.as_str())
}

/// Whether the language is the system's, or one of these names is in it.
fn has_language(system: &Option<(Ident, Language)>, names: &[MoreName], language: &Language) -> bool
    ensures { (o : _) → system.now ≡ option_map system_key o
        → result ≡ (is_own_language o language.now || is_among language.now names.now) }
{
    is_own_language(system, language) || is_among(names, language)
}

/// Whether there is something of this kind with this identifier, where `system` is the system's identifier and
/// language.
fn is_named_there<S: Alter>(
    conn: &mut Connection<S>,
    kind: NameKind,
    id: &Ident,
    system: &Option<(Ident, Language)>,
) -> Result<bool, StatementFault>
    ensures { AnswersOpen S.Store conn.old conn.new result
        (λ s m there. system.now ≡ option_map system_key s.system → there ≡ has_named s kind id.now) }
{
    match kind {
        NameKind::System => Ok(is_system(system, id)),
        NameKind::Station => has_station(conn, id),
        NameKind::Type => has_type(conn, id),
        NameKind::Plan | NameKind::Description => has_plan(conn, id),
        NameKind::Region => has_region(conn, id),
    }
}

/// Whether there is something of this kind with this identifier, what name it has in the language, and whether it has
/// as many as there may be.
fn find_named<S: Alter>(
    alloc: Global,
    conn: &mut Connection<S>,
    kind: NameKind,
    id: &Ident,
    language: &Language,
) -> Result<View, StatementFault>
    ensures { Answers S.Store conn.old conn.new result
        (λ s m view. view ≡ record (name_view s kind id.now language.now) { is_full = has_all_names s kind id.now }) }
{
    let system = find_system_key(alloc, conn)?;
    let has_named = is_named_there(conn, kind, id, &system)?;
    let names = find_names(alloc, conn, kind, id)?;
    Ok(View {
        has_system: system.is_some(),
        has_named,
        has_language: has_language(&system, names.as_slice(), language),
        is_own_language: is_own_language(&system, language),
        is_full: names.len() >= MOST_FURTHER_NAMES as usize,
        ..empty_view()
    })
}

/// The view for a new name in a further language, whatever its text.
pub(crate) fn view_to_add_name<S: Alter>(
    alloc: Global,
    conn: &mut Connection<S>,
    kind: NameKind,
    id: &Ident,
    language: &Language,
) -> Result<View, StatementFault>
    ensures { Answers S.Store conn.old conn.new result
        (λ s m view. (name : List ℕ) → view ≡ view_of s (command.AddName kind id.now language.now name)) }
{
    Ok(View {
        is_own_language: false,
        ..find_named(alloc, conn, kind, id, language)?
    })
}

/// The view for a name that changes or goes.
pub(crate) fn view_to_change_name<S: Alter>(
    alloc: Global,
    conn: &mut Connection<S>,
    kind: NameKind,
    id: &Ident,
    language: &Language,
) -> Result<View, StatementFault>
    ensures { Answers S.Store conn.old conn.new result (λ s m view. view ≡ name_view s kind id.now language.now) }
{
    Ok(View {
        is_full: false,
        ..find_named(alloc, conn, kind, id, language)?
    })
}
