//! Decisions on names: those in further languages, and what becomes of one that is there.

ghost use Rattle.std.specs.Prelude.{◌≡◌, ◌∷◌, [], not, IfOk};
ghost use Rattle.bike_commands.specs.declared.command.Command.TheVariants as command;
ghost use Rattle.bike_commands.specs.declared.refusal.Refusal.TheVariants.{SystemMissing};
ghost use Rattle.bike_operator.specs.Changes.{refusal_in};
ghost use Rattle.bike_operator.specs.Steps.{first, unknown_of};
ghost use Rattle.bike_accepted.specs.Effects.{DecidesOn};
ghost use Rattle.bike_accepted.specs.Found.{FindsOn};

use bike_accepted::{Accepted, Change, Decision};
use bike_commands::Refusal;
use bike_fields::{Ident, Language, Name, NameKind};
use bike_operator::View;

/// Why a name isn't taken where there is nothing of its kind.
fn unknown_of(kind: NameKind) -> Refusal
    ensures { result ≡ unknown_of kind }
{
    match kind {
        NameKind::System => Refusal::BadField,
        NameKind::Station => Refusal::UnknownStation,
        NameKind::Type => Refusal::UnknownType,
        NameKind::Plan | NameKind::Description => Refusal::UnknownPlan,
        NameKind::Region => Refusal::UnknownRegion,
    }
}

/// The first refusal that all three commands have alike: there is no system, or nothing of this kind and identifier.
fn check_named(view: &View, kind: NameKind) -> Result<(), Refusal>
    ensures { refusal_in result
        ≡ first ((not view.now.has_system, SystemMissing) ∷ (not view.now.has_named, unknown_of kind) ∷ []) }
{
    if !view.has_system {
        return Err(Refusal::SystemMissing);
    }
    if !view.has_named {
        return Err(unknown_of(kind));
    }
    Ok(())
}

/// Decides on a name in a further language.
pub(crate) fn decide_add_name<'a>(
    view: &View,
    kind: NameKind,
    id: &'a Ident,
    language: &'a Language,
    name: &'a Name,
) -> Decision<'a>
    ensures decides { DecidesOn view.now (command.AddName kind id.now language.now name.now) result }
    ensures found { IfOk result (FindsOn view.now (command.AddName kind id.now language.now name.now)) }
{
    check_named(view, kind)?;
    if view.has_language {
        return Err(Refusal::AlreadyThere);
    }
    if view.is_full {
        return Err(Refusal::LimitReached);
    }
    let change = Change::AddName {
        kind,
        id,
        language,
        name,
    };
    Ok(Accepted {
        change: Some(change),
        ..Accepted::done()
    })
}

/// Decides on another name in place of one that is there, in the system's language or in a further one.
pub(crate) fn decide_set_name<'a>(
    view: &View,
    kind: NameKind,
    id: &'a Ident,
    language: &'a Language,
    name: &'a Name,
) -> Decision<'a>
    ensures decides { DecidesOn view.now (command.SetName kind id.now language.now name.now) result }
    ensures found { IfOk result (FindsOn view.now (command.SetName kind id.now language.now name.now)) }
{
    check_named(view, kind)?;
    if !view.has_language {
        return Err(Refusal::UnknownName);
    }
    if view.is_own_language {
        return Ok(Accepted {
            change: Some(Change::SetOwnName { kind, id, name }),
            ..Accepted::done()
        });
    }
    let change = Change::SetFurtherName {
        kind,
        id,
        language,
        name,
    };
    Ok(Accepted {
        change: Some(change),
        ..Accepted::done()
    })
}

/// Decides on a name in a further language that goes.
pub(crate) fn decide_remove_name<'a>(
    view: &View,
    kind: NameKind,
    id: &'a Ident,
    language: &'a Language,
) -> Decision<'a>
    ensures decides { DecidesOn view.now (command.RemoveName kind id.now language.now) result }
    ensures found { IfOk result (FindsOn view.now (command.RemoveName kind id.now language.now)) }
{
    check_named(view, kind)?;
    if !view.has_language || view.is_own_language {
        return Err(Refusal::UnknownName);
    }
    Ok(Accepted {
        change: Some(Change::RemoveName { kind, id, language }),
        ..Accepted::done()
    })
}
