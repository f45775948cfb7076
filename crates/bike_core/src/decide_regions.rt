//! Decisions on regions, and on the one in which a station stands.

ghost use Rattle.std.specs.Prelude.{IfOk};
ghost use Rattle.bike_commands.specs.declared.command.Command.TheVariants as command;
ghost use Rattle.bike_operator.specs.Changes.{text_in};
ghost use Rattle.bike_accepted.specs.Effects.{DecidesOn};
ghost use Rattle.bike_accepted.specs.Found.{FindsOn};

use bike_accepted::{Accepted, Change, Decision};
use bike_catalogue::Region;
use bike_commands::Refusal;
use bike_fields::Ident;
use bike_operator::View;

/// Decides on a new region.
pub(crate) fn decide_add_region<'a>(view: &View, region: &'a Region) -> Decision<'a>
    ensures decides { DecidesOn view.now (command.AddRegion region.now) result }
    ensures found { IfOk result (FindsOn view.now (command.AddRegion region.now)) }
{
    if view.has_region {
        return Err(Refusal::AlreadyThere);
    }
    if view.is_full {
        return Err(Refusal::LimitReached);
    }
    Ok(Accepted {
        change: Some(Change::AddRegion(region)),
        ..Accepted::done()
    })
}

/// Decides on the region of a station, which may be none.
pub(crate) fn decide_set_region<'a>(
    view: &View,
    station: &'a Ident,
    region: Option<&'a Ident>,
) -> Decision<'a>
    ensures decides { DecidesOn view.now (command.SetRegion station.now (text_in region.entry)) result }
    ensures found { IfOk result (FindsOn view.now (command.SetRegion station.now (text_in region.entry))) }
{
    if view.station.is_none() {
        return Err(Refusal::UnknownStation);
    }
    if !view.has_region {
        return Err(Refusal::UnknownRegion);
    }
    Ok(Accepted {
        change: Some(Change::SetRegion { station, region }),
        ..Accepted::done()
    })
}
