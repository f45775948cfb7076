//! What a feed lists as the desk answers it, one after another, each with its further names.

ghost use Rattle.std.specs.Prelude.{◌≡◌, ◌≢◌, ◌<◌, ℕ, List, IsTrue, Err, length, false, is_ok, not, option_map};
ghost use Rattle.std.specs.FinMap.{FinMap};
ghost use Rattle.bike_catalogue.specs.Rows.{SystemRow};
ghost use Rattle.bike_json.specs.State.{IsAt as IsIn, takes_value, after_value};
ghost use Rattle.bike_json.specs.Tree.{Tree, text_of};
ghost use Rattle.bike_operator.specs.Operator.{Operator, text_cmp};
ghost use Rattle.bike_feed_texts.specs.Elements.{type_tree, plan_tree, region_tree};
ghost use Rattle.bike_feed_texts.specs.Trees.{type_element, plan_element, region_element};
ghost use Rattle.bike_feed_texts.specs.Writing.{WroteValue};
ghost use Rattle.bike_queries.specs.After.{IsNext, first_after};
ghost use Rattle.bike_queries.specs.Pages.{IsTold};
ghost use Rattle.bike_desk.specs.Queries.{Queries};

use crate::names::find_names;
use bike_catalogue::{MoreName, Plan, Region, System, VehicleType};
use bike_desk::{Desk, DeskFault};
use bike_feed_texts::{write_plan, write_region, write_type};
use bike_fields::{Ident, NameKind};
use bike_json::{JsonState, Output};
use bike_stream::WriteFault;
use sqlite::Alter;
use std::alloc::Global;

/// What a feed lists in byte order of its identifiers.
pub(crate) trait Listed: Drop {
    /// Its names in further languages.
    type Names: Drop;

    /// Its identifier.
    ghost key: { Self → List ℕ };
    /// Those of the operator, by their identifiers.
    ghost held: { Operator → FinMap text_cmp Self };
    /// What is written of it with these names.
    ghost tree: { SystemRow → Self → Self.Names → Tree };
    /// What the feed of the operator has of it.
    ghost element: { Operator → SystemRow → Self → Tree };

    /// The first whose identifier comes after this one in byte order, or the first of all; `None` where none is left.
    fn next_after<S: Alter>(
        alloc: Global,
        desk: &mut Desk<S>,
        after: Option<&Ident>,
    ) -> Result<Option<Self>, DeskFault>
        ensures query { Queries S.Store desk.old desk.new result
            (λ s next. IsNext key (first_after (option_map (λ id. id.now) after.entry) (held s)) next) }
        ensures takes_none { result ≢ Err DeskFault.NoMemory };

    /// Its identifier.
    fn identifier(&self) -> &Ident
        ensures { result.now ≡ key self.now };

    /// Its names in further languages, where it is told whether there are any names in one.
    fn further<S: Alter>(
        &self,
        alloc: Global,
        desk: &mut Desk<S>,
        translated: bool,
    ) -> Result<Self::Names, DeskFault>
        requires { desk.old.is_stopped ≡ false }
        ensures query { Queries S.Store desk.old desk.new result
            (λ s names. IsTold translated s → (x : SystemRow) → tree x self.now names ≡ element s x self.now) }
        ensures takes_none { result ≢ Err DeskFault.NoMemory };

    /// Writes it with these names as a value.
    fn write<W: Output>(
        &self,
        json: &mut JsonState,
        out: &mut W,
        system: &System,
        names: &Self::Names,
    ) -> Result<(), WriteFault>
        requires value { IsTrue (takes_value json.old.top) }
        requires room { length json.old.round < 14 }
        ensures wrote { WroteValue json.old json.new (W.contents out.old) (W.contents out.new)
            (tree system.now self.now names.now) }
        ensures place { IsIn json.new (after_value json.old.top) json.old.round }
        ensures outcome { is_ok result ≡ not json.new.failed };

    // No value is without a byte, so that the count of bytes bounds the walk.
    ghost has_text: { (x : SystemRow) (it : Self) (names : Self.Names) → 0 < length (text_of (tree x it names)) };
}

impl Listed for VehicleType {
    ghost use Rattle.std.proofs.Common.{arith};

    type Names = Vec<MoreName>;

    ghost key = { λ t. t.type_id };

    ghost held = { λ s. s.types };

    ghost tree = { λ x t names. type_tree x t names.items };

    ghost element = { type_element };

    fn next_after<S: Alter>(
        alloc: Global,
        desk: &mut Desk<S>,
        after: Option<&Ident>,
    ) -> Result<Option<VehicleType>, DeskFault> {
        desk.type_after(alloc, after)
    }

    fn identifier(&self) -> &Ident {
        self.type_id()
    }

    fn further<S: Alter>(
        &self,
        alloc: Global,
        desk: &mut Desk<S>,
        translated: bool,
    ) -> Result<Vec<MoreName>, DeskFault> {
        find_names(alloc, desk, translated, NameKind::Type, self.type_id())
    }

    fn write<W: Output>(
        &self,
        json: &mut JsonState,
        out: &mut W,
        system: &System,
        names: &Vec<MoreName>,
    ) -> Result<(), WriteFault> {
        write_type(json, out, system, self, names.as_slice())
    }

    ghost has_text = { λ x t names. omega arith };
}

/// The further names of a plan, and those of its description.
#[derive(Drop)]
pub(crate) struct PlanNames {
    names: Vec<MoreName>,
    descriptions: Vec<MoreName>,
}

impl Listed for Plan {
    ghost use Rattle.std.proofs.Common.{arith};

    type Names = PlanNames;

    ghost key = { λ p. p.plan_id };

    ghost held = { λ s. s.plans };

    ghost tree = { λ x p names. plan_tree x p names.names.items names.descriptions.items };

    ghost element = { plan_element };

    fn next_after<S: Alter>(
        alloc: Global,
        desk: &mut Desk<S>,
        after: Option<&Ident>,
    ) -> Result<Option<Plan>, DeskFault> {
        desk.plan_after(alloc, after)
    }

    fn identifier(&self) -> &Ident {
        self.plan_id()
    }

    fn further<S: Alter>(
        &self,
        alloc: Global,
        desk: &mut Desk<S>,
        translated: bool,
    ) -> Result<PlanNames, DeskFault> {
        let id = self.plan_id();
        let names = find_names(alloc, desk, translated, NameKind::Plan, id)?;
        let descriptions = find_names(alloc, desk, translated, NameKind::Description, id)?;
        Ok(PlanNames {
            names,
            descriptions,
        })
    }

    fn write<W: Output>(
        &self,
        json: &mut JsonState,
        out: &mut W,
        system: &System,
        names: &PlanNames,
    ) -> Result<(), WriteFault> {
        let PlanNames {
            names,
            descriptions,
        } = names;
        write_plan(
            json,
            out,
            system,
            self,
            names.as_slice(),
            descriptions.as_slice(),
        )
    }

    ghost has_text = { λ x p names. omega arith };
}

impl Listed for Region {
    ghost use Rattle.std.proofs.Common.{arith};

    type Names = Vec<MoreName>;

    ghost key = { λ r. r.region_id };

    ghost held = { λ s. s.regions };

    ghost tree = { λ x r names. region_tree x r names.items };

    ghost element = { region_element };

    fn next_after<S: Alter>(
        alloc: Global,
        desk: &mut Desk<S>,
        after: Option<&Ident>,
    ) -> Result<Option<Region>, DeskFault> {
        desk.region_after(alloc, after)
    }

    fn identifier(&self) -> &Ident {
        self.region_id()
    }

    fn further<S: Alter>(
        &self,
        alloc: Global,
        desk: &mut Desk<S>,
        translated: bool,
    ) -> Result<Vec<MoreName>, DeskFault> {
        find_names(alloc, desk, translated, NameKind::Region, self.region_id())
    }

    fn write<W: Output>(
        &self,
        json: &mut JsonState,
        out: &mut W,
        system: &System,
        names: &Vec<MoreName>,
    ) -> Result<(), WriteFault> {
        write_region(json, out, system, self, names.as_slice())
    }

    ghost has_text = { λ x r names. omega arith };
}
