//! Pricing plans.

ghost use Rattle.std.specs.Prelude.{◌≡◌, ◌≤◌, length, IfOk};
ghost use Rattle.bike_fields.specs.Fault.{Tests};
ghost use Rattle.bike_fields.specs.declared.limits.TheConstants.{MOST_SEGMENTS};
ghost use Rattle.bike_catalogue.specs.RowFaults.{MakesPlan, plan_fault};
ghost use Rattle.bike_catalogue.specs.Rows.{IsPlan, plan_of_fields, plan_within};

use bike_fields::{Bound, Field, FieldFault, Ident, MOST_SEGMENTS, Name, Price, Segment, in_range};
use std::alloc::{AllocError, Global};
use std::marker::Model;

/// A pricing plan: a price in hundredths, and up to `MOST_SEGMENTS` segments that charge by the minute (GBFS's
/// `system_pricing_plans`).
#[derive(Debug, Drop)]
pub struct Plan {
    plan_id: Ident,
    name: Name,
    price: Price,
    taxable: bool,
    description: Name,
    segments: Vec<Segment>,
}

impl Model for Plan {
    ghost use Rattle.std.specs.Prelude.{◌≤◌, length};
    ghost use Rattle.bike_fields.specs.declared.limits.TheConstants.{MOST_SEGMENTS};
    ghost use Rattle.bike_catalogue.specs.Rows.{PlanRow};

    ghost Value = { PlanRow };

    ghost view = { λ a. record {
      plan_id = a.plan_id;
      name = a.name;
      price = a.price;
      taxable = a.taxable;
      description = a.description;
      segments = a.segments.items;
    } };

    ghost invariant = { λ a. length a.segments.items ≤ MOST_SEGMENTS };
}

impl Plan {
    /// The plan of these fields, else the first bad field with the first bound that it breaks: an identifier, a name, a
    /// price of at most `GREATEST_PRICE` hundredths, a description and at most `MOST_SEGMENTS` segments. Memory is
    /// asked for only where all keep their bounds, and `NoMemory` comes where that is refused.
    pub fn new(
        alloc: Global,
        plan_id: &str,
        name: &str,
        price: u32,
        taxable: bool,
        description: &str,
        segments: &[Segment],
    ) -> Result<Plan, FieldFault>
        ensures { MakesPlan (plan_of_fields plan_id.now name.now price taxable description.now segments.now) result }
    {
        let price = Plan::tested(plan_id, name, price, taxable, description, segments)?;
        Ok(Plan::keep(alloc, plan_id, name, price, taxable, description, segments)?)
    }

    /// The price, where all fields keep their bounds, else the first bad field; this needs no memory.
    #[tactic(auto, unfolding(crate::specs::RowFaults::plan_fault))]
    fn tested(
        plan_id: &str,
        name: &str,
        price: u32,
        taxable: bool,
        description: &str,
        segments: &[Segment],
    ) -> Result<Price, FieldFault>
        ensures value { Tests (λ kept. kept) price (plan_fault
            (plan_of_fields plan_id.now name.now price taxable description.now segments.now)) result }
        ensures good { IfOk result
            (λ kept. IsPlan (plan_of_fields plan_id.now name.now kept taxable description.now segments.now)) }
    {
        let _ = taxable;
        let _ = Ident::tested(Field::Plan, plan_id)?;
        let _ = Name::tested(Field::Name, name)?;
        let price: Price = in_range(Field::Price, price)?;
        let _ = Name::tested(Field::Description, description)?;
        if segments.len() > MOST_SEGMENTS {
            return Err(FieldFault::Broken {
                field: Field::Segments,
                bound: Bound::Length,
            });
        }
        Ok(price)
    }

    /// The plan of fields that keep their bounds; an error where memory was refused.
    fn keep(
        alloc: Global,
        plan_id: &str,
        name: &str,
        price: Price,
        taxable: bool,
        description: &str,
        segments: &[Segment],
    ) -> Result<Plan, AllocError>
        requires { IsPlan (plan_of_fields plan_id.now name.now price taxable description.now segments.now) }
        ensures { IfOk result
            (λ made. made ≡ plan_of_fields plan_id.now name.now price taxable description.now segments.now) }
    {
        Ok(Plan {
            plan_id: Ident::of(alloc, plan_id)?,
            name: Name::of(alloc, name)?,
            price,
            taxable,
            description: Name::of(alloc, description)?,
            segments: Vec::from_slice(alloc, segments)?,
        })
    }

    /// The plan of these fields, where there are at most `MOST_SEGMENTS` segments.
    pub fn from_fields(
        plan_id: Ident,
        name: Name,
        price: Price,
        taxable: bool,
        description: Name,
        segments: Vec<Segment>,
    ) -> Option<Plan>
        ensures { result ≡ plan_within (plan_of_fields plan_id name price taxable description segments.items) }
    {
        if segments.len() <= MOST_SEGMENTS {
            return Some(Plan {
                plan_id,
                name,
                price,
                taxable,
                description,
                segments,
            });
        }
        None
    }

    /// The plan's identifier.
    pub fn plan_id(&self) -> &Ident
        ensures { result.now ≡ self.now.plan_id }
    {
        &self.plan_id
    }

    /// The plan's name.
    pub fn name(&self) -> &Name
        ensures { result.now ≡ self.now.name }
    {
        &self.name
    }

    /// What each rental costs before its segments, in hundredths.
    pub fn price(&self) -> Price
        ensures { result ≡ self.now.price }
    {
        self.price
    }

    /// Whether a tax is added to the fare; only printed.
    pub fn taxable(&self) -> bool
        ensures { result ≡ self.now.taxable }
    {
        self.taxable
    }

    /// The plan's description.
    pub fn description(&self) -> &Name
        ensures { result.now ≡ self.now.description }
    {
        &self.description
    }

    /// The plan's segments, at most `MOST_SEGMENTS`.
    pub fn segments(&self) -> &[Segment]
        ensures value { result.now ≡ self.now.segments }
        ensures bounds { length result.now ≤ MOST_SEGMENTS }
    {
        self.segments.as_slice()
    }
}
