//! Vehicle types.

ghost use Rattle.std.specs.Prelude.{◌≡◌, IfOk};
ghost use Rattle.bike_fields.specs.Fault.{Tests, at_field};
ghost use Rattle.bike_fields.specs.Faults.{value_or_fault};
ghost use Rattle.bike_catalogue.specs.RowFaults.{MakesType, type_fault, max_range_fault};
ghost use Rattle.bike_fields.specs.Values.{IsRange, is_range};
ghost use Rattle.bike_catalogue.specs.Rows.{IsType, type_of_fields, type_within};

use bike_fields::{
    Bound, Field, FieldFault, Form, GREATEST_RANGE, Ident, MaxRange, Name, Propulsion, in_range,
};
use std::alloc::{AllocError, Global};
use std::marker::Model;

/// A vehicle type with the plan by which its rentals are priced (GBFS's `vehicle_types`). The greatest range in metres
/// is 0 exactly with human propulsion.
#[derive(Debug, Drop)]
pub struct VehicleType {
    type_id: Ident,
    name: Name,
    form: Form,
    propulsion: Propulsion,
    max_range: MaxRange,
    plan_id: Ident,
}

impl Model for VehicleType {
    ghost use Rattle.bike_fields.specs.Values.{IsRange};
    ghost use Rattle.bike_catalogue.specs.Rows.{TypeRow};

    ghost Value = { TypeRow };

    ghost view = { λ a. record {
      type_id = a.type_id;
      name = a.name;
      form = a.form;
      propulsion = a.propulsion;
      max_range = a.max_range;
      plan_id = a.plan_id;
    } };

    ghost invariant = { λ a. IsRange a.propulsion a.max_range };
}

/// The greatest range, in metres, of a vehicle with that propulsion.
fn max_range_of(propulsion: Propulsion, metres: u32) -> Result<MaxRange, FieldFault>
    ensures { result ≡ value_or_fault metres (at_field Field.MaxRange (max_range_fault propulsion metres)) }
{
    let max_range: MaxRange = in_range(Field::MaxRange, metres)?;
    if is_range(propulsion, metres) {
        return Ok(max_range);
    }
    Err(FieldFault::Broken {
        field: Field::MaxRange,
        bound: Bound::Range,
    })
}

/// Whether a range in metres goes with the propulsion.
fn is_range(propulsion: Propulsion, metres: u32) -> bool
    ensures { result ≡ is_range propulsion metres }
{
    match propulsion {
        Propulsion::Human => metres == 0,
        Propulsion::ElectricAssist => 1 <= metres && metres <= GREATEST_RANGE,
    }
}

impl VehicleType {
    /// The vehicle type of these fields, else the first bad field with the first bound that it breaks: an identifier, a
    /// name, a range of 0 with human propulsion and else from 1 to `GREATEST_RANGE` metres, and the plan's identifier.
    /// Memory is asked for only where all keep their bounds, and `NoMemory` comes where that is refused.
    pub fn new(
        alloc: Global,
        type_id: &str,
        name: &str,
        form: Form,
        propulsion: Propulsion,
        max_range: u32,
        plan_id: &str,
    ) -> Result<VehicleType, FieldFault>
        ensures { MakesType (type_of_fields type_id.now name.now form propulsion max_range plan_id.now) result }
    {
        let max_range = VehicleType::tested(type_id, name, form, propulsion, max_range, plan_id)?;
        Ok(VehicleType::keep(alloc, type_id, name, form, propulsion, max_range, plan_id)?)
    }

    /// The greatest range, where all fields keep their bounds, else the first bad field; this needs no memory.
    #[tactic(auto, unfolding(crate::specs::RowFaults::type_fault))]
    fn tested(
        type_id: &str,
        name: &str,
        form: Form,
        propulsion: Propulsion,
        max_range: u32,
        plan_id: &str,
    ) -> Result<MaxRange, FieldFault>
        ensures value { Tests (λ range. range) max_range
            (type_fault (type_of_fields type_id.now name.now form propulsion max_range plan_id.now)) result }
        ensures good { IfOk result
            (λ range. IsType (type_of_fields type_id.now name.now form propulsion range plan_id.now)) }
    {
        let _ = form;
        let _ = Ident::tested(Field::TypeId, type_id)?;
        let _ = Name::tested(Field::Name, name)?;
        let max_range = max_range_of(propulsion, max_range)?;
        let _ = Ident::tested(Field::Plan, plan_id)?;
        Ok(max_range)
    }

    /// The vehicle type of fields that keep their bounds; an error where memory was refused.
    fn keep(
        alloc: Global,
        type_id: &str,
        name: &str,
        form: Form,
        propulsion: Propulsion,
        max_range: MaxRange,
        plan_id: &str,
    ) -> Result<VehicleType, AllocError>
        requires { IsType (type_of_fields type_id.now name.now form propulsion max_range plan_id.now) }
        ensures { IfOk result
            (λ made. made ≡ type_of_fields type_id.now name.now form propulsion max_range plan_id.now) }
    {
        Ok(VehicleType {
            type_id: Ident::of(alloc, type_id)?,
            name: Name::of(alloc, name)?,
            form,
            propulsion,
            max_range,
            plan_id: Ident::of(alloc, plan_id)?,
        })
    }

    /// The vehicle type of these fields, where the range goes with the propulsion.
    pub fn from_fields(
        type_id: Ident,
        name: Name,
        form: Form,
        propulsion: Propulsion,
        max_range: MaxRange,
        plan_id: Ident,
    ) -> Option<VehicleType>
        ensures { result ≡ type_within (type_of_fields type_id name form propulsion max_range plan_id) }
    {
        if !is_range(propulsion, max_range.get()) {
            return None;
        }
        Some(VehicleType {
            type_id,
            name,
            form,
            propulsion,
            max_range,
            plan_id,
        })
    }

    /// The type's identifier.
    pub fn type_id(&self) -> &Ident
        ensures { result.now ≡ self.now.type_id }
    {
        &self.type_id
    }

    /// The type's name.
    pub fn name(&self) -> &Name
        ensures { result.now ≡ self.now.name }
    {
        &self.name
    }

    /// The form of its vehicles.
    pub fn form(&self) -> Form
        ensures { result ≡ self.now.form }
    {
        self.form
    }

    /// The propulsion of its vehicles.
    pub fn propulsion(&self) -> Propulsion
        ensures { result ≡ self.now.propulsion }
    {
        self.propulsion
    }

    /// The greatest range of its vehicles in metres, 0 with human propulsion.
    pub fn max_range(&self) -> MaxRange
        ensures value { result ≡ self.now.max_range }
        ensures bounds { IsRange self.now.propulsion result }
    {
        self.max_range
    }

    /// The plan by which new rentals are priced.
    pub fn plan_id(&self) -> &Ident
        ensures { result.now ≡ self.now.plan_id }
    {
        &self.plan_id
    }
}
