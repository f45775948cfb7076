//! Regions.

ghost use Rattle.std.specs.Prelude.{◌≡◌, IfOk, IsOk};
ghost use Rattle.bike_fields.specs.Fault.{Tests};
ghost use Rattle.bike_catalogue.specs.RowFaults.{MakesRegion, region_fault};
ghost use Rattle.bike_catalogue.specs.Rows.{IsRegion, region_of_fields};

use bike_fields::{Field, FieldFault, Ident, Name};
use std::alloc::{AllocError, Global};
use std::marker::Model;

/// A region of the city, in which stations stand (GBFS's `system_regions`).
#[derive(Drop)]
pub struct Region {
    region_id: Ident,
    name: Name,
}

impl Model for Region {
    ghost use Rattle.bike_catalogue.specs.Rows.{RegionRow};

    ghost Value = { RegionRow };

    ghost view = { λ a. record { region_id = a.region_id; name = a.name } };
}

impl Region {
    /// The region of these fields, else the first bad field with the first bound that it breaks: an identifier and a
    /// name. Memory is asked for only where both keep their bounds, and `NoMemory` comes where that is refused.
    pub fn new(alloc: Global, region_id: &str, name: &str) -> Result<Region, FieldFault>
        ensures { MakesRegion (region_of_fields region_id.now name.now) result }
    {
        Region::tested(region_id, name)?;
        Ok(Region::keep(alloc, region_id, name)?)
    }

    /// Whether both fields keep their bounds, else the first bad field; this needs no memory.
    #[tactic(auto, unfolding(crate::specs::RowFaults::region_fault))]
    fn tested(region_id: &str, name: &str) -> Result<(), FieldFault>
        ensures value { Tests (λ kept. kept) tt (region_fault (region_of_fields region_id.now name.now)) result }
        ensures good { IfOk result (λ _. IsRegion (region_of_fields region_id.now name.now)) }
    {
        let _ = Ident::tested(Field::Region, region_id)?;
        let _ = Name::tested(Field::Name, name)?;
        Ok(())
    }

    /// The region of fields that keep their bounds; an error where memory was refused.
    fn keep(alloc: Global, region_id: &str, name: &str) -> Result<Region, AllocError>
        requires { IsRegion (region_of_fields region_id.now name.now) }
        ensures { IfOk result (λ made. made ≡ region_of_fields region_id.now name.now) }
    {
        Ok(Region {
            region_id: Ident::of(alloc, region_id)?,
            name: Name::of(alloc, name)?,
        })
    }

    /// The region of these fields.
    pub fn from_fields(region_id: Ident, name: Name) -> Region
        ensures { result ≡ region_of_fields region_id name }
    {
        Region { region_id, name }
    }

    /// The region's identifier.
    pub fn region_id(&self) -> &Ident
        ensures { result.now ≡ self.now.region_id }
    {
        &self.region_id
    }

    /// The region's name.
    pub fn name(&self) -> &Name
        ensures { result.now ≡ self.now.name }
    {
        &self.name
    }
}
