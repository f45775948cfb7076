//! The values that need no memory: numbers, truth values, words, coordinates and ranges.
#![tactic(auto, unfolding(crate::specs::Fields::fields_text))]

ghost use Rattle.std.specs.Prelude.{◌≡◌, ◌++◌, List, OnOk, Option, codes, string_bytes};
ghost use Rattle.bike_texts.specs.Fields.{Field, fields_text};
ghost use Rattle.bike_texts.specs.Parts.{Parts};
ghost use Rattle.bike_texts.specs.Reading.{Takes};
ghost use Rattle.bike_texts.specs.Kinds.{Choices, Coordinates, Forms, NameKinds, Numbers, Ranges, Sides};
ghost use Rattle.bike_texts.specs.Kinds.{fields_with, reads};

use crate::ends::Side;
use crate::fields::Fields;
use crate::put_texts::{put_number, put_text};
use bike_fields::{Form, MaxRange, NameKind, Propulsion};
use bike_fixed::{Micro, Within};
use std::alloc::AllocError;
use std::marker::Model;

/// A value that needs no memory.
pub trait Plain: Drop {
    /// What is read of the parts, with those that are left.
    ghost found: { Parts → Option (Self × Parts) };
    /// The fields in which a value stands.
    ghost stands: { Self → List Field };

    /// The value that the next fields spell.
    fn find(fields: &mut Fields) -> Option<Self>
        ensures { Takes (λ value. value) result (found fields.old) fields.new };

    /// Appends the fields, each behind a TAB.
    fn write(&self, out: &mut String) -> Result<(), AllocError>
        ensures { OnOk result (string_bytes out.new ≡ string_bytes out.old ++ fields_text (stands self.now)) };
}

impl<const LO: u32, const HI: u32, K: Copy> Plain for Within<LO, HI, K> {
    ghost found = { reads (Numbers LO HI) };

    ghost stands = { fields_with (Numbers LO HI) };

    fn find(fields: &mut Fields) -> Option<Within<LO, HI, K>> {
        fields.number()
    }

    fn write(&self, out: &mut String) -> Result<(), AllocError> {
        put_number(out, self)
    }
}

impl Plain for Form {
    ghost found = { reads Forms };

    ghost stands = { fields_with Forms };

    fn find(fields: &mut Fields) -> Option<Form> {
        fields.form()
    }

    fn write(&self, out: &mut String) -> Result<(), AllocError> {
        put_text(out, self.as_str())
    }
}

impl Plain for NameKind {
    ghost found = { reads NameKinds };

    ghost stands = { fields_with NameKinds };

    fn find(fields: &mut Fields) -> Option<NameKind> {
        fields.name_kind()
    }

    fn write(&self, out: &mut String) -> Result<(), AllocError> {
        put_text(out, self.as_str())
    }
}

impl Plain for Side {
    ghost found = { reads Sides };

    ghost stands = { fields_with Sides };

    fn find(fields: &mut Fields) -> Option<Side> {
        fields.side()
    }

    fn write(&self, out: &mut String) -> Result<(), AllocError> {
        let word = match self {
            Side::From => "from",
            Side::To => "to",
        };
        put_text(out, word)
    }
}

impl Plain for bool {
    ghost found = { reads (Choices (codes "true") (codes "false")) };

    ghost stands = { fields_with (Choices (codes "true") (codes "false")) };

    fn find(fields: &mut Fields) -> Option<bool> {
        fields.choice("true", "false")
    }

    fn write(&self, out: &mut String) -> Result<(), AllocError> {
        put_text(out, if *self { "true" } else { "false" })
    }
}

/// Whether a dock is broken.
#[derive(Drop)]
pub struct BrokenField {
    pub value: bool,
}

impl Model for BrokenField {
    ghost use Rattle.std.specs.Prelude.{Bool};

    ghost Value = { Bool };

    ghost view = { λ a. a.value };
}

impl Plain for BrokenField {
    ghost found = { reads (Choices (codes "broken") (codes "working")) };

    ghost stands = { fields_with (Choices (codes "broken") (codes "working")) };

    fn find(fields: &mut Fields) -> Option<BrokenField> {
        let value = fields.choice("broken", "working")?;
        Some(BrokenField { value })
    }

    fn write(&self, out: &mut String) -> Result<(), AllocError> {
        put_text(out, if self.value { "broken" } else { "working" })
    }
}

/// Whether a bicycle is disabled.
#[derive(Drop)]
pub struct DisabledField {
    pub value: bool,
}

impl Model for DisabledField {
    ghost use Rattle.std.specs.Prelude.{Bool};

    ghost Value = { Bool };

    ghost view = { λ a. a.value };
}

impl Plain for DisabledField {
    ghost found = { reads (Choices (codes "disabled") (codes "fit")) };

    ghost stands = { fields_with (Choices (codes "disabled") (codes "fit")) };

    fn find(fields: &mut Fields) -> Option<DisabledField> {
        let value = fields.choice("disabled", "fit")?;
        Some(DisabledField { value })
    }

    fn write(&self, out: &mut String) -> Result<(), AllocError> {
        put_text(out, if self.value { "disabled" } else { "fit" })
    }
}

/// Whether a rider is blocked.
#[derive(Drop)]
pub struct BlockedField {
    pub value: bool,
}

impl Model for BlockedField {
    ghost use Rattle.std.specs.Prelude.{Bool};

    ghost Value = { Bool };

    ghost view = { λ a. a.value };
}

impl Plain for BlockedField {
    ghost found = { reads (Choices (codes "blocked") (codes "open")) };

    ghost stands = { fields_with (Choices (codes "blocked") (codes "open")) };

    fn find(fields: &mut Fields) -> Option<BlockedField> {
        let value = fields.choice("blocked", "open")?;
        Some(BlockedField { value })
    }

    fn write(&self, out: &mut String) -> Result<(), AllocError> {
        put_text(out, if self.value { "blocked" } else { "open" })
    }
}

/// A coordinate of at most so many microdegrees in size.
#[derive(Drop)]
pub struct Degrees<const GREATEST: u32> {
    pub value: Micro,
}

impl<const GREATEST: u32> Model for Degrees<GREATEST> {
    ghost use Rattle.std.specs.Prelude.{ℤ};

    ghost Value = { ℤ };

    ghost view = { λ a. a.value };
}

impl<const GREATEST: u32> Plain for Degrees<GREATEST> {
    ghost found = { reads (Coordinates GREATEST) };

    ghost stands = { fields_with (Coordinates GREATEST) };

    fn find(fields: &mut Fields) -> Option<Degrees<GREATEST>> {
        let value = fields.degrees(GREATEST)?;
        Some(Degrees { value })
    }

    fn write(&self, out: &mut String) -> Result<(), AllocError> {
        put_text(out, self.value.text().as_str())
    }
}

/// A propulsion, with a greatest range in metres that goes with it.
#[derive(Drop)]
pub struct Range {
    pub propulsion: Propulsion,
    pub metres: MaxRange,
}

impl Model for Range {
    ghost use Rattle.std.specs.Prelude.{ℕ};
    ghost use Rattle.bike_fields.specs.declared.vehicle.Propulsion.{Propulsion};

    ghost Value = { Propulsion × ℕ };

    ghost view = { λ a. (a.propulsion, a.metres) };
}

impl Plain for Range {
    ghost found = { reads Ranges };

    ghost stands = { fields_with Ranges };

    fn find(fields: &mut Fields) -> Option<Range> {
        let propulsion = fields.propulsion()?;
        let metres = fields.metres(propulsion)?;
        Some(Range { propulsion, metres })
    }

    fn write(&self, out: &mut String) -> Result<(), AllocError> {
        put_text(out, self.propulsion.as_str())?;
        put_number(out, &self.metres)
    }
}
