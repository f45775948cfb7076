//! What a vehicle is, in the words of GBFS.

ghost use Rattle.std.specs.Prelude.{◌≡◌, List, ℕ, Some};
ghost use Rattle.bike_fields.specs.Vehicle.{form_text, form_of, propulsion_text, propulsion_of};
ghost use Rattle.bike_fields.specs.declared.vehicle.Form.{Form as FormValue};
ghost use Rattle.bike_fields.specs.declared.vehicle.Propulsion.{Propulsion as PropulsionValue};

/// GBFS's `form_factor`.
#[derive(Debug, Clone, Copy, PartialEq, Eq, Drop)]
pub enum Form {
    /// `bicycle`
    Bicycle,
    /// `cargo_bicycle`
    CargoBicycle,
}

/// GBFS's `propulsion_type`.
#[derive(Debug, Clone, Copy, PartialEq, Eq, Drop)]
pub enum Propulsion {
    /// `human`
    Human,
    /// `electric_assist`
    ElectricAssist,
}

impl Form {
    /// Its name in GBFS.
    pub fn as_str(self) -> &'static str
        ensures { result.now ≡ form_text self }
    {
        match self {
            Form::Bicycle => "bicycle",
            Form::CargoBicycle => "cargo_bicycle",
        }
    }

    /// The form of that name.
    #[tactic(auto, unfolding(crate::specs::Vehicle::form_of))]
    pub fn read(text: &str) -> Option<Form>
        ensures { result ≡ form_of text.now }
    {
        match text {
            "bicycle" => Some(Form::Bicycle),
            "cargo_bicycle" => Some(Form::CargoBicycle),
            _ => None,
        }
    }
}

impl Propulsion {
    /// Its name in GBFS.
    pub fn as_str(self) -> &'static str
        ensures { result.now ≡ propulsion_text self }
    {
        match self {
            Propulsion::Human => "human",
            Propulsion::ElectricAssist => "electric_assist",
        }
    }

    /// The propulsion of that name.
    #[tactic(auto, unfolding(crate::specs::Vehicle::propulsion_of))]
    pub fn read(text: &str) -> Option<Propulsion>
        ensures { result ≡ propulsion_of text.now }
    {
        match text {
            "human" => Some(Propulsion::Human),
            "electric_assist" => Some(Propulsion::ElectricAssist),
            _ => None,
        }
    }
}

/// The laws of these names: each is read exactly from its own text.
pub fn vehicle_laws()
    ensures form_sound { (text : List ℕ) (form : FormValue) → form_of text ≡ Some form → text ≡ form_text form }
    ensures form_full { (form : FormValue) → form_of (form_text form) ≡ Some form }
    ensures propulsion_sound { (text : List ℕ) (propulsion : PropulsionValue)
        → propulsion_of text ≡ Some propulsion → text ≡ propulsion_text propulsion }
    ensures propulsion_full { (propulsion : PropulsionValue)
        → propulsion_of (propulsion_text propulsion) ≡ Some propulsion }
{}
