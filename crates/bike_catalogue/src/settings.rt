//! What of a system may change once it is set.

ghost use Rattle.std.specs.Prelude.{◌≡◌};
ghost use Rattle.bike_catalogue.specs.Rows.{settings_of_fields};

use bike_fields::{Ascii, Name, TimeToLive};
use std::marker::Model;

/// What of a system may change once it is set. Its identifier, its language and its currency stay: feeds, names and
/// money hang on them.
#[derive(Debug, Drop)]
pub struct Settings {
    name: Name,
    opening_hours: Ascii,
    feed_contact_email: Ascii,
    timezone: Ascii,
    base_url: Ascii,
    ttl: TimeToLive,
}

impl Model for Settings {
    ghost use Rattle.bike_catalogue.specs.Rows.{SettingsRow};

    ghost Value = { SettingsRow };

    ghost view = { λ a. record {
      name = a.name;
      opening_hours = a.opening_hours;
      feed_contact_email = a.feed_contact_email;
      timezone = a.timezone;
      base_url = a.base_url;
      ttl = a.ttl;
    } };
}

impl Settings {
    /// The settings of these fields.
    pub fn from_fields(
        name: Name,
        opening_hours: Ascii,
        feed_contact_email: Ascii,
        timezone: Ascii,
        base_url: Ascii,
        ttl: TimeToLive,
    ) -> Settings
        ensures { result ≡ settings_of_fields name opening_hours feed_contact_email timezone base_url ttl }
    {
        Settings {
            name,
            opening_hours,
            feed_contact_email,
            timezone,
            base_url,
            ttl,
        }
    }

    /// The system's name.
    pub fn name(&self) -> &Name
        ensures { result.now ≡ self.now.name }
    {
        &self.name
    }

    /// Its opening hours, printed as given.
    pub fn opening_hours(&self) -> &Ascii
        ensures { result.now ≡ self.now.opening_hours }
    {
        &self.opening_hours
    }

    /// The contact of its feeds, printed as given.
    pub fn feed_contact_email(&self) -> &Ascii
        ensures { result.now ≡ self.now.feed_contact_email }
    {
        &self.feed_contact_email
    }

    /// Its time zone, printed as given.
    pub fn timezone(&self) -> &Ascii
        ensures { result.now ≡ self.now.timezone }
    {
        &self.timezone
    }

    /// The base of its feeds' URLs.
    pub fn base_url(&self) -> &Ascii
        ensures { result.now ≡ self.now.base_url }
    {
        &self.base_url
    }

    /// How long a feed stays fresh, in seconds.
    pub fn ttl(&self) -> TimeToLive
        ensures { result ≡ self.now.ttl }
    {
        self.ttl
    }
}
