//! The system.

ghost use Rattle.std.specs.Prelude.{◌≡◌, true, IfOk};
ghost use Rattle.bike_fields.specs.Bytes.{is_ident, is_name, is_ascii_field, is_language, is_currency};
ghost use Rattle.bike_catalogue.specs.RowFaults.{MakesSystem};
ghost use Rattle.bike_catalogue.specs.Rows.{system_of_fields};

use bike_fields::{
    Ascii, Currency, Field, FieldFault, Ident, Language, Name, TimeToLive, in_range,
};
use std::alloc::{AllocError, Global};
use std::marker::Model;

/// What is published of the system as a whole (GBFS's `system_information`), with the base of its feeds' URLs and how
/// long they stay fresh, in seconds.
#[derive(Debug, Drop)]
pub struct System {
    system_id: Ident,
    language: Language,
    name: Name,
    opening_hours: Ascii,
    feed_contact_email: Ascii,
    timezone: Ascii,
    currency: Currency,
    base_url: Ascii,
    ttl: TimeToLive,
}

impl Model for System {
    ghost use Rattle.bike_catalogue.specs.Rows.{SystemRow};

    ghost Value = { SystemRow };

    ghost view = { λ a. record {
      system_id = a.system_id;
      language = a.language;
      name = a.name;
      opening_hours = a.opening_hours;
      feed_contact_email = a.feed_contact_email;
      timezone = a.timezone;
      currency = a.currency;
      base_url = a.base_url;
      ttl = a.ttl;
    } };
}

impl System {
    /// The system of these fields, else the first bad field with the first bound that it breaks: an identifier, a
    /// language, a name, four ASCII fields round a currency, and a time to live of at most `LONGEST_TIME_TO_LIVE`
    /// seconds. Memory is asked for only where all keep their bounds, and `NoMemory` comes where that is refused.
    #[tactic(auto, unfolding(crate::specs::RowFaults::system_fault))]
    pub fn new(
        alloc: Global,
        system_id: &str,
        language: &str,
        name: &str,
        opening_hours: &str,
        feed_contact_email: &str,
        timezone: &str,
        currency: &str,
        base_url: &str,
        ttl: u32,
    ) -> Result<System, FieldFault>
        ensures { MakesSystem (system_of_fields system_id.now language.now name.now opening_hours.now
            feed_contact_email.now timezone.now currency.now base_url.now ttl) result }
    {
        let system_id = Ident::tested(Field::SystemId, system_id)?;
        let language = Language::tested(Field::Language, language)?;
        let name = Name::tested(Field::Name, name)?;
        let opening_hours = Ascii::tested(Field::OpeningHours, opening_hours)?;
        let feed_contact_email = Ascii::tested(Field::FeedContactEmail, feed_contact_email)?;
        let timezone = Ascii::tested(Field::Timezone, timezone)?;
        let currency = Currency::tested(Field::Currency, currency)?;
        let base_url = Ascii::tested(Field::BaseUrl, base_url)?;
        let ttl: TimeToLive = in_range(Field::Ttl, ttl)?;
        Ok(System::keep(
            alloc,
            system_id,
            language,
            name,
            opening_hours,
            feed_contact_email,
            timezone,
            currency,
            base_url,
            ttl,
        )?)
    }

    // What is let go where memory is refused stands in a function of its own, apart from the bounds.
    /// The system of texts that keep their bounds; an error where memory was refused.
    fn keep(
        alloc: Global,
        system_id: &str,
        language: &str,
        name: &str,
        opening_hours: &str,
        feed_contact_email: &str,
        timezone: &str,
        currency: &str,
        base_url: &str,
        ttl: TimeToLive,
    ) -> Result<System, AllocError>
        // Each text keeps the bounds of its field.
        requires system_id { is_ident system_id.now ≡ true }
        requires language { is_language language.now ≡ true }
        requires name { is_name name.now ≡ true }
        requires opening_hours { is_ascii_field opening_hours.now ≡ true }
        requires feed_contact_email { is_ascii_field feed_contact_email.now ≡ true }
        requires timezone { is_ascii_field timezone.now ≡ true }
        requires currency { is_currency currency.now ≡ true }
        requires base_url { is_ascii_field base_url.now ≡ true }
        // The system is made of these fields.
        ensures { IfOk result (λ system. system ≡ system_of_fields system_id.now language.now name.now opening_hours.now
            feed_contact_email.now timezone.now currency.now base_url.now ttl) }
    {
        Ok(System {
            system_id: Ident::of(alloc, system_id)?,
            language: Language::of(alloc, language)?,
            name: Name::of(alloc, name)?,
            opening_hours: Ascii::of(alloc, opening_hours)?,
            feed_contact_email: Ascii::of(alloc, feed_contact_email)?,
            timezone: Ascii::of(alloc, timezone)?,
            currency: Currency::of(alloc, currency)?,
            base_url: Ascii::of(alloc, base_url)?,
            ttl,
        })
    }

    /// The system of these fields.
    pub fn from_fields(
        system_id: Ident,
        language: Language,
        name: Name,
        opening_hours: Ascii,
        feed_contact_email: Ascii,
        timezone: Ascii,
        currency: Currency,
        base_url: Ascii,
        ttl: TimeToLive,
    ) -> System
        ensures { result ≡ system_of_fields system_id language name opening_hours feed_contact_email timezone
            currency base_url ttl }
    {
        System {
            system_id,
            language,
            name,
            opening_hours,
            feed_contact_email,
            timezone,
            currency,
            base_url,
            ttl,
        }
    }

    /// The system's identifier.
    pub fn system_id(&self) -> &Ident
        ensures { result.now ≡ self.now.system_id }
    {
        &self.system_id
    }

    /// The language of its texts.
    pub fn language(&self) -> &Language
        ensures { result.now ≡ self.now.language }
    {
        &self.language
    }

    /// The system's name.
    pub fn name(&self) -> &Name
        ensures { result.now ≡ self.now.name }
    {
        &self.name
    }

    /// Its opening hours, printed as given.
    pub fn opening_hours(&self) -> &Ascii
        ensures { result.now ≡ self.now.opening_hours }
    {
        &self.opening_hours
    }

    /// The contact of its feeds, printed as given.
    pub fn feed_contact_email(&self) -> &Ascii
        ensures { result.now ≡ self.now.feed_contact_email }
    {
        &self.feed_contact_email
    }

    /// Its time zone, printed as given.
    pub fn timezone(&self) -> &Ascii
        ensures { result.now ≡ self.now.timezone }
    {
        &self.timezone
    }

    /// The currency of its plans.
    pub fn currency(&self) -> &Currency
        ensures { result.now ≡ self.now.currency }
    {
        &self.currency
    }

    /// The base of its feeds' URLs.
    pub fn base_url(&self) -> &Ascii
        ensures { result.now ≡ self.now.base_url }
    {
        &self.base_url
    }

    /// How long a feed stays fresh.
    pub fn ttl(&self) -> TimeToLive
        ensures { result ≡ self.now.ttl }
    {
        self.ttl
    }
}
