//! The rows of the system, the plans with their segments, and the vehicle types.

ghost use Rattle.std.specs.Prelude.{◌≡◌, option_map, codes};
ghost use Rattle.sqlite_value.specs.Order.{column};
ghost use Rattle.bike_fields.specs.declared.numbers.TheConstants.{LAST_MINUTE};
ghost use Rattle.bike_fields.specs.Values.{is_range};
ghost use Rattle.bike_schema.specs.Columns.{number_in, or_none};
ghost use Rattle.bike_readings.specs.Readings.{meta_read, system_read, plan_read, segment_read, type_read};
ghost use Rattle.bike_readings.specs.Views.{meta_of, system_of, plan_of, segment_of, type_of};

use crate::columns::{
    app_in, ascii_in, cents_in, currency_in, flag_in, form_in, ident_in, is_null_at, language_in,
    moment_in, name_in, number_in, propulsion_in, signed_in,
};
use crate::part::Part;
use bike_book::columns::{meta, plans, segments, system, types};
use bike_fields::{
    Form, GREATEST_RANGE, GREATEST_RATE, MaxRange, Price, Propulsion, SegmentMinute, TimeToLive,
};
use bike_fixed::{Cents, Moment, Within};

/// The row of `meta`.
#[derive(Clone, Copy)]
pub struct StoredMeta {
    /// The version of the schema.
    pub version: Within<1, 4_294_967_295>,
    /// The moment of the last request of an earlier version, and 0 where there was none.
    pub now: Moment,
    /// The cash by the entries that were archived, in hundredths.
    pub cash: Cents,
    /// The revenue by the entries that were archived, in hundredths.
    pub revenue: Cents,
}

/// The row of `system`.
#[derive(Clone, Copy)]
pub struct StoredSystem<'a> {
    pub system_id: &'a str,
    pub language: &'a str,
    pub name: &'a str,
    pub opening_hours: &'a str,
    pub feed_contact_email: &'a str,
    pub timezone: &'a str,
    pub currency: &'a str,
    pub base_url: &'a str,
    /// How long a feed stays fresh.
    pub ttl: TimeToLive,
}

/// A row of `plans`.
#[derive(Clone, Copy)]
pub struct StoredPlan<'a> {
    pub plan_id: &'a str,
    pub name: &'a str,
    pub price: Price,
    pub taxable: bool,
    pub description: &'a str,
}

/// A row of `segments`.
#[derive(Clone, Copy)]
pub struct StoredSegment<'a> {
    /// Its plan.
    pub plan_id: &'a str,
    /// Its number in the plan.
    pub seq: Within<1, 8>,
    /// When it starts.
    pub start: SegmentMinute,
    /// What it costs, in hundredths.
    pub rate: i64,
    /// After how many minutes it is charged again.
    pub interval: SegmentMinute,
    /// When it ends, if it does.
    pub end: Option<SegmentMinute>,
}

/// A row of `types`.
#[derive(Clone, Copy)]
pub struct StoredType<'a> {
    pub type_id: &'a str,
    pub name: &'a str,
    pub form: Form,
    pub propulsion: Propulsion,
    /// The greatest range, in metres.
    pub max_range: MaxRange,
    /// The default pricing plan.
    pub plan_id: &'a str,
}

/// What a row of `meta` spells.
pub fn read_meta(part: Part<'_>) -> Option<StoredMeta>
    ensures { option_map meta_of result ≡ meta_read part.entry }
{
    if part.column_count() != meta::COLUMNS {
        return None;
    }
    let _one: Within<1, 1> = number_in(&part, meta::ONE)?;
    let _app = app_in(&part, meta::APP)?;
    let version = number_in(&part, meta::VERSION)?;
    let now = moment_in(&part, meta::NOW)?;
    let cash = cents_in(&part, meta::CASH)?;
    let revenue = cents_in(&part, meta::REVENUE)?;
    Some(StoredMeta {
        version,
        now,
        cash,
        revenue,
    })
}

/// What a row of `system` spells.
pub fn read_system(part: Part<'_>) -> Option<StoredSystem<'_>>
    ensures { option_map system_of result ≡ system_read part.entry }
{
    if part.column_count() != system::COLUMNS {
        return None;
    }
    let _one: Within<1, 1> = number_in(&part, system::ONE)?;
    let system_id = ident_in(&part, system::SYSTEM_ID)?;
    let language = language_in(&part, system::LANGUAGE)?;
    let name = name_in(&part, system::NAME)?;
    let opening_hours = ascii_in(&part, system::HOURS)?;
    let feed_contact_email = ascii_in(&part, system::CONTACT)?;
    let timezone = ascii_in(&part, system::ZONE)?;
    let currency = currency_in(&part, system::CURRENCY)?;
    let base_url = ascii_in(&part, system::BASE_URL)?;
    let ttl = number_in(&part, system::TTL)?;
    Some(StoredSystem {
        system_id,
        language,
        name,
        opening_hours,
        feed_contact_email,
        timezone,
        currency,
        base_url,
        ttl,
    })
}

/// What a row of `plans` spells.
pub fn read_plan(part: Part<'_>) -> Option<StoredPlan<'_>>
    ensures { option_map plan_of result ≡ plan_read part.entry }
{
    if part.column_count() != plans::COLUMNS {
        return None;
    }
    let plan_id = ident_in(&part, plans::PLAN_ID)?;
    let name = name_in(&part, plans::NAME)?;
    let price = number_in(&part, plans::PRICE)?;
    let taxable = flag_in(&part, plans::TAXABLE)?;
    let description = name_in(&part, plans::DESCRIPTION)?;
    Some(StoredPlan {
        plan_id,
        name,
        price,
        taxable,
        description,
    })
}

/// The end of a segment, or `Some(None)` where it goes on.
fn end_in(part: &Part<'_>, at: usize) -> Option<Option<SegmentMinute>>
    ensures { result ≡ or_none (number_in 0 LAST_MINUTE) (column part.now at) }
{
    if is_null_at(part, at) {
        return Some(None);
    }
    let end = number_in(part, at)?;
    Some(Some(end))
}

/// What a row of `segments` spells: an end is after the start.
pub fn read_segment(part: Part<'_>) -> Option<StoredSegment<'_>>
    ensures { option_map segment_of result ≡ segment_read part.entry }
{
    if part.column_count() != segments::COLUMNS {
        return None;
    }
    let plan_id = ident_in(&part, segments::PLAN_ID)?;
    let seq = number_in(&part, segments::SEQ)?;
    let start: SegmentMinute = number_in(&part, segments::START)?;
    let rate = signed_in(
        &part,
        segments::RATE,
        -i64::from(GREATEST_RATE),
        i64::from(GREATEST_RATE),
    )?;
    let interval = number_in(&part, segments::EVERY)?;
    let end: Option<SegmentMinute> = end_in(&part, segments::FINISH)?;
    if let Some(end) = end {
        if end.get() <= start.get() {
            return None;
        }
    }
    Some(StoredSegment {
        plan_id,
        seq,
        start,
        rate,
        interval,
        end,
    })
}

/// Whether so many metres suit the propulsion: 0 exactly where a human propels.
fn suits(propulsion: Propulsion, range: MaxRange) -> bool
    ensures { result ≡ is_range propulsion range }
{
    match propulsion {
        Propulsion::Human => range.get() == 0,
        Propulsion::ElectricAssist => 1 <= range.get() && range.get() <= GREATEST_RANGE,
    }
}

/// What a row of `types` spells.
pub fn read_type(part: Part<'_>) -> Option<StoredType<'_>>
    ensures { option_map type_of result ≡ type_read part.entry }
{
    if part.column_count() != types::COLUMNS {
        return None;
    }
    let type_id = ident_in(&part, types::TYPE_ID)?;
    let name = name_in(&part, types::NAME)?;
    let form = form_in(&part, types::FORM)?;
    let propulsion = propulsion_in(&part, types::PROPULSION)?;
    let max_range = number_in(&part, types::RANGE_M)?;
    let plan_id = ident_in(&part, types::PLAN_ID)?;
    if !suits(propulsion, max_range) {
        return None;
    }
    Some(StoredType {
        type_id,
        name,
        form,
        propulsion,
        max_range,
        plan_id,
    })
}
