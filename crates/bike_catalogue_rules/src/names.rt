//! Names in further languages.

ghost use Rattle.std.specs.Prelude.{◌≡◌, take, Option, None, option_map, option_and_then};
ghost use Rattle.sqlite_value.specs.Order.{Row};
ghost use Rattle.bike_sql.specs.Calls.{ReadsWhere};
ghost use Rattle.bike_book.specs.Tables.{MoreNames};
ghost use Rattle.bike_schema.specs.Tables.{IsOurs, tables_of};
ghost use Rattle.bike_readings.specs.ReadOff.{operator_of};
ghost use Rattle.bike_readings.specs.Readings.{name_read};
ghost use Rattle.bike_readings.specs.Views.{name_of};
ghost use Rattle.bike_judges.specs.Verdicts.{JudgesTable};
ghost use Rattle.bike_catalogue_rules.specs.Names.{system_key, with_system, is_of_same, names_since, is_own_id};
ghost use Rattle.bike_catalogue_rules.specs.Names.{is_further, next_run, first_misnamed, is_place_there};
ghost use Rattle.bike_catalogue_rules.specs.Names.{is_offer_there, has_place, has_offer};

use crate::key::columns_key;
use bike_book::columns::{more_names, plans, regions, stations, types};
use bike_fields::{Ident, Language, NameKind};
use bike_judges::{
    BadKey, Judge, LineFold, LineJudge, LineTest, Query, fold_lines, judge_lines, least,
};
use bike_operator::MOST_FURTHER_NAMES;
use bike_readings::{
    Part, StoredName, read_name, read_plan, read_region, read_station, read_system, read_type,
};
use bike_schema::StatementFault;
use sqlite::{Alter, Connection, Row};
use std::alloc::Global;

/// Where the row of a name stands in its line.
const NAME_AT: usize = 0;

/// Where that of the station stands, in a line with station and region.
const STATION_AT: usize = NAME_AT + more_names::COLUMNS;

/// Where that of the region stands, in the same line.
const REGION_AT: usize = STATION_AT + stations::COLUMNS;

/// Where that of the vehicle type stands, in a line with type and plan.
const TYPE_AT: usize = NAME_AT + more_names::COLUMNS;

/// Where that of the plan stands, in the same line.
const PLAN_AT: usize = TYPE_AT + types::COLUMNS;

/// The system's identifier and its language, with which names are compared.
#[derive(Drop)]
pub(crate) struct SystemKey {
    id: Ident,
    language: Language,
}

/// Keeps the key of the first system that lines spell.
#[derive(Drop)]
pub(crate) struct FirstSystem {
    alloc: Global,
    key: Option<SystemKey>,
}

impl LineFold for FirstSystem {
    ghost after = { with_system };

    fn add(&mut self, line: &Row) -> Result<(), StatementFault> {
        if self.key.is_some() {
            return Ok(());
        }
        let Some(system) = read_system(Part::whole(line)) else {
            return Ok(());
        };
        let id = Ident::of(self.alloc, system.system_id)?;
        let language = Language::of(self.alloc, system.language)?;
        self.key = Some(SystemKey { id, language });
        Ok(())
    }
}

/// Whether one thing has both names.
fn is_of_same(a: &StoredName<'_>, b: &StoredName<'_>) -> bool
    ensures { result ≡ is_of_same (name_of a.now) (name_of b.now) }
{
    a.kind.as_str() == b.kind.as_str() && a.id == b.id
}

/// Whether the identifier is the system's, if it is the system's name.
fn is_own_id(own: &SystemKey, name: &StoredName<'_>) -> bool
    ensures { result ≡ is_own_id own.now name.now.kind name.now.id.now }
{
    match name.kind {
        NameKind::System => own.id.as_str() == name.id,
        _ => true,
    }
}

/// Finds the first line that isn't a name which may follow those before it.
#[derive(Drop)]
struct NameJudge {
    /// The system's key, if one is set.
    own: Option<SystemKey>,
    /// The line before, which was good.
    last: Option<Row>,
    /// How many lines up to that one, one after the other, are names of one thing.
    run: u32,
}

impl NameJudge {
    /// How many names of the same thing stand just before.
    fn names_since(&self, name: &StoredName<'_>) -> u32
        ensures { result ≡ names_since (option_and_then name_read self.now.last) self.now.run (name_of name.now) }
    {
        let Some(line) = &self.last else {
            return 0;
        };
        match read_name(Part::whole(line)) {
            Some(last) if is_of_same(&last, name) => self.run,
            _ => 0,
        }
    }

    /// Whether a system is set, and the name is in another language than its own.
    fn is_further(&self, name: &StoredName<'_>) -> bool
        ensures { result ≡ is_further self.now.own (name_of name.now) }
    {
        match &self.own {
            Some(own) => is_own_id(own, name) && own.language.as_str() != name.language,
            None => false,
        }
    }

    /// How many names of the same thing there are with the line's, where it has a name which may follow those before
    /// it.
    fn next_run(&self, line: &Row) -> Option<u32>
        ensures { result ≡ next_run self.now.own (option_and_then name_read self.now.last) self.now.run
            (name_read line.now) }
    {
        let name = read_name(Part::whole(line))?;
        let before = self.names_since(&name);
        if before < MOST_FURTHER_NAMES && self.is_further(&name) {
            return Some(before + 1);
        }
        None
    }
}

impl Judge for NameJudge {
    ghost says = { λ j lines verdict. first_misnamed j.own (option_and_then name_read j.last) j.run lines ≡ verdict };

    fn take(&mut self, line: &Row) -> Result<Option<BadKey>, StatementFault> {
        let Some(run) = self.next_run(line) else {
            return Ok(Some(columns_key(line, 3)?));
        };
        self.last = Some(line.copy()?);
        self.run = run;
        Ok(None)
    }

    fn end(self) -> Option<BadKey> {
        None
    }
}

/// Whether the station or the region is there that has the name, if it is a name of one.
fn is_place_there(kind: NameKind, line: &Row) -> bool
    ensures { result ≡ is_place_there kind line.now }
{
    match kind {
        NameKind::Station => read_station(Part::of(line, STATION_AT, stations::COLUMNS)).is_some(),
        NameKind::Region => read_region(Part::of(line, REGION_AT, regions::COLUMNS)).is_some(),
        _ => true,
    }
}

/// Whether the vehicle type or the plan is there that has the name, if it is a name of one.
fn is_offer_there(kind: NameKind, line: &Row) -> bool
    ensures { result ≡ is_offer_there kind line.now }
{
    match kind {
        NameKind::Type => read_type(Part::of(line, TYPE_AT, types::COLUMNS)).is_some(),
        NameKind::Plan | NameKind::Description => read_plan(Part::of(
            line,
            PLAN_AT,
            plans::COLUMNS,
        )).is_some(),
        _ => true,
    }
}

/// The station or the region is there that has the name.
#[derive(Drop)]
struct PlaceTest;

impl LineTest for PlaceTest {
    ghost test = { λ this before line. has_place before line };

    ghost key = { λ this line. take 3 line };

    fn is_good(&self, _before: u64, line: &Row) -> Result<bool, StatementFault> {
        let Some(name) = read_name(Part::of(line, NAME_AT, more_names::COLUMNS)) else {
            return Ok(false);
        };
        Ok(is_place_there(name.kind, line))
    }

    fn bad_key(&self, line: &Row) -> Result<BadKey, StatementFault> {
        columns_key(line, 3)
    }
}

/// The vehicle type or the plan is there that has the name.
#[derive(Drop)]
struct OfferTest;

impl LineTest for OfferTest {
    ghost test = { λ this before line. has_offer before line };

    ghost key = { λ this line. take 3 line };

    fn is_good(&self, _before: u64, line: &Row) -> Result<bool, StatementFault> {
        let Some(name) = read_name(Part::of(line, NAME_AT, more_names::COLUMNS)) else {
            return Ok(false);
        };
        Ok(is_offer_there(name.kind, line))
    }

    fn bad_key(&self, line: &Row) -> Result<BadKey, StatementFault> {
        columns_key(line, 3)
    }
}

/// The key of the system, if one is set.
fn find_own<S: Alter>(
    alloc: Global,
    conn: &mut Connection<S>,
) -> Result<Option<SystemKey>, StatementFault>
    ensures { ReadsWhere S.Store IsOurs conn.old conn.new result
        (λ db own. own ≡ option_map system_key (operator_of (tables_of db)).system) }
{
    let first = fold_lines(conn, Query::System, FirstSystem { alloc, key: None })?;
    Ok(first.key)
}

/// The first bad key of `more_names`, where all tables before it are good: a row that spells no name, a name where no
/// system is set or of a thing that isn't there, one in the system's own language, or one past the limit of its thing.
/// The database stays as it is. `StoreFailed` where the store fails or was shut, `NoMemory` where memory is refused.
pub fn judge_names<S: Alter>(
    alloc: Global,
    conn: &mut Connection<S>,
) -> Result<Option<BadKey>, StatementFault>
    ensures { ReadsWhere S.Store IsOurs conn.old conn.new result (JudgesTable MoreNames) }
{
    let own = find_own(alloc, conn)?;
    let names = NameJudge {
        own,
        last: None,
        run: 0,
    };
    let by_order = judge_lines(conn, Query::Names, names)?;
    let by_place = judge_lines(conn, Query::NamePlaces, LineJudge::new(PlaceTest))?;
    let by_offer = judge_lines(conn, Query::NameOffers, LineJudge::new(OfferTest))?;
    Ok(least(least(by_order, by_place), by_offer))
}
