//! What the texts of the feeds are made of, and what their names mean.

ghost use Rattle.std.specs.Prelude.{◌≡◌, ◌∷◌, ◌++◌, [], ℕ, List, Some, false, codes};
ghost use Rattle.std.specs.FinMap.{values};
ghost use Rattle.bike_json.specs.Rows.{items};
ghost use Rattle.bike_json.specs.Tree.{text, text_of, items_text};
ghost use Rattle.bike_fields.specs.declared.name_kind.NameKind.{NameKind};
ghost use Rattle.bike_fields.specs.declared.name_kind.NameKind.TheVariants as named;
ghost use Rattle.bike_operator.specs.Operator.{Operator};
ghost use Rattle.bike_operator.specs.Names.{further_names};
ghost use Rattle.bike_catalogue.specs.Rows.{SystemRow};
ghost use Rattle.bike_feed_texts.specs.declared.feed.Feed.{Feed as AnyFeed};
ghost use Rattle.bike_feed_texts.specs.Elements.{status_tree};
ghost use Rattle.bike_feed_texts.specs.Feeds.{feed_name, feed_of};
ghost use Rattle.bike_feed_texts.specs.Trees.{feed_tree, report_of, counts_of, further_languages, type_element};
ghost use Rattle.bike_feed_texts.specs.Trees.{station_element, plan_element, region_element};
ghost use Rattle.bike_feed_texts.specs.Writing.{list_head_text, list_end_text, information_head_text};
ghost use Rattle.bike_feed_texts.specs.Writing.{information_end_text};

use crate::feed::Feed;

/// A feed is read exactly from its name.
pub fn feed_name_laws()
    ensures sound { (text : List ℕ) (f : AnyFeed) → feed_of text ≡ Some f → text ≡ feed_name f }
    ensures full { (f : AnyFeed) → feed_of (feed_name f) ≡ Some f }
{}

/// Where no name is in a further language, nothing has a further name.
pub fn further_name_laws()
    ensures { (s : Operator) (kind : NameKind) (id : List ℕ) → further_languages s ≡ [] → further_names s kind id ≡ [] }
{}

/// The text of a feed whose data are a list: what `open_list` writes, the elements with commas between them, and what
/// `close_list` writes. Of the system's, what `open_information` writes, the languages, and what `close_information`
/// writes.
pub fn list_text_laws()
    // The feed of the system, with the list of its languages.
    ensures system_information { (s : Operator) (x : SystemRow) (seconds : ℕ)
        → text_of (feed_tree s x Feed.SystemInformation seconds) ≡ information_head_text x seconds
        ++ (items_text false (items text (x.language ∷ further_languages s))
        ++ information_end_text x (further_names s named.System x.system_id)) }
    // The feeds that are a list.
    ensures vehicle_types { (s : Operator) (x : SystemRow) (seconds : ℕ)
        → text_of (feed_tree s x Feed.VehicleTypes seconds) ≡ list_head_text x seconds (codes "vehicle_types")
        ++ (items_text false (items (type_element s x) (values s.types)) ++ list_end_text) }
    ensures station_information { (s : Operator) (x : SystemRow) (seconds : ℕ)
        → text_of (feed_tree s x Feed.StationInformation seconds) ≡ list_head_text x seconds (codes "stations")
        ++ (items_text false (items (station_element s x) (values s.stations)) ++ list_end_text) }
    ensures station_status { (s : Operator) (x : SystemRow) (seconds : ℕ)
        → text_of (feed_tree s x Feed.StationStatus seconds) ≡ list_head_text x seconds (codes "stations")
        ++ (items_text false (items (λ station. status_tree (report_of station) (counts_of s station))
        (values s.stations)) ++ list_end_text) }
    ensures system_pricing_plans { (s : Operator) (x : SystemRow) (seconds : ℕ)
        → text_of (feed_tree s x Feed.SystemPricingPlans seconds) ≡ list_head_text x seconds (codes "plans")
        ++ (items_text false (items (plan_element s x) (values s.plans)) ++ list_end_text) }
    ensures system_regions { (s : Operator) (x : SystemRow) (seconds : ℕ)
        → text_of (feed_tree s x Feed.SystemRegions seconds) ≡ list_head_text x seconds (codes "regions")
        ++ (items_text false (items (region_element s x) (values s.regions)) ++ list_end_text) }
{}
