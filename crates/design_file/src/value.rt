ghost use Rattle.std.specs.Prelude.{◌≡◌, is_some, option_map};
ghost use Rattle.toml.specs.View.{view};
ghost use Rattle.design_file.specs.Values.{as_area, entry_fault, as_flag, is_area, as_levels, levels_named, as_metric, metric_within, unless, value_fault};

use crate::DesignKind;
use crate::key::Key;
use ios_lines::title::is_area_address;
use net_model::{Levels, MOST_METRIC};
use toml::Value;

/// The most bytes of an area: two digits, and six groups of a dot and four digits.
const MOST_AREA: usize = 32;

/// Whether a word is an area: two hexadecimal digits, then at most six groups of a dot and four hexadecimal digits.
pub fn is_area(word: &str) -> bool
    ensures { result ≡ is_area word.now }
{
    word.len() <= MOST_AREA && is_area_address(word.as_bytes())
}

/// The levels that a word says: `1`, `2`, or `1-2` for both.
pub fn levels_named(word: &str) -> Option<Levels>
    ensures { result ≡ levels_named word.now }
{
    match word {
        "1" => Some(Levels::One),
        "1-2" => Some(Levels::Both),
        "2" => Some(Levels::Two),
        _ => None,
    }
}

/// The metric that a number is.
fn metric_of(number: i64) -> Option<u32>
    ensures { result ≡ metric_within number }
{
    if 1 <= number && number <= i64::from(MOST_METRIC) {
        Some(number as u32)
    } else {
        None
    }
}

/// The area that a value says.
pub(crate) fn area_in(value: &Value) -> Option<&str>
    ensures { option_map (λ s. s.now) result ≡ as_area (view value.now) }
{
    match value {
        Value::String(word) if is_area(word.as_str()) => Some(word.as_str()),
        _ => None,
    }
}

/// The levels that a value says.
pub(crate) fn levels_in(value: &Value) -> Option<Levels>
    ensures { result ≡ as_levels (view value.now) }
{
    match value {
        Value::String(word) => levels_named(word.as_str()),
        _ => None,
    }
}

/// The metric that a value says.
pub(crate) fn metric_in(value: &Value) -> Option<u32>
    ensures { result ≡ as_metric (view value.now) }
{
    match value {
        Value::Integer(number) => metric_of(*number),
        _ => None,
    }
}

/// The truth that a value says.
pub(crate) fn flag_in(value: &Value) -> Option<bool>
    ensures { result ≡ as_flag (view value.now) }
{
    match value {
        Value::Boolean(flag) => Some(*flag),
        _ => None,
    }
}

/// The fault of a value that is bad unless it is good.
fn unless(good: bool, kind: DesignKind) -> Option<DesignKind>
    ensures { result ≡ unless good kind }
{
    if good { None } else { Some(kind) }
}

/// The fault of a value: it is of another kind than its key asks, or it is off its grammar.
fn value_fault(key: Key, value: &Value) -> Option<DesignKind>
    ensures { result ≡ value_fault key (view value.now) }
{
    match (key, value) {
        (Key::Area, Value::String(word)) => unless(is_area(word.as_str()), DesignKind::BadArea),
        (Key::Level, Value::String(word)) => {
            unless(levels_named(word.as_str()).is_some(), DesignKind::BadLevel)
        }
        (Key::Metric, Value::Integer(number)) => {
            unless(metric_of(*number).is_some(), DesignKind::BadMetric)
        }
        (Key::Leak | Key::Passive, Value::Boolean(_)) => None,
        (Key::Table(_), Value::Table(_)) => None,
        _ => Some(DesignKind::WrongKind),
    }
}

/// The fault of an entry: its table has no such key, or its value is faulty.
pub(crate) fn entry_fault(key: Option<Key>, value: &Value) -> Option<DesignKind>
    ensures { result ≡ entry_fault key (view value.now) }
{
    match key {
        None => Some(DesignKind::UnknownKey),
        Some(key) => value_fault(key, value),
    }
}
