//! Given words that stand in no text that was parsed.

use crate::tests::given::{condition, names, values};
use alt_expr::{Names, Values};
use alt_projection::parse as projection;
use std::alloc::Global;

/// Given names and values, the texts of a condition and of a projection, and whether a name and whether a value is unused.
struct Row {
    names: &'static str,
    values: &'static str,
    condition: &'static str,
    projection: &'static str,
    is_name_unused: bool,
    is_value_unused: bool,
}

macro_rules! row {
    ($names:literal, $values:literal, $condition:literal, $projection:literal, $name:literal, $value:literal) => {
        Row { names: $names, values: $values, condition: $condition, projection: $projection, is_name_unused: $name, is_value_unused: $value }
    };
}

static ROWS: [Row; 13] = [
    row!("{}", "{}", "a = b", "a", false, false),
    row!("{}", r#"{":x":{"S":"x"}}"#, "a = :x", "a", false, false),
    row!(
        "{}",
        r#"{":x":{"S":"x"},":one":{"N":"1"}}"#,
        "a = :x",
        "a",
        false,
        true
    ),
    row!(r##"{"#a":"a"}"##, "{}", "#a = b", "a", false, false),
    row!(r##"{"#a":"a"}"##, "{}", "a = b", "#a", false, false),
    row!(r##"{"#a":"a"}"##, "{}", "a = b", "a", true, false),
    row!(
        r##"{"#a":"a","#b":"a"}"##,
        "{}",
        "#a = b",
        "#b",
        false,
        false
    ),
    row!(
        r##"{"#a":"a","#b":"a"}"##,
        "{}",
        "#a = #a",
        "a",
        true,
        false
    ),
    // A word without its sign stands in no text.
    row!(r#"{"a":"a"}"#, "{}", "a = b", "a", true, false),
    row!("{}", r#"{"x":{"S":"x"}}"#, "a = x", "a", false, true),
    row!(r#"{"":"a"}"#, "{}", "a = b", "a", true, false),
    // The words of a text that has a fault aren't used.
    row!(
        r##"{"#a":"a"}"##,
        r#"{":x":{"S":"x"}}"#,
        "#a = :x OR",
        "a",
        true,
        true
    ),
    row!(r##"{"#a":"a"}"##, "{}", "a = b", "#a, #a", true, false),
];

/// Notes the words of a condition, if it has a tree, and those of a projection.
fn note(alloc: Global, row: &Row, names: &mut Names, values: &mut Values) -> bool {
    let is_condition = condition(alloc, row.condition, names, values).is_ok();
    let is_projection = projection(alloc, row.projection, names).is_ok();
    is_condition || is_projection
}

fn is_told(alloc: Global, row: &Row) -> bool {
    let Some(mut names) = names(alloc, row.names) else {
        return false;
    };
    let Some(mut values) = values(alloc, row.values) else {
        return false;
    };
    note(alloc, row, &mut names, &mut values)
        && names.unused() == row.is_name_unused
        && values.unused() == row.is_value_unused
}

#[test]
fn unused_words_are_told(rt: HostRuntime) {
    for row in &ROWS {
        assert!(rt;
            is_told(rt.alloc(), row),
            "{} {}",
            row.condition,
            row.projection
        );
    }
}
