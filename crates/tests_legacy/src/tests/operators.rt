//! Each operator on an attribute of each kind, and on one that isn't there (API Reference, "Condition", ComparisonOperator).

use crate::tests::conditions::is_judged;
use alt_legacy::Form;
use std::alloc::Global;

/// An operator, the name of an attribute, the list of the operator's values, and whether the entry holds of the item.
type Row = (&'static str, &'static str, &'static str, bool);

static ROWS: [Row; 165] = [
    ("EQ", "s", r#"[{"S":"abc"}]"#, true),
    ("EQ", "n", r#"[{"N":"5.00"}]"#, true),
    ("EQ", "b", r#"[{"B":"AAH/"}]"#, true),
    ("EQ", "t", r#"[{"BOOL":true}]"#, true),
    ("EQ", "z", r#"[{"NULL":true}]"#, true),
    ("EQ", "ss", r#"[{"SS":["b","a"]}]"#, true),
    ("EQ", "ns", r#"[{"NS":["2","1.0"]}]"#, true),
    ("EQ", "bs", r#"[{"BS":["AQ==","Ag=="]}]"#, true),
    ("EQ", "l", r#"[{"L":[{"N":"1"},{"S":"x"}]}]"#, true),
    ("EQ", "m", r#"[{"M":{"a":{"N":"1"}}}]"#, true),
    ("EQ", "none", r#"[{"N":"5"}]"#, false),
    ("EQ", "s", r#"[{"S":"x"}]"#, false),
    ("EQ", "n", r#"[{"S":"x"}]"#, false),
    ("EQ", "ss", r#"[{"S":"x"}]"#, false),
    ("EQ", "l", r#"[{"S":"x"}]"#, false),
    ("EQ", "m", r#"[{"S":"x"}]"#, false),
    ("NE", "s", r#"[{"S":"abc"}]"#, false),
    ("NE", "n", r#"[{"N":"5.00"}]"#, false),
    ("NE", "b", r#"[{"B":"AAH/"}]"#, false),
    ("NE", "t", r#"[{"BOOL":true}]"#, false),
    ("NE", "z", r#"[{"NULL":true}]"#, false),
    ("NE", "ss", r#"[{"SS":["b","a"]}]"#, false),
    ("NE", "ns", r#"[{"NS":["2","1.0"]}]"#, false),
    ("NE", "bs", r#"[{"BS":["AQ==","Ag=="]}]"#, false),
    ("NE", "l", r#"[{"L":[{"N":"1"},{"S":"x"}]}]"#, false),
    ("NE", "m", r#"[{"M":{"a":{"N":"1"}}}]"#, false),
    ("NE", "none", r#"[{"N":"5"}]"#, true),
    ("NE", "s", r#"[{"S":"x"}]"#, true),
    ("NE", "n", r#"[{"S":"x"}]"#, true),
    ("NE", "ss", r#"[{"S":"x"}]"#, true),
    ("NE", "l", r#"[{"S":"x"}]"#, true),
    ("NE", "m", r#"[{"S":"x"}]"#, true),
    ("LT", "n", r#"[{"N":"5.0"}]"#, false),
    ("LT", "n", r#"[{"N":"10"}]"#, true),
    ("LT", "n", r#"[{"N":"-6"}]"#, false),
    ("LT", "n", r#"[{"S":"6"}]"#, false),
    ("LT", "s", r#"[{"S":"abd"}]"#, true),
    ("LT", "s", r#"[{"S":"abc"}]"#, false),
    ("LT", "s", r#"[{"S":"ab"}]"#, false),
    ("LT", "b", r#"[{"B":"AAI="}]"#, true),
    ("LT", "b", r#"[{"B":"AAH/"}]"#, false),
    ("LT", "b", r#"[{"B":"AA=="}]"#, false),
    ("LT", "t", r#"[{"BOOL":true}]"#, false),
    ("LT", "ns", r#"[{"NS":["1","2"]}]"#, false),
    ("LT", "l", r#"[{"N":"9"}]"#, false),
    ("LT", "none", r#"[{"N":"9"}]"#, false),
    ("LE", "n", r#"[{"N":"5.0"}]"#, true),
    ("LE", "n", r#"[{"N":"10"}]"#, true),
    ("LE", "n", r#"[{"N":"-6"}]"#, false),
    ("LE", "n", r#"[{"S":"6"}]"#, false),
    ("LE", "s", r#"[{"S":"abd"}]"#, true),
    ("LE", "s", r#"[{"S":"abc"}]"#, true),
    ("LE", "s", r#"[{"S":"ab"}]"#, false),
    ("LE", "b", r#"[{"B":"AAI="}]"#, true),
    ("LE", "b", r#"[{"B":"AAH/"}]"#, true),
    ("LE", "b", r#"[{"B":"AA=="}]"#, false),
    ("LE", "t", r#"[{"BOOL":true}]"#, false),
    ("LE", "ns", r#"[{"NS":["1","2"]}]"#, false),
    ("LE", "l", r#"[{"N":"9"}]"#, false),
    ("LE", "none", r#"[{"N":"9"}]"#, false),
    ("GT", "n", r#"[{"N":"5.0"}]"#, false),
    ("GT", "n", r#"[{"N":"10"}]"#, false),
    ("GT", "n", r#"[{"N":"-6"}]"#, true),
    ("GT", "n", r#"[{"S":"6"}]"#, false),
    ("GT", "s", r#"[{"S":"abd"}]"#, false),
    ("GT", "s", r#"[{"S":"abc"}]"#, false),
    ("GT", "s", r#"[{"S":"ab"}]"#, true),
    ("GT", "b", r#"[{"B":"AAI="}]"#, false),
    ("GT", "b", r#"[{"B":"AAH/"}]"#, false),
    ("GT", "b", r#"[{"B":"AA=="}]"#, true),
    ("GT", "t", r#"[{"BOOL":true}]"#, false),
    ("GT", "ns", r#"[{"NS":["1","2"]}]"#, false),
    ("GT", "l", r#"[{"N":"9"}]"#, false),
    ("GT", "none", r#"[{"N":"9"}]"#, false),
    ("GE", "n", r#"[{"N":"5.0"}]"#, true),
    ("GE", "n", r#"[{"N":"10"}]"#, false),
    ("GE", "n", r#"[{"N":"-6"}]"#, true),
    ("GE", "n", r#"[{"S":"6"}]"#, false),
    ("GE", "s", r#"[{"S":"abd"}]"#, false),
    ("GE", "s", r#"[{"S":"abc"}]"#, true),
    ("GE", "s", r#"[{"S":"ab"}]"#, true),
    ("GE", "b", r#"[{"B":"AAI="}]"#, false),
    ("GE", "b", r#"[{"B":"AAH/"}]"#, true),
    ("GE", "b", r#"[{"B":"AA=="}]"#, true),
    ("GE", "t", r#"[{"BOOL":true}]"#, false),
    ("GE", "ns", r#"[{"NS":["1","2"]}]"#, false),
    ("GE", "l", r#"[{"N":"9"}]"#, false),
    ("GE", "none", r#"[{"N":"9"}]"#, false),
    ("BETWEEN", "n", r#"[{"N":"5"},{"N":"5"}]"#, true),
    ("BETWEEN", "n", r#"[{"N":"6"},{"N":"4"}]"#, false),
    ("BETWEEN", "n", r#"[{"N":"4"},{"S":"6"}]"#, false),
    ("BETWEEN", "s", r#"[{"S":"ab"},{"S":"b"}]"#, true),
    ("BETWEEN", "b", r#"[{"B":"AA=="},{"B":"AQ=="}]"#, true),
    ("BETWEEN", "z", r#"[{"N":"1"},{"N":"2"}]"#, false),
    ("BETWEEN", "none", r#"[{"N":"1"},{"N":"2"}]"#, false),
    ("IN", "n", r#"[{"S":"5"},{"N":"5.0"}]"#, true),
    ("IN", "n", r#"[{"S":"5"},{"NS":["5"]}]"#, false),
    ("IN", "ss", r#"[{"SS":["b","a"]}]"#, true),
    ("IN", "m", r#"[{"M":{"a":{"N":"1.0"}}}]"#, true),
    ("IN", "none", r#"[{"N":"5"}]"#, false),
    ("IN", "z", r#"[{"NULL":true}]"#, true),
    ("NULL", "s", "null", false),
    ("NULL", "n", "null", false),
    ("NULL", "b", "null", false),
    ("NULL", "t", "null", false),
    ("NULL", "z", "null", false),
    ("NULL", "ss", "null", false),
    ("NULL", "ns", "null", false),
    ("NULL", "bs", "null", false),
    ("NULL", "l", "null", false),
    ("NULL", "m", "null", false),
    ("NULL", "none", "null", true),
    ("NOT_NULL", "s", "null", true),
    ("NOT_NULL", "n", "null", true),
    ("NOT_NULL", "b", "null", true),
    ("NOT_NULL", "t", "null", true),
    ("NOT_NULL", "z", "null", true),
    ("NOT_NULL", "ss", "null", true),
    ("NOT_NULL", "ns", "null", true),
    ("NOT_NULL", "bs", "null", true),
    ("NOT_NULL", "l", "null", true),
    ("NOT_NULL", "m", "null", true),
    ("NOT_NULL", "none", "null", false),
    ("CONTAINS", "s", r#"[{"S":"bc"}]"#, true),
    ("CONTAINS", "s", r#"[{"S":"cb"}]"#, false),
    ("CONTAINS", "s", r#"[{"N":"1"}]"#, false),
    ("CONTAINS", "b", r#"[{"B":"Af8="}]"#, true),
    ("CONTAINS", "b", r#"[{"B":"/wE="}]"#, false),
    ("CONTAINS", "ss", r#"[{"S":"a"}]"#, true),
    ("CONTAINS", "ss", r#"[{"S":"c"}]"#, false),
    ("CONTAINS", "ns", r#"[{"N":"2.0"}]"#, true),
    ("CONTAINS", "ns", r#"[{"S":"2"}]"#, false),
    ("CONTAINS", "bs", r#"[{"B":"Ag=="}]"#, true),
    ("CONTAINS", "l", r#"[{"N":"1.0"}]"#, true),
    ("CONTAINS", "l", r#"[{"N":"2"}]"#, false),
    ("CONTAINS", "n", r#"[{"N":"5"}]"#, false),
    ("CONTAINS", "m", r#"[{"S":"a"}]"#, false),
    ("CONTAINS", "t", r#"[{"BOOL":true}]"#, false),
    ("CONTAINS", "none", r#"[{"S":"a"}]"#, false),
    ("NOT_CONTAINS", "s", r#"[{"S":"bc"}]"#, false),
    ("NOT_CONTAINS", "s", r#"[{"S":"cb"}]"#, true),
    ("NOT_CONTAINS", "s", r#"[{"N":"1"}]"#, true),
    ("NOT_CONTAINS", "b", r#"[{"B":"Af8="}]"#, false),
    ("NOT_CONTAINS", "b", r#"[{"B":"/wE="}]"#, true),
    ("NOT_CONTAINS", "ss", r#"[{"S":"a"}]"#, false),
    ("NOT_CONTAINS", "ss", r#"[{"S":"c"}]"#, true),
    ("NOT_CONTAINS", "ns", r#"[{"N":"2.0"}]"#, false),
    ("NOT_CONTAINS", "ns", r#"[{"S":"2"}]"#, true),
    ("NOT_CONTAINS", "bs", r#"[{"B":"Ag=="}]"#, false),
    ("NOT_CONTAINS", "l", r#"[{"N":"1.0"}]"#, false),
    ("NOT_CONTAINS", "l", r#"[{"N":"2"}]"#, true),
    ("NOT_CONTAINS", "n", r#"[{"N":"5"}]"#, true),
    ("NOT_CONTAINS", "m", r#"[{"S":"a"}]"#, true),
    ("NOT_CONTAINS", "t", r#"[{"BOOL":true}]"#, true),
    ("NOT_CONTAINS", "none", r#"[{"S":"a"}]"#, false),
    ("BEGINS_WITH", "s", r#"[{"S":"ab"}]"#, true),
    ("BEGINS_WITH", "s", r#"[{"S":"abc"}]"#, true),
    ("BEGINS_WITH", "s", r#"[{"S":"abcd"}]"#, false),
    ("BEGINS_WITH", "s", r#"[{"S":"b"}]"#, false),
    ("BEGINS_WITH", "s", r#"[{"B":"YQ=="}]"#, false),
    ("BEGINS_WITH", "b", r#"[{"B":"AAE="}]"#, true),
    ("BEGINS_WITH", "b", r#"[{"B":"AQ=="}]"#, false),
    ("BEGINS_WITH", "n", r#"[{"N":"5"}]"#, false),
    ("BEGINS_WITH", "ss", r#"[{"S":"a"}]"#, false),
    ("BEGINS_WITH", "none", r#"[{"S":"a"}]"#, false),
];

/// Writes the entries of a row: one of the attribute's name.
fn put_entries(out: &mut String, row: &Row) -> bool {
    let parts = [
        r#"{""#,
        row.1,
        r#"":{"ComparisonOperator":""#,
        row.0,
        r#"","AttributeValueList":"#,
        row.2,
        "}}",
    ];
    for part in parts {
        if out.push_str(part).is_err() {
            return false;
        }
    }
    true
}

fn is_row(alloc: Global, form: Form, row: &Row) -> bool {
    let mut entries = String::new(alloc);
    put_entries(&mut entries, row)
        && is_judged(alloc, form, entries.as_str(), false, Ok(Some(row.3)))
}

#[test]
fn operators_hold_as_their_table_says(rt: HostRuntime) {
    for row in &ROWS {
        assert!(rt;
            is_row(rt.alloc(), Form::Filter, row),
            "{} of {}, {}",
            row.0,
            row.1,
            row.2
        );
    }
}

#[test]
fn operators_of_expected_hold_likewise(rt: HostRuntime) {
    for row in &ROWS {
        assert!(rt;
            is_row(rt.alloc(), Form::Expected, row),
            "{} of {}, {}",
            row.0,
            row.1,
            row.2
        );
    }
}
