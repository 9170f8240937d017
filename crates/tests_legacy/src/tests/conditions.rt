//! The forms of entries, how many values an operator has, and how entries are joined.

use crate::tests::given::{ITEM, item};
use alt_condeval::holds;
use alt_expr::Cond;
use alt_legacy::{Form, LegacyFault, expected_of, filter_of};
use serde_json::Value;
use std::alloc::Global;

/// Whether a condition holds of the item; none where nothing is asked.
pub(crate) type Judged = Result<Option<bool>, LegacyFault>;

const BAD: Judged = Err(LegacyFault::Bad);

/// Entries, whether they are joined by OR, and what they come to.
type Row = (&'static str, bool, Judged);

/// Entries of Expected: an operator with its values, a value, alone or with Exists true, or Exists false alone.
static FORMS: [Row; 23] = [
    (r#"{"n":{"Value":{"N":"5.0"}}}"#, false, Ok(Some(true))),
    (
        r#"{"n":{"Value":{"N":"5"},"Exists":true}}"#,
        false,
        Ok(Some(true)),
    ),
    (r#"{"n":{"Value":{"S":"5"}}}"#, false, Ok(Some(false))),
    (r#"{"n":{"Exists":false}}"#, false, Ok(Some(false))),
    (r#"{"none":{"Exists":false}}"#, false, Ok(Some(true))),
    (r#"{"none":{"Value":{"N":"1"}}}"#, false, Ok(Some(false))),
    (
        r#"{"none":{"Value":{"N":"1"},"Exists":true}}"#,
        false,
        Ok(Some(false)),
    ),
    (
        r#"{"n":{"Exists":null,"Value":null,"ComparisonOperator":"NULL"}}"#,
        false,
        Ok(Some(false)),
    ),
    (
        r#"{"n":{"Value":{"N":"5"},"AttributeValueList":null}}"#,
        false,
        Ok(Some(true)),
    ),
    (
        r#"{"l":{"Value":{"L":[{"N":"1.0"},{"S":"x"}]}}}"#,
        false,
        Ok(Some(true)),
    ),
    (r#"{}"#, false, Ok(None)),
    (r#"{"none":{}}"#, false, BAD),
    (r#"{"n":{"Exists":true}}"#, false, BAD),
    (r#"{"n":{"Value":{"N":"5"},"Exists":false}}"#, false, BAD),
    (r#"{"n":{"AttributeValueList":[{"N":"5"}]}}"#, false, BAD),
    (r#"{"n":{"AttributeValueList":[]}}"#, false, BAD),
    (
        r#"{"n":{"Value":{"N":"5"},"AttributeValueList":[]}}"#,
        false,
        BAD,
    ),
    (
        r#"{"none":{"Exists":false,"AttributeValueList":[]}}"#,
        false,
        BAD,
    ),
    (
        r#"{"n":{"ComparisonOperator":"EQ","AttributeValueList":[{"N":"5"}],"Value":{"N":"5"}}}"#,
        false,
        BAD,
    ),
    (
        r#"{"n":{"ComparisonOperator":"NULL","Exists":false}}"#,
        false,
        BAD,
    ),
    (
        r#"{"n":{"ComparisonOperator":"NOT_NULL","Exists":true}}"#,
        false,
        BAD,
    ),
    (r#"{"":{"Value":{"N":"5"}}}"#, false, BAD),
    (r#"{"n":{"Value":{"N":"5"}},"zz":{}}"#, false, BAD),
];

/// An operator has as many values as it takes.
static COUNTS: [Row; 19] = [
    (r#"{"n":{"ComparisonOperator":"EQ"}}"#, false, BAD),
    (
        r#"{"n":{"ComparisonOperator":"EQ","AttributeValueList":[]}}"#,
        false,
        BAD,
    ),
    (
        r#"{"n":{"ComparisonOperator":"EQ","AttributeValueList":[{"N":"5"},{"N":"5"}]}}"#,
        false,
        BAD,
    ),
    (
        r#"{"n":{"ComparisonOperator":"NE","AttributeValueList":[]}}"#,
        false,
        BAD,
    ),
    (
        r#"{"n":{"ComparisonOperator":"LT","AttributeValueList":[{"N":"5"},{"N":"5"}]}}"#,
        false,
        BAD,
    ),
    (
        r#"{"n":{"ComparisonOperator":"BETWEEN","AttributeValueList":[{"N":"1"}]}}"#,
        false,
        BAD,
    ),
    (
        r#"{"n":{"ComparisonOperator":"BETWEEN","AttributeValueList":[{"N":"4"},{"N":"5"},{"N":"6"}]}}"#,
        false,
        BAD,
    ),
    (r#"{"n":{"ComparisonOperator":"IN"}}"#, false, BAD),
    (
        r#"{"n":{"ComparisonOperator":"IN","AttributeValueList":[]}}"#,
        false,
        BAD,
    ),
    (
        r#"{"n":{"ComparisonOperator":"IN","AttributeValueList":[{"N":"0"},{"N":"1"},{"N":"2"},{"N":"3"},{"N":"4"},{"N":"5"},{"N":"6"},{"N":"7"},{"N":"8"},{"N":"9"},{"N":"10"},{"N":"11"},{"N":"12"},{"N":"13"},{"N":"14"},{"N":"15"},{"N":"16"},{"N":"17"},{"N":"18"},{"N":"19"},{"N":"20"},{"N":"21"},{"N":"22"},{"N":"23"},{"N":"24"},{"N":"25"},{"N":"26"},{"N":"27"},{"N":"28"},{"N":"29"},{"N":"30"},{"N":"31"},{"N":"32"},{"N":"33"},{"N":"34"},{"N":"35"},{"N":"36"},{"N":"37"},{"N":"38"},{"N":"39"},{"N":"40"},{"N":"41"},{"N":"42"},{"N":"43"},{"N":"44"},{"N":"45"},{"N":"46"},{"N":"47"},{"N":"48"},{"N":"49"},{"N":"50"},{"N":"51"},{"N":"52"},{"N":"53"},{"N":"54"},{"N":"55"},{"N":"56"},{"N":"57"},{"N":"58"},{"N":"59"},{"N":"60"},{"N":"61"},{"N":"62"},{"N":"63"},{"N":"64"},{"N":"65"},{"N":"66"},{"N":"67"},{"N":"68"},{"N":"69"},{"N":"70"},{"N":"71"},{"N":"72"},{"N":"73"},{"N":"74"},{"N":"75"},{"N":"76"},{"N":"77"},{"N":"78"},{"N":"79"},{"N":"80"},{"N":"81"},{"N":"82"},{"N":"83"},{"N":"84"},{"N":"85"},{"N":"86"},{"N":"87"},{"N":"88"},{"N":"89"},{"N":"90"},{"N":"91"},{"N":"92"},{"N":"93"},{"N":"94"},{"N":"95"},{"N":"96"},{"N":"97"},{"N":"98"},{"N":"99"}]}}"#,
        false,
        Ok(Some(true)),
    ),
    (
        r#"{"n":{"ComparisonOperator":"IN","AttributeValueList":[{"N":"0"},{"N":"1"},{"N":"2"},{"N":"3"},{"N":"4"},{"N":"5"},{"N":"6"},{"N":"7"},{"N":"8"},{"N":"9"},{"N":"10"},{"N":"11"},{"N":"12"},{"N":"13"},{"N":"14"},{"N":"15"},{"N":"16"},{"N":"17"},{"N":"18"},{"N":"19"},{"N":"20"},{"N":"21"},{"N":"22"},{"N":"23"},{"N":"24"},{"N":"25"},{"N":"26"},{"N":"27"},{"N":"28"},{"N":"29"},{"N":"30"},{"N":"31"},{"N":"32"},{"N":"33"},{"N":"34"},{"N":"35"},{"N":"36"},{"N":"37"},{"N":"38"},{"N":"39"},{"N":"40"},{"N":"41"},{"N":"42"},{"N":"43"},{"N":"44"},{"N":"45"},{"N":"46"},{"N":"47"},{"N":"48"},{"N":"49"},{"N":"50"},{"N":"51"},{"N":"52"},{"N":"53"},{"N":"54"},{"N":"55"},{"N":"56"},{"N":"57"},{"N":"58"},{"N":"59"},{"N":"60"},{"N":"61"},{"N":"62"},{"N":"63"},{"N":"64"},{"N":"65"},{"N":"66"},{"N":"67"},{"N":"68"},{"N":"69"},{"N":"70"},{"N":"71"},{"N":"72"},{"N":"73"},{"N":"74"},{"N":"75"},{"N":"76"},{"N":"77"},{"N":"78"},{"N":"79"},{"N":"80"},{"N":"81"},{"N":"82"},{"N":"83"},{"N":"84"},{"N":"85"},{"N":"86"},{"N":"87"},{"N":"88"},{"N":"89"},{"N":"90"},{"N":"91"},{"N":"92"},{"N":"93"},{"N":"94"},{"N":"95"},{"N":"96"},{"N":"97"},{"N":"98"},{"N":"99"},{"N":"100"}]}}"#,
        false,
        BAD,
    ),
    (
        r#"{"n":{"ComparisonOperator":"NULL","AttributeValueList":[{"N":"5"}]}}"#,
        false,
        BAD,
    ),
    (
        r#"{"n":{"ComparisonOperator":"NOT_NULL","AttributeValueList":[{"N":"5"}]}}"#,
        false,
        BAD,
    ),
    (
        r#"{"n":{"ComparisonOperator":"NOT_NULL","AttributeValueList":[]}}"#,
        false,
        Ok(Some(true)),
    ),
    (
        r#"{"s":{"ComparisonOperator":"CONTAINS","AttributeValueList":[]}}"#,
        false,
        BAD,
    ),
    (
        r#"{"s":{"ComparisonOperator":"NOT_CONTAINS","AttributeValueList":[{"S":"a"},{"S":"b"}]}}"#,
        false,
        BAD,
    ),
    (r#"{"s":{"ComparisonOperator":"BEGINS_WITH"}}"#, false, BAD),
    (r#"{"":{"ComparisonOperator":"NULL"}}"#, false, BAD),
    (r#"{}"#, false, Ok(None)),
];

/// All entries hold, or with OR one of them.
static JOINED: [Row; 16] = [
    (
        r#"{"n":{"ComparisonOperator":"GE","AttributeValueList":[{"N":"5"}]}}"#,
        false,
        Ok(Some(true)),
    ),
    (
        r#"{"n":{"ComparisonOperator":"GE","AttributeValueList":[{"N":"5"}]}}"#,
        true,
        Ok(Some(true)),
    ),
    (
        r#"{"s":{"ComparisonOperator":"EQ","AttributeValueList":[{"S":"x"}]}}"#,
        false,
        Ok(Some(false)),
    ),
    (
        r#"{"s":{"ComparisonOperator":"EQ","AttributeValueList":[{"S":"x"}]}}"#,
        true,
        Ok(Some(false)),
    ),
    (
        r#"{"n":{"ComparisonOperator":"GE","AttributeValueList":[{"N":"5"}]},"s":{"ComparisonOperator":"EQ","AttributeValueList":[{"S":"x"}]}}"#,
        false,
        Ok(Some(false)),
    ),
    (
        r#"{"n":{"ComparisonOperator":"GE","AttributeValueList":[{"N":"5"}]},"s":{"ComparisonOperator":"EQ","AttributeValueList":[{"S":"x"}]}}"#,
        true,
        Ok(Some(true)),
    ),
    (
        r#"{"n":{"ComparisonOperator":"GE","AttributeValueList":[{"N":"5"}]},"z":{"ComparisonOperator":"NOT_NULL"}}"#,
        false,
        Ok(Some(true)),
    ),
    (
        r#"{"n":{"ComparisonOperator":"GE","AttributeValueList":[{"N":"5"}]},"z":{"ComparisonOperator":"NOT_NULL"}}"#,
        true,
        Ok(Some(true)),
    ),
    (
        r#"{"s":{"ComparisonOperator":"EQ","AttributeValueList":[{"S":"x"}]},"none":{"ComparisonOperator":"NOT_NULL"}}"#,
        false,
        Ok(Some(false)),
    ),
    (
        r#"{"s":{"ComparisonOperator":"EQ","AttributeValueList":[{"S":"x"}]},"none":{"ComparisonOperator":"NOT_NULL"}}"#,
        true,
        Ok(Some(false)),
    ),
    (
        r#"{"n":{"ComparisonOperator":"GE","AttributeValueList":[{"N":"5"}]},"z":{"ComparisonOperator":"NOT_NULL"},"s":{"ComparisonOperator":"EQ","AttributeValueList":[{"S":"x"}]}}"#,
        false,
        Ok(Some(false)),
    ),
    (
        r#"{"n":{"ComparisonOperator":"GE","AttributeValueList":[{"N":"5"}]},"z":{"ComparisonOperator":"NOT_NULL"},"s":{"ComparisonOperator":"EQ","AttributeValueList":[{"S":"x"}]}}"#,
        true,
        Ok(Some(true)),
    ),
    (
        r#"{"none":{"ComparisonOperator":"NOT_NULL"},"s":{"ComparisonOperator":"EQ","AttributeValueList":[{"S":"x"}]},"z":{"ComparisonOperator":"NOT_NULL"}}"#,
        false,
        Ok(Some(false)),
    ),
    (
        r#"{"none":{"ComparisonOperator":"NOT_NULL"},"s":{"ComparisonOperator":"EQ","AttributeValueList":[{"S":"x"}]},"z":{"ComparisonOperator":"NOT_NULL"}}"#,
        true,
        Ok(Some(true)),
    ),
    (r#"{}"#, true, Ok(None)),
    (
        r#"{"n":{"ComparisonOperator":"GE","AttributeValueList":[{"N":"5"}]},"s":{"ComparisonOperator":"EQ"}}"#,
        true,
        BAD,
    ),
];

fn condition(
    alloc: Global,
    form: Form,
    entries: &str,
    any: bool,
) -> Result<Option<Cond>, LegacyFault> {
    let Ok(read) = Value::from_str(alloc, entries) else {
        return Err(LegacyFault::NoMemory);
    };
    match form {
        Form::Expected => expected_of(alloc, &read, any),
        Form::Filter => filter_of(alloc, &read, any),
    }
}

/// Whether a condition holds of the item, if that is wanted, or doesn't.
fn is_held(alloc: Global, condition: &Cond, want: bool) -> bool {
    match item(alloc, ITEM) {
        Some(item) => holds(condition, &item) == want,
        None => false,
    }
}

/// Whether entries come to what is wanted.
pub(crate) fn is_judged(alloc: Global, form: Form, entries: &str, any: bool, want: Judged) -> bool {
    match condition(alloc, form, entries, any) {
        Ok(Some(condition)) => match want {
            Ok(Some(want)) => is_held(alloc, &condition, want),
            _ => false,
        },
        Ok(None) => matches!(want, Ok(None)),
        Err(fault) => match want {
            Err(want) => fault == want,
            Ok(_) => false,
        },
    }
}

fn is_row(alloc: Global, form: Form, row: &Row) -> bool {
    is_judged(alloc, form, row.0, row.1, row.2)
}

/// Whether a row holds of entries of both forms.
fn is_row_of_both(alloc: Global, row: &Row) -> bool {
    is_row(alloc, Form::Filter, row) && is_row(alloc, Form::Expected, row)
}

#[test]
fn an_entry_of_expected_has_one_of_its_forms(rt: HostRuntime) {
    for row in &FORMS {
        assert!(rt; is_row(rt.alloc(), Form::Expected, row), "{}", row.0);
    }
}

#[test]
fn an_operator_has_its_number_of_values(rt: HostRuntime) {
    for row in &COUNTS {
        assert!(rt; is_row_of_both(rt.alloc(), row), "{}", row.0);
    }
}

#[test]
fn entries_are_joined_by_and_or_by_or(rt: HostRuntime) {
    for row in &JOINED {
        assert!(rt; is_row_of_both(rt.alloc(), row), "{}", row.0);
    }
}
