//! A store as the last build before the second form of segments left it, behind the first lines of the script: it is written and flushed, and
//! stops and failures leave what was answered.

use super::over::replayed;
use super::script::{BATCH, CREATE, PUT_1X, PUT_1Y, PUT_4, Script, begun};
use super::stops::stops;
use alt_gatelog::{Form, GateLog};
use alt_manifest::Manifest;
use std::alloc::Global;

/// Its two files behind the table, two puts over one another and a batch of two puts and a delete, at the moment 1,700,000,000.
const VERSIONS: &[u8] =
    b"ALTLOG01\x01\0\0\0\0\0\0\0 \0\0\0\x03\0\0\0\0\0\0\0\x01\0\0\0\0\0\0\0\x01\0\0\0\x02\0\0\0\0\0\0\0\0\0";

const LOG: &[u8] =
    b"ALTLOG01\x01\0\0\0\0\0\0\0\xef\0\0\0\0\0\0\0\x01\0\0\0\0\0\0\0\x02\0\0\0\0\0\0\0\0\0\0\0\x03Rng\x01\0\0\0\0\0\0\0\x01\0\0\0\0\0\0\0\x01t\x01\0\0\0\0\0\0\0\x87\0\0\0\0\0\0\0\x03Rng\0\0\0\0eS\xf1\0\0\0\0\0\0\0\0\x01\0\0\0\x01\x02\0\0\0\x03\0\0\0\0\0\0\0\x03\0\0\0\0\0\0\0\x01k\x01\0\0\0\0\0\0\0\x01r\x02\0\0\0\0\0\0\0\x01g\x01\0\0\0\0\0\0\0\x01k\x01\0\0\0\0\0\0\0\x01r\0\0\0\0\0\0\0\0\0\0\0\0\0\0\0\x01\0\0\0\0\0\0\0\x03Gix\0\0\0\x02\0\0\0\0\0\0\0\x01g\0\x02\0\0\0\0\0\0\0\0\0\0\0\0\x01\0\0\0\0\0\0\0\x01\0\0\0\0\0\0\0\x04next\x01\0\0\0\0\0\0\0\x04\0\0\0\x04\x01\0\0\0\0\0\0\x01R\0\0\0\0\0\0\0\x02\0\0\0\0\0\0\0\x03\0\0\0\x01\0\0\0\0\0\0\0\x0f\xb9\x8e\x93&\xc77\xb5Aa\0\0\x03\x82\x0b\0\x01\0\0\0\0\0\0\0\x04\0\0\0\0\0\0\0\0\x01\0\0\0\0\0\0\0\0\0\0\0\0\0\0\0\x01g\x01\0\0\0\0\0\0\0\x0a\x01\0\0\0\0\0\0\0\x01x\0\0\0\0\0\0\0\x01k\x01\0\0\0\0\0\0\0\x0a\x01\0\0\0\0\0\0\0\x01a\0\0\0\0\0\0\0\x01r\x01\0\0\0\0\0\0\0\x05\x02\x03\x82\x0b\0\0\0\0\x02\0\0\0\0\0\0\0\x12\xeeBG\x18\xd3\xd6i\x9ex\0\0a\0\0\x03\x82\x0b\0\x01\0\0\0\0\0\0\0\x01\0\0\0\0\0\0\0\0\x01\0\0\0\0\0\0\0\0\0\0\0\x03\0\0\0\0\0\0\0\x08\0\0\0\0\0\0\0\x02\x01\0\0\0\0\0\0\0\x02\0\0\0\0\0\0\0\x01m\x01\0\0\0\0\0\0\0\x08\0\0\0\0eS\xf1\0\0\0\0\0\0\0\0\x01n\x01\0\0\0\0\0\0\0=\x0a\0\0\0\0\0\0\0\x03\0\0\0\0\0\0\0\x01g\x01\0\0\0\0\0\0\0\x01x\0\0\0\0\0\0\0\x01k\x01\0\0\0\0\0\0\0\x01a\0\0\0\0\0\0\0\x01r\x02\x03\x82\x0b\0\x01\0\0\0\0\0\0\x01\x84\0\0\0\0\0\0\0\x03\0\0\0\0\0\0\0\x04\0\0\0\x01\0\0\0\0\0\0\0\x0f\xb9\x8e\x93&\xc77\xb5Aa\0\0\x03\x82\x0b\0\0\0\0\0\0\0\0\0\x01\0\0\0\0\0\0\0\x01g\x01\0\0\0\0\0\0\0\x0a\x01\0\0\0\0\0\0\0\x01y\0\0\0\x02\0\0\0\0\0\0\0\x12\xeeBG\x18\xd3\xd6i\x9ex\0\0a\0\0\x03\x82\x0b\0\x01\0\0\0\0\0\0\0\0\0\0\0\x02\0\0\0\0\0\0\0\x12\x8d\xa8\x87\xab%\xd3\xda\xe2y\0\0a\0\0\x03\x82\x0b\0\x01\0\0\0\0\0\0\0\x01\0\0\0\0\0\0\0\0\x01\0\0\0\0\0\0\0\0\0\0\0\x03\0\0\0\0\0\0\0\x08\0\0\0\0\0\0\0\x03\x01\0\0\0\0\0\0\0\x03\0\0\0\0\0\0\0\x01m\x01\0\0\0\0\0\0\0\x08\0\0\0\0eS\xf1\0\0\0\0\0\0\0\0\x01n\x01\0\0\0\0\0\0\0=\x0a\0\0\0\0\0\0\0\x03\0\0\0\0\0\0\0\x01g\x01\0\0\0\0\0\0\0\x01y\0\0\0\0\0\0\0\x01k\x01\0\0\0\0\0\0\0\x01a\0\0\0\0\0\0\0\x01r\x02\x03\x82\x0b\0\0\0\0\0\0\0\0\x01o\x01\0\0\0\0\0\0\0=\x0a\0\0\0\0\0\0\0\x03\0\0\0\0\0\0\0\x01g\x01\0\0\0\0\0\0\0\x01x\0\0\0\0\0\0\0\x01k\x01\0\0\0\0\0\0\0\x01a\0\0\0\0\0\0\0\x01r\x02\x03\x82\x0b\0\x01\0\0\0\0\0\0\x01R\0\0\0\0\0\0\0\x04\0\0\0\0\0\0\0\x03\0\0\0\x01\0\0\0\0\0\0\0\x0f\xb9\x8e\x93&\xc77\xb5Aa\0\0\x03\x82\x15\0\x01\0\0\0\0\0\0\0\x04\0\0\0\0\0\0\0\0\x01\0\0\0\0\0\0\0\0\0\0\0\0\0\0\0\x01g\x01\0\0\0\0\0\0\0\x0a\x01\0\0\0\0\0\0\0\x01x\0\0\0\0\0\0\0\x01k\x01\0\0\0\0\0\0\0\x0a\x01\0\0\0\0\0\0\0\x01a\0\0\0\0\0\0\0\x01r\x01\0\0\0\0\0\0\0\x05\x02\x03\x82\x15\0\0\0\0\x02\0\0\0\0\0\0\0\x12\xeeBG\x18\xd3\xd6i\x9ex\0\0a\0\0\x03\x82\x15\0\x01\0\0\0\0\0\0\0\x01\0\0\0\0\0\0\0\0\x01\0\0\0\0\0\0\0\0\0\0\0\x03\0\0\0\0\0\0\0\x08\0\0\0\0\0\0\0\x04\x01\0\0\0\0\0\0\0\x02\0\0\0\0\0\0\0\x01m\x01\0\0\0\0\0\0\0\x08\0\0\0\0eS\xf1\0\0\0\0\0\0\0\0\x01n\x01\0\0\0\0\0\0\0=\x0a\0\0\0\0\0\0\0\x03\0\0\0\0\0\0\0\x01g\x01\0\0\0\0\0\0\0\x01x\0\0\0\0\0\0\0\x01k\x01\0\0\0\0\0\0\0\x01a\0\0\0\0\0\0\0\x01r\x02\x03\x82\x15\0\x01\0\0\0\0\0\0\x01R\0\0\0\0\0\0\0\x05\0\0\0\0\0\0\0\x03\0\0\0\x01\0\0\0\0\0\0\0\x0f\xb9\x8e\x93&\xc77\xb5Aa\0\0\x03\x82\x1f\0\x01\0\0\0\0\0\0\0\x04\0\0\0\0\0\0\0\0\x01\0\0\0\0\0\0\0\0\0\0\0\0\0\0\0\x01g\x01\0\0\0\0\0\0\0\x0a\x01\0\0\0\0\0\0\0\x01x\0\0\0\0\0\0\0\x01k\x01\0\0\0\0\0\0\0\x0a\x01\0\0\0\0\0\0\0\x01a\0\0\0\0\0\0\0\x01r\x01\0\0\0\0\0\0\0\x05\x02\x03\x82\x1f\0\0\0\0\x02\0\0\0\0\0\0\0\x12\xeeBG\x18\xd3\xd6i\x9ex\0\0a\0\0\x03\x82\x1f\0\x01\0\0\0\0\0\0\0\x01\0\0\0\0\0\0\0\0\x01\0\0\0\0\0\0\0\0\0\0\0\x03\0\0\0\0\0\0\0\x08\0\0\0\0\0\0\0\x05\x01\0\0\0\0\0\0\0\x02\0\0\0\0\0\0\0\x01m\x01\0\0\0\0\0\0\0\x08\0\0\0\0eS\xf1\0\0\0\0\0\0\0\0\x01n\x01\0\0\0\0\0\0\0=\x0a\0\0\0\0\0\0\0\x03\0\0\0\0\0\0\0\x01g\x01\0\0\0\0\0\0\0\x01x\0\0\0\0\0\0\0\x01k\x01\0\0\0\0\0\0\0\x01a\0\0\0\0\0\0\0\x01r\x02\x03\x82\x1f\0\x01\0\0\0\0\0\0\0\xe1\0\0\0\0\0\0\0\x06\0\0\0\0\0\0\0\x03\0\0\0\x01\0\0\0\0\0\0\0\x0f\xb9\x8e\x93&\xc77\xb5Aa\0\0\x03\x82\x0b\0\x01\0\0\0\0\0\0\0\0\0\0\0\x02\0\0\0\0\0\0\0\x12\x8d\xa8\x87\xab%\xd3\xda\xe2y\0\0a\0\0\x03\x82\x0b\0\x01\0\0\0\0\0\0\0\0\0\0\0\x03\0\0\0\0\0\0\0\x08\0\0\0\0\0\0\0\x06\x01\0\0\0\0\0\0\0\x02\0\0\0\0\0\0\0\x01m\x01\0\0\0\0\0\0\0\x08\0\0\0\0eS\xf1\0\0\0\0\0\0\0\0\x01o\x01\0\0\0\0\0\0\0=\x0a\0\0\0\0\0\0\0\x03\0\0\0\0\0\0\0\x01g\x01\0\0\0\0\0\0\0\x01y\0\0\0\0\0\0\0\x01k\x01\0\0\0\0\0\0\0\x01a\0\0\0\0\0\0\0\x01r\x02\x03\x82\x0b\0\0";

/// A batch that puts over an item, puts a new one, deletes one, and deletes one that isn't there.
const AGAIN: &str =
    r#"BatchWriteItem {"RequestItems":{"Rng":[{"PutRequest":{"Item":{"k":{"S":"a"},"r":{"N":"2"},"g":{"S":"y"}}}},{"PutRequest":{"Item":{"k":{"S":"a"},"r":{"N":"5"},"g":{"S":"x"}}}},{"DeleteRequest":{"Key":{"k":{"S":"a"},"r":{"N":"3"}}}},{"DeleteRequest":{"Key":{"k":{"S":"a"},"r":{"N":"1"}}}}]}}"#;

/// What is asked of it.
static OVER: Script<'static> = Script {
    kept: &[(1, VERSIONS), (2, LOG)],
    before: &[CREATE, PUT_1X, PUT_1Y, BATCH],
    lines: &["@step", AGAIN, "@flush", "@reopen", PUT_4],
    writes: &[AGAIN, PUT_4],
    behind: &[0, 0, 1, 1, 1, 2],
};

#[test]
fn a_stop_or_a_failure_over_a_store_of_the_first_form_leaves_what_was_answered(rt: HostRuntime) {
    let found = stops(rt.alloc(), &OVER, 40);
    assert!(rt; found == Some(None), "{found:?}");
}

// Whether the segments that the last version names behind these lines have these forms.
fn have_forms(alloc: Global, lines: &[&str], forms: &[Form]) -> Option<bool> {
    let mut shell = replayed(alloc, begun(alloc, &OVER)?, lines)?;
    let manifest = Manifest::recover(alloc, &mut shell, 1).ok()?;
    let mut found = Vec::new(alloc);
    for file in manifest.current().segments.as_slice() {
        let log = GateLog::recover(alloc, &mut shell, *file).ok()?;
        found.push(log.form()).ok()?;
    }
    Some(found.as_slice() == forms)
}

const GET: &str = r#"GetItem {"TableName":"Rng","Key":{"k":{"S":"a"},"r":{"N":"1"}}}"#;

const DELETE_NONE: &str =
    r#"BatchWriteItem {"RequestItems":{"Rng":[{"DeleteRequest":{"Key":{"k":{"S":"a"},"r":{"N":"1"}}}}]}}"#;

/// Lines, and the forms of the segments behind them: the first write makes one of the second form, what writes nothing makes none, and a
/// flush, also before the first write, leaves one of the second form alone.
static FORMS: [(&[&str], &[Form]); 7] = [
    (&[], &[Form::One]),
    (&[GET, "@step", DELETE_NONE, "@reopen"], &[Form::One]),
    (&[AGAIN], &[Form::One, Form::Two]),
    (&[AGAIN, "@reopen", PUT_4, PUT_1X], &[Form::One, Form::Two]),
    (&[AGAIN, "@flush", "@reopen"], &[Form::Two]),
    (&["@flush"], &[Form::Two]),
    (&["@flush", AGAIN], &[Form::Two]),
];

#[test]
fn the_first_write_makes_a_segment_of_the_second_form(rt: HostRuntime) {
    for (lines, forms) in &FORMS {
        assert!(rt;
            have_forms(rt.alloc(), lines, forms) == Some(true),
            "{} lines",
            lines.len()
        );
    }
}
