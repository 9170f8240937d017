//! Batches of writes: three puts, such as change something and such as don't, over two tables; and such as are refused.

use super::asking::Request;

pub(super) static BATCHES: [Request; 9] = [
    (
        "CreateTable",
        r#"{"TableName":"Tab","KeySchema":[{"AttributeName":"k","KeyType":"HASH"}],"AttributeDefinitions":[{"AttributeName":"k","AttributeType":"S"}]}"#,
    ),
    (
        "CreateTable",
        r#"{"TableName":"Two","KeySchema":[{"AttributeName":"k","KeyType":"HASH"},{"AttributeName":"r","KeyType":"RANGE"}],"AttributeDefinitions":[{"AttributeName":"k","AttributeType":"S"},{"AttributeName":"r","AttributeType":"N"}]}"#,
    ),
    (
        "BatchWriteItem",
        r#"{"RequestItems":{"Two":[{"PutRequest":{"Item":{"k":{"S":"a"},"r":{"N":"-1"}}}}],"Tab":[{"PutRequest":{"Item":{"k":{"S":"b"},"n":{"N":"1"}}}},{"PutRequest":{"Item":{"k":{"S":"a"},"n":{"N":"2"}}}}]}}"#,
    ),
    (
        "BatchWriteItem",
        r#"{"RequestItems":{"Tab":[{"PutRequest":{"Item":{"k":{"S":"a"},"n":{"N":"3"}}}},{"DeleteRequest":{"Key":{"k":{"S":"c"}}}},{"DeleteRequest":{"Key":{"k":{"S":"b"}}}}],"Two":[{"PutRequest":{"Item":{"k":{"S":"a"},"r":{"N":"-1.0"}}}}]}}"#,
    ),
    (
        "BatchWriteItem",
        r#"{"RequestItems":{"Tab":[{"DeleteRequest":{"Key":{"k":{"S":"a"}}}},{"PutRequest":{"Item":{"k":{"S":"b"}}}},{"PutRequest":{"Item":{"k":{"S":"a"},"n":{"N":"4"}}}}]}}"#,
    ),
    (
        "BatchWriteItem",
        r#"{"RequestItems":{"Tab":[{"PutRequest":{"Item":{"k":{"S":"b"}}}}],"Tob":[{"PutRequest":{"Item":{"k":{"S":"b"}}}}]}}"#,
    ),
    (
        "BatchWriteItem",
        r#"{"RequestItems":{"Tab":[{"PutRequest":{"Item":{"k":{"S":"a"},"n":{"N":"3.0"}}}},{"DeleteRequest":{"Key":{"k":{"S":"b"}}}}]}}"#,
    ),
    (
        "BatchGetItem",
        r#"{"RequestItems":{"Tab":{"Keys":[{"k":{"S":"a"}},{"k":{"S":"b"}}]},"Two":{"Keys":[{"k":{"S":"a"},"r":{"N":"-1"}}]}}}"#,
    ),
    (
        "BatchWriteItem",
        r#"{"RequestItems":{"Two":[{"DeleteRequest":{"Key":{"k":{"S":"a"},"r":{"N":"-1"}}}}],"Tab":[{"DeleteRequest":{"Key":{"k":{"S":"a"}}}},{"PutRequest":{"Item":{"k":{"S":"b"}}}}]}}"#,
    ),
];

/// Three of them by their numbers, as the single writes that they make, in order: a stop leaves all of these or none.
pub(super) static MEMBERS: [(usize, &[Request]); 3] = [
    (
        2,
        &[
            (
                "PutItem",
                r#"{"TableName":"Tab","Item":{"k":{"S":"b"},"n":{"N":"1"}}}"#,
            ),
            (
                "PutItem",
                r#"{"TableName":"Tab","Item":{"k":{"S":"a"},"n":{"N":"2"}}}"#,
            ),
            (
                "PutItem",
                r#"{"TableName":"Two","Item":{"k":{"S":"a"},"r":{"N":"-1"}}}"#,
            ),
        ],
    ),
    (
        3,
        &[
            (
                "PutItem",
                r#"{"TableName":"Tab","Item":{"k":{"S":"a"},"n":{"N":"3"}}}"#,
            ),
            ("DeleteItem", r#"{"TableName":"Tab","Key":{"k":{"S":"b"}}}"#),
        ],
    ),
    (
        8,
        &[
            ("DeleteItem", r#"{"TableName":"Tab","Key":{"k":{"S":"a"}}}"#),
            ("PutItem", r#"{"TableName":"Tab","Item":{"k":{"S":"b"}}}"#),
            (
                "DeleteItem",
                r#"{"TableName":"Two","Key":{"k":{"S":"a"},"r":{"N":"-1"}}}"#,
            ),
        ],
    ),
];
