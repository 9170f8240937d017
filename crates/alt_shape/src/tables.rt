//! The rules of each operation's body and of the objects inside it, in the order in which they are
//! tested. docs/API.md says what each member means.
//!
//! Source: DynamoDB API Reference, the "Request Syntax" and "Request Parameters" of each action and
//! the pages of the data types. Where Alternator's ranges or its order are its own, docs/API.md says
//! so.

use crate::rule::{Kind, Rule};

macro_rules! required {
    ($name:literal, $kind:expr) => {
        Rule { name: $name, kind: $kind, must: true }
    };
}

macro_rules! optional {
    ($name:literal, $kind:expr) => {
        Rule { name: $name, kind: $kind, must: false }
    };
}

/// An optional whole number, from the least to the most.
macro_rules! whole {
    ($name:literal, $least:literal, $most:literal) => {
        optional!(
            $name,
            Kind::Whole {
                least: $least,
                most: $most
            }
        )
    };
}

/// CreateTable.
pub const CREATE_TABLE: [Rule; 6] = [
    required!("TableName", Kind::Text),
    required!("KeySchema", Kind::Array),
    required!("AttributeDefinitions", Kind::Array),
    optional!("LocalSecondaryIndexes", Kind::Array),
    optional!("GlobalSecondaryIndexes", Kind::Array),
    optional!("StreamSpecification", Kind::Object),
];

/// An element of a KeySchema, of the table or of an index.
pub const KEY_SCHEMA_ELEMENT: [Rule; 2] = [
    required!("AttributeName", Kind::Text),
    required!("KeyType", Kind::Word(&["HASH", "RANGE"])),
];

/// An element of AttributeDefinitions.
pub const ATTRIBUTE_DEFINITION: [Rule; 2] = [
    required!("AttributeName", Kind::Text),
    required!("AttributeType", Kind::Word(&["S", "N", "B"])),
];

/// An element of LocalSecondaryIndexes or of GlobalSecondaryIndexes.
pub const SECONDARY_INDEX: [Rule; 3] = [
    required!("IndexName", Kind::Text),
    required!("KeySchema", Kind::Array),
    required!("Projection", Kind::Object),
];

/// The Projection of an index. Each element of NonKeyAttributes is a text.
pub const PROJECTION: [Rule; 2] = [
    required!(
        "ProjectionType",
        Kind::Word(&["ALL", "KEYS_ONLY", "INCLUDE"])
    ),
    optional!("NonKeyAttributes", Kind::Array),
];

/// The StreamSpecification of a table.
pub const STREAM_SPECIFICATION: [Rule; 2] = [
    required!("StreamEnabled", Kind::Truth),
    optional!(
        "StreamViewType",
        Kind::Word(&["KEYS_ONLY", "NEW_IMAGE", "OLD_IMAGE", "NEW_AND_OLD_IMAGES"])
    ),
];

/// UpdateTable.
pub const UPDATE_TABLE: [Rule; 3] = [
    required!("TableName", Kind::Text),
    optional!("AttributeDefinitions", Kind::Array),
    optional!("GlobalSecondaryIndexUpdates", Kind::Array),
];

/// An element of GlobalSecondaryIndexUpdates.
pub const INDEX_UPDATE: [Rule; 3] = [
    optional!("Create", Kind::Object),
    optional!("Update", Kind::Object),
    optional!("Delete", Kind::Object),
];

/// The index that goes.
pub const INDEX_DELETED: [Rule; 1] = [required!("IndexName", Kind::Text)];

/// DescribeTable.
pub const DESCRIBE_TABLE: [Rule; 1] = [required!("TableName", Kind::Text)];

/// DeleteTable.
pub const DELETE_TABLE: [Rule; 1] = [required!("TableName", Kind::Text)];

/// ListTables.
pub const LIST_TABLES: [Rule; 2] = [
    optional!("ExclusiveStartTableName", Kind::Text),
    whole!("Limit", 1, 100),
];

/// PutItem.
pub const PUT_ITEM: [Rule; 9] = [
    required!("TableName", Kind::Text),
    required!("Item", Kind::Object),
    optional!("ConditionExpression", Kind::Text),
    optional!("ExpressionAttributeNames", Kind::Object),
    optional!("ExpressionAttributeValues", Kind::Object),
    optional!("ReturnValues", Kind::Word(&["NONE", "ALL_OLD"])),
    optional!(
        "ReturnValuesOnConditionCheckFailure",
        Kind::Word(&["NONE", "ALL_OLD"])
    ),
    optional!("Expected", Kind::Object),
    optional!("ConditionalOperator", Kind::Word(&["AND", "OR"])),
];

/// DeleteItem.
pub const DELETE_ITEM: [Rule; 9] = [
    required!("TableName", Kind::Text),
    required!("Key", Kind::Object),
    optional!("ConditionExpression", Kind::Text),
    optional!("ExpressionAttributeNames", Kind::Object),
    optional!("ExpressionAttributeValues", Kind::Object),
    optional!("ReturnValues", Kind::Word(&["NONE", "ALL_OLD"])),
    optional!(
        "ReturnValuesOnConditionCheckFailure",
        Kind::Word(&["NONE", "ALL_OLD"])
    ),
    optional!("Expected", Kind::Object),
    optional!("ConditionalOperator", Kind::Word(&["AND", "OR"])),
];

/// UpdateItem.
pub const UPDATE_ITEM: [Rule; 11] = [
    required!("TableName", Kind::Text),
    required!("Key", Kind::Object),
    optional!("UpdateExpression", Kind::Text),
    optional!("ConditionExpression", Kind::Text),
    optional!("ExpressionAttributeNames", Kind::Object),
    optional!("ExpressionAttributeValues", Kind::Object),
    optional!(
        "ReturnValues",
        Kind::Word(&["NONE", "ALL_OLD", "UPDATED_OLD", "ALL_NEW", "UPDATED_NEW"])
    ),
    optional!(
        "ReturnValuesOnConditionCheckFailure",
        Kind::Word(&["NONE", "ALL_OLD"])
    ),
    optional!("Expected", Kind::Object),
    optional!("AttributeUpdates", Kind::Object),
    optional!("ConditionalOperator", Kind::Word(&["AND", "OR"])),
];

/// GetItem.
pub const GET_ITEM: [Rule; 6] = [
    required!("TableName", Kind::Text),
    required!("Key", Kind::Object),
    optional!("ProjectionExpression", Kind::Text),
    optional!("ExpressionAttributeNames", Kind::Object),
    optional!("ConsistentRead", Kind::Truth),
    optional!("AttributesToGet", Kind::Array),
];

macro_rules! query {
    ($key_condition:expr) => {
        [
            required!("TableName", Kind::Text),
            optional!("IndexName", Kind::Text),
            $key_condition,
            optional!("FilterExpression", Kind::Text),
            optional!("ProjectionExpression", Kind::Text),
            optional!("ExpressionAttributeNames", Kind::Object),
            optional!("ExpressionAttributeValues", Kind::Object),
            whole!("Limit", 1, 2_147_483_647),
            optional!("ScanIndexForward", Kind::Truth),
            optional!("ExclusiveStartKey", Kind::Object),
            optional!("ConsistentRead", Kind::Truth),
            optional!(
                "Select",
                Kind::Word(&[
                    "ALL_ATTRIBUTES",
                    "ALL_PROJECTED_ATTRIBUTES",
                    "SPECIFIC_ATTRIBUTES",
                    "COUNT",
                ])
            ),
            optional!("KeyConditions", Kind::Object),
            optional!("QueryFilter", Kind::Object),
            optional!("ConditionalOperator", Kind::Word(&["AND", "OR"])),
            optional!("AttributesToGet", Kind::Array),
        ]
    };
}

/// Query.
pub const QUERY: [Rule; 16] = query!(required!("KeyConditionExpression", Kind::Text));

/// Query, where KeyConditions are there.
pub const QUERY_BY_ENTRIES: [Rule; 16] = query!(optional!("KeyConditionExpression", Kind::Text));

/// Scan.
pub const SCAN: [Rule; 15] = [
    required!("TableName", Kind::Text),
    optional!("IndexName", Kind::Text),
    optional!("FilterExpression", Kind::Text),
    optional!("ProjectionExpression", Kind::Text),
    optional!("ExpressionAttributeNames", Kind::Object),
    optional!("ExpressionAttributeValues", Kind::Object),
    whole!("Limit", 1, 2_147_483_647),
    optional!("ExclusiveStartKey", Kind::Object),
    optional!("ConsistentRead", Kind::Truth),
    optional!(
        "Select",
        Kind::Word(&[
            "ALL_ATTRIBUTES",
            "ALL_PROJECTED_ATTRIBUTES",
            "SPECIFIC_ATTRIBUTES",
            "COUNT",
        ])
    ),
    whole!("Segment", 0, 999_999),
    whole!("TotalSegments", 1, 1_000_000),
    optional!("ScanFilter", Kind::Object),
    optional!("ConditionalOperator", Kind::Word(&["AND", "OR"])),
    optional!("AttributesToGet", Kind::Array),
];

/// An entry of KeyConditions, QueryFilter and ScanFilter. AttributeValueList is an array of attribute values.
pub const CONDITION: [Rule; 2] = [
    required!("ComparisonOperator", Kind::Word(&OPERATORS)),
    optional!("AttributeValueList", Kind::Array),
];

/// An entry of Expected.
pub const EXPECTED: [Rule; 4] = [
    optional!("Value", Kind::Object),
    optional!("Exists", Kind::Truth),
    optional!("ComparisonOperator", Kind::Word(&OPERATORS)),
    optional!("AttributeValueList", Kind::Array),
];

/// An entry of AttributeUpdates.
pub const ATTRIBUTE_UPDATE: [Rule; 2] = [
    optional!("Action", Kind::Word(&["PUT", "ADD", "DELETE"])),
    optional!("Value", Kind::Object),
];

/// The words of ComparisonOperator.
const OPERATORS: [&str; 13] = [
    "EQ",
    "NE",
    "LT",
    "LE",
    "GT",
    "GE",
    "BETWEEN",
    "IN",
    "NOT_NULL",
    "NULL",
    "CONTAINS",
    "NOT_CONTAINS",
    "BEGINS_WITH",
];

/// BatchWriteItem. Each member of RequestItems is an array of write requests.
pub const BATCH_WRITE_ITEM: [Rule; 1] = [required!("RequestItems", Kind::Object)];

/// A write request of a BatchWriteItem.
pub const WRITE_REQUEST: [Rule; 2] = [
    optional!("PutRequest", Kind::Object),
    optional!("DeleteRequest", Kind::Object),
];

/// The PutRequest of a write request.
pub const PUT_REQUEST: [Rule; 1] = [required!("Item", Kind::Object)];

/// The DeleteRequest of a write request.
pub const DELETE_REQUEST: [Rule; 1] = [required!("Key", Kind::Object)];

/// BatchGetItem. Each member of RequestItems is an object of keys and attributes.
pub const BATCH_GET_ITEM: [Rule; 1] = [required!("RequestItems", Kind::Object)];

/// The keys and attributes of one table in a BatchGetItem. Each element of Keys is an object.
pub const KEYS_AND_ATTRIBUTES: [Rule; 5] = [
    required!("Keys", Kind::Array),
    optional!("ProjectionExpression", Kind::Text),
    optional!("ExpressionAttributeNames", Kind::Object),
    optional!("ConsistentRead", Kind::Truth),
    optional!("AttributesToGet", Kind::Array),
];

/// ListStreams.
pub const LIST_STREAMS: [Rule; 3] = [
    optional!("TableName", Kind::Text),
    optional!("ExclusiveStartStreamArn", Kind::Text),
    whole!("Limit", 1, 100),
];

/// DescribeStream.
pub const DESCRIBE_STREAM: [Rule; 3] = [
    required!("StreamArn", Kind::Text),
    optional!("ExclusiveStartShardId", Kind::Text),
    whole!("Limit", 1, 100),
];

/// GetShardIterator.
pub const GET_SHARD_ITERATOR: [Rule; 4] = [
    required!("StreamArn", Kind::Text),
    required!("ShardId", Kind::Text),
    required!(
        "ShardIteratorType",
        Kind::Word(&[
            "TRIM_HORIZON",
            "LATEST",
            "AT_SEQUENCE_NUMBER",
            "AFTER_SEQUENCE_NUMBER"
        ])
    ),
    optional!("SequenceNumber", Kind::Text),
];

/// GetRecords.
pub const GET_RECORDS: [Rule; 2] = [
    required!("ShardIterator", Kind::Text),
    whole!("Limit", 1, 1000),
];
