//! Which members an operation heeds: the others change nothing of what it does.

ghost use Rattle.std.specs.Prelude.{◌≡◌, map};
ghost use Rattle.alt_machine.specs.declared.Operation.{Operation};
ghost use Rattle.alt_members.specs.Heeded.{heeded, Heeds};

use alt_machine::Operation;

/// Two bodies with the same members at the names that an operation heeds come to the same, in every state. Whoever asks for the names needn't
/// have it in hand, so it stands by itself.
#[tactic(auto, using(crate::proofs::Laws::heeds))]
pub fn members_laws()
    ensures heeds { (operation : Operation) → Heeds operation }
{}

/// The names of the members that an operation heeds (docs/API.md).
pub fn heeded(operation: Operation) -> &'static [&'static str]
    ensures names { map (λ w. w.now) result.now ≡ heeded operation }
{
    match operation {
        Operation::CreateTable => &CREATE_TABLE,
        Operation::DescribeTable => &TABLE,
        Operation::ListTables => &LIST_TABLES,
        Operation::DeleteTable => &TABLE,
        Operation::PutItem => &PUT_ITEM,
        Operation::GetItem => &GET_ITEM,
        Operation::DeleteItem => &DELETE_ITEM,
        Operation::UpdateItem => &UPDATE_ITEM,
        Operation::Query => &QUERY,
        Operation::Scan => &SCAN,
        Operation::BatchWriteItem => &BATCH,
        Operation::BatchGetItem => &BATCH,
        Operation::ListStreams => &LIST_STREAMS,
        Operation::DescribeStream => &DESCRIBE_STREAM,
        Operation::GetShardIterator => &GET_SHARD_ITERATOR,
        Operation::GetRecords => &GET_RECORDS,
        Operation::UpdateTimeToLive => &UPDATE_TIME_TO_LIVE,
        Operation::DescribeTimeToLive => &TABLE,
        Operation::ExpireItems => &NONE,
        Operation::UpdateTable => &UPDATE_TABLE,
    }
}

static CREATE_TABLE: [&str; 6] = [
    "TableName",
    "KeySchema",
    "AttributeDefinitions",
    "LocalSecondaryIndexes",
    "GlobalSecondaryIndexes",
    "StreamSpecification",
];

static UPDATE_TABLE: [&str; 3] = [
    "TableName",
    "AttributeDefinitions",
    "GlobalSecondaryIndexUpdates",
];

/// Of an operation that takes the name of a table alone.
static TABLE: [&str; 1] = ["TableName"];

static LIST_TABLES: [&str; 2] = ["ExclusiveStartTableName", "Limit"];

static PUT_ITEM: [&str; 9] = [
    "TableName",
    "Item",
    "ConditionExpression",
    "ExpressionAttributeNames",
    "ExpressionAttributeValues",
    "ReturnValues",
    "ReturnValuesOnConditionCheckFailure",
    "Expected",
    "ConditionalOperator",
];

static GET_ITEM: [&str; 6] = [
    "TableName",
    "Key",
    "ProjectionExpression",
    "ExpressionAttributeNames",
    "ConsistentRead",
    "AttributesToGet",
];

static DELETE_ITEM: [&str; 9] = [
    "TableName",
    "Key",
    "ConditionExpression",
    "ExpressionAttributeNames",
    "ExpressionAttributeValues",
    "ReturnValues",
    "ReturnValuesOnConditionCheckFailure",
    "Expected",
    "ConditionalOperator",
];

static UPDATE_ITEM: [&str; 11] = [
    "TableName",
    "Key",
    "UpdateExpression",
    "ConditionExpression",
    "ExpressionAttributeNames",
    "ExpressionAttributeValues",
    "ReturnValues",
    "ReturnValuesOnConditionCheckFailure",
    "AttributeUpdates",
    "Expected",
    "ConditionalOperator",
];

static QUERY: [&str; 16] = [
    "TableName",
    "IndexName",
    "KeyConditionExpression",
    "FilterExpression",
    "ProjectionExpression",
    "ExpressionAttributeNames",
    "ExpressionAttributeValues",
    "Limit",
    "ScanIndexForward",
    "ExclusiveStartKey",
    "ConsistentRead",
    "Select",
    "KeyConditions",
    "QueryFilter",
    "ConditionalOperator",
    "AttributesToGet",
];

static SCAN: [&str; 15] = [
    "TableName",
    "IndexName",
    "FilterExpression",
    "ProjectionExpression",
    "ExpressionAttributeNames",
    "ExpressionAttributeValues",
    "Limit",
    "ExclusiveStartKey",
    "ConsistentRead",
    "Select",
    "Segment",
    "TotalSegments",
    "ScanFilter",
    "ConditionalOperator",
    "AttributesToGet",
];

static BATCH: [&str; 1] = ["RequestItems"];

static LIST_STREAMS: [&str; 3] = ["TableName", "ExclusiveStartStreamArn", "Limit"];

static DESCRIBE_STREAM: [&str; 3] = ["StreamArn", "ExclusiveStartShardId", "Limit"];

static GET_SHARD_ITERATOR: [&str; 4] = [
    "StreamArn",
    "ShardId",
    "ShardIteratorType",
    "SequenceNumber",
];

static GET_RECORDS: [&str; 2] = ["ShardIterator", "Limit"];

/// Of an operation whose body says nothing.
static NONE: [&str; 0] = [];

static UPDATE_TIME_TO_LIVE: [&str; 2] = ["TableName", "TimeToLiveSpecification"];
