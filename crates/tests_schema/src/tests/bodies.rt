//! Bodies of the operations, row by row: whether each keeps its shape, and else how it first breaks
//! it.

use alt_shape::{Broken, bodies};
use serde_json::{Map, Value};
use std::alloc::Global;
use std::test::Fail;

const KIND: Option<Broken> = Some(Broken::WrongKind);

const MISSING: Option<Broken> = Some(Broken::Missing);

const RANGE: Option<Broken> = Some(Broken::OutOfRange);

/// The operations.
#[derive(Clone, Copy)]
enum Operation {
    CreateTable,
    UpdateTable,
    DescribeTable,
    DeleteTable,
    ListTables,
    PutItem,
    DeleteItem,
    UpdateItem,
    GetItem,
    Query,
    Scan,
    BatchWriteItem,
    BatchGetItem,
    ListStreams,
    DescribeStream,
    GetShardIterator,
    GetRecords,
}

/// A body of an operation, and how it breaks the operation's shape, if it does.
struct Row {
    operation: Operation,
    body: &'static str,
    broken: Option<Broken>,
}

macro_rules! row {
    ($operation:ident, $body:literal, $broken:ident) => {
        Row { operation: Operation::$operation, body: $body, broken: $broken }
    };
}

static ROWS: [Row; 87] = [
    row!(
        CreateTable,
        r#"{"TableName":"Tab","KeySchema":[{"AttributeName":"k","KeyType":"HASH"}],"AttributeDefinitions":[{"AttributeName":"k","AttributeType":"S"}],"BillingMode":"PAY_PER_REQUEST"}"#,
        None
    ),
    row!(
        CreateTable,
        r#"{"TableName":"Tab","KeySchema":[{"AttributeName":"k","KeyType":"HASH"}],"AttributeDefinitions":[{"AttributeName":"k","AttributeType":"S"}],"LocalSecondaryIndexes":[{"IndexName":"i","KeySchema":[{"AttributeName":"k","KeyType":"HASH"}],"Projection":{"ProjectionType":"INCLUDE","NonKeyAttributes":["a"]}}],"GlobalSecondaryIndexes":[{"IndexName":"i","KeySchema":[{"AttributeName":"g","KeyType":"HASH"},{"AttributeName":"k","KeyType":"RANGE"}],"Projection":{"ProjectionType":"KEYS_ONLY"}}],"StreamSpecification":{"StreamEnabled":true,"StreamViewType":"NEW_AND_OLD_IMAGES"}}"#,
        None
    ),
    row!(CreateTable, r#"{}"#, MISSING),
    row!(CreateTable, r#"{"TableName":null,"KeySchema":5}"#, MISSING),
    row!(
        CreateTable,
        r#"{"TableName":"Tab","KeySchema":5,"AttributeDefinitions":[{"AttributeName":"k","AttributeType":"S"}]}"#,
        KIND
    ),
    row!(
        CreateTable,
        r#"{"TableName":"Tab","KeySchema":["k"]}"#,
        MISSING
    ),
    row!(
        CreateTable,
        r#"{"TableName":"Tab","KeySchema":["k"],"AttributeDefinitions":[{"AttributeName":"k","AttributeType":"S"}]}"#,
        KIND
    ),
    row!(
        CreateTable,
        r#"{"TableName":"Tab","KeySchema":[null],"AttributeDefinitions":[{"AttributeName":"k","AttributeType":"S"}]}"#,
        KIND
    ),
    row!(
        CreateTable,
        r#"{"TableName":"Tab","KeySchema":[{"AttributeName":"k","KeyType":"hash"}],"AttributeDefinitions":[{"AttributeName":"k","AttributeType":"S"}]}"#,
        RANGE
    ),
    row!(
        CreateTable,
        r#"{"TableName":"Tab","KeySchema":[{"AttributeName":"k"}],"AttributeDefinitions":[5]}"#,
        MISSING
    ),
    row!(
        CreateTable,
        r#"{"TableName":"Tab","KeySchema":[{"AttributeName":"k"},5],"AttributeDefinitions":[{"AttributeName":"k","AttributeType":"S"}]}"#,
        MISSING
    ),
    row!(
        CreateTable,
        r#"{"TableName":"Tab","KeySchema":[5,{"AttributeName":"k"}],"AttributeDefinitions":[{"AttributeName":"k","AttributeType":"S"}]}"#,
        KIND
    ),
    row!(
        CreateTable,
        r#"{"TableName":"Tab","KeySchema":[{"AttributeName":"k","KeyType":"HASH"}],"AttributeDefinitions":[{"AttributeName":"k","AttributeType":"BOOL"}]}"#,
        RANGE
    ),
    row!(
        CreateTable,
        r#"{"TableName":"Tab","KeySchema":[{"AttributeName":"k","KeyType":"HASH"}],"AttributeDefinitions":[{"AttributeName":"k","AttributeType":"S"}],"LocalSecondaryIndexes":[{"IndexName":"i","KeySchema":[],"Projection":{}}]}"#,
        MISSING
    ),
    row!(
        CreateTable,
        r#"{"TableName":"Tab","KeySchema":[{"AttributeName":"k","KeyType":"HASH"}],"AttributeDefinitions":[{"AttributeName":"k","AttributeType":"S"}],"LocalSecondaryIndexes":[{"IndexName":"i","KeySchema":[null],"Projection":{}}]}"#,
        KIND
    ),
    row!(
        CreateTable,
        r#"{"TableName":"Tab","KeySchema":[{"AttributeName":"k","KeyType":"HASH"}],"AttributeDefinitions":[{"AttributeName":"k","AttributeType":"S"}],"GlobalSecondaryIndexes":[{"IndexName":"i","KeySchema":[],"Projection":{"ProjectionType":"ALL","NonKeyAttributes":[1]}},{}]}"#,
        KIND
    ),
    row!(
        CreateTable,
        r#"{"TableName":"Tab","KeySchema":[{"AttributeName":"k","KeyType":"HASH"}],"AttributeDefinitions":[{"AttributeName":"k","AttributeType":"S"}],"GlobalSecondaryIndexes":[{},{"IndexName":"i","KeySchema":[],"Projection":{"ProjectionType":"ALL","NonKeyAttributes":[1]}}]}"#,
        MISSING
    ),
    row!(
        CreateTable,
        r#"{"TableName":"Tab","KeySchema":[{"AttributeName":"k","KeyType":"HASH"}],"AttributeDefinitions":[{"AttributeName":"k","AttributeType":"S"}],"GlobalSecondaryIndexes":[5],"LocalSecondaryIndexes":[{}]}"#,
        MISSING
    ),
    row!(
        CreateTable,
        r#"{"TableName":"Tab","KeySchema":[{"AttributeName":"k","KeyType":"HASH"}],"AttributeDefinitions":[{"AttributeName":"k","AttributeType":"S"}],"StreamSpecification":{}}"#,
        MISSING
    ),
    row!(
        CreateTable,
        r#"{"TableName":"Tab","KeySchema":[{"AttributeName":"k","KeyType":"HASH"}],"AttributeDefinitions":[{"AttributeName":"k","AttributeType":"S"}],"StreamSpecification":{"StreamEnabled":"true"}}"#,
        KIND
    ),
    row!(
        CreateTable,
        r#"{"TableName":"Tab","KeySchema":[{"AttributeName":"k","KeyType":"HASH"}],"AttributeDefinitions":[{"AttributeName":"k","AttributeType":"S"}],"StreamSpecification":{"StreamEnabled":true,"StreamViewType":"ALL"}}"#,
        RANGE
    ),
    row!(
        CreateTable,
        r#"{"TableName":"Tab","KeySchema":[{"AttributeName":"k","KeyType":"HASH"}],"AttributeDefinitions":[{"AttributeName":"k","AttributeType":"S"}],"StreamSpecification":null}"#,
        None
    ),
    row!(
        UpdateTable,
        r#"{"TableName":"Tab","AttributeDefinitions":[{"AttributeName":"g","AttributeType":"S"}],"GlobalSecondaryIndexUpdates":[{"Create":{"IndexName":"i","KeySchema":[{"AttributeName":"g","KeyType":"HASH"}],"Projection":{"ProjectionType":"ALL"}}},{"Update":{"IndexName":"j"}},{"Delete":{"IndexName":"k"}},{}]}"#,
        None
    ),
    row!(UpdateTable, r#"{"TableName":"Tab"}"#, None),
    row!(UpdateTable, r#"{"GlobalSecondaryIndexUpdates":5}"#, MISSING),
    row!(
        UpdateTable,
        r#"{"TableName":"Tab","AttributeDefinitions":[{"AttributeName":"g"}],"GlobalSecondaryIndexUpdates":[5]}"#,
        MISSING
    ),
    row!(
        UpdateTable,
        r#"{"TableName":"Tab","GlobalSecondaryIndexUpdates":[5]}"#,
        KIND
    ),
    row!(
        UpdateTable,
        r#"{"TableName":"Tab","GlobalSecondaryIndexUpdates":[{"Create":{"IndexName":"i","KeySchema":[{"AttributeName":"g","KeyType":"HASH"}]}}]}"#,
        MISSING
    ),
    row!(
        UpdateTable,
        r#"{"TableName":"Tab","GlobalSecondaryIndexUpdates":[{"Update":5}]}"#,
        KIND
    ),
    row!(
        UpdateTable,
        r#"{"TableName":"Tab","GlobalSecondaryIndexUpdates":[{"Delete":{}}]}"#,
        MISSING
    ),
    row!(DescribeTable, r#"{"TableName":"Tab"}"#, None),
    row!(DescribeTable, r#"{"TableName":7}"#, KIND),
    row!(DescribeTable, r#"{}"#, MISSING),
    row!(DeleteTable, r#"{"TableName":"Tab"}"#, None),
    row!(DeleteTable, r#"{"TableName":7}"#, KIND),
    row!(DeleteTable, r#"{}"#, MISSING),
    row!(ListTables, r#"{}"#, None),
    row!(ListTables, r#"{"Limit":1}"#, None),
    row!(ListTables, r#"{"Limit":100}"#, None),
    row!(ListTables, r#"{"Limit":0}"#, RANGE),
    row!(ListTables, r#"{"Limit":101}"#, RANGE),
    row!(ListTables, r#"{"Limit":-1}"#, RANGE),
    row!(ListTables, r#"{"Limit":"2"}"#, KIND),
    row!(ListTables, r#"{"Limit":1.0}"#, KIND),
    row!(ListTables, r#"{"Limit":1e0}"#, KIND),
    row!(ListTables, r#"{"Limit":-0}"#, KIND),
    row!(ListTables, r#"{"Limit":18446744073709551615}"#, RANGE),
    row!(ListTables, r#"{"Limit":18446744073709551616}"#, KIND),
    row!(ListTables, r#"{"Limit":-9223372036854775808}"#, RANGE),
    row!(ListTables, r#"{"Limit":-9223372036854775809}"#, KIND),
    row!(ListTables, r#"{"Limit":null,"Other":5}"#, None),
    row!(
        ListTables,
        r#"{"Limit":0,"ExclusiveStartTableName":5}"#,
        KIND
    ),
    row!(
        PutItem,
        r#"{"TableName":"Tab","Item":{"k":{"S":"a"}},"ReturnValues":"ALL_OLD"}"#,
        None
    ),
    row!(
        PutItem,
        r#"{"TableName":"Tab","Item":{},"ReturnValues":"ALL_NEW"}"#,
        RANGE
    ),
    row!(PutItem, r#"{"TableName":"Tab","Key":{}}"#, MISSING),
    row!(
        DeleteItem,
        r#"{"TableName":"Tab","Key":{},"ReturnValuesOnConditionCheckFailure":"NONE"}"#,
        None
    ),
    row!(
        DeleteItem,
        r#"{"TableName":"Tab","Key":{},"ReturnValuesOnConditionCheckFailure":"NEW"}"#,
        RANGE
    ),
    row!(
        UpdateItem,
        r#"{"TableName":"Tab","Key":{},"ReturnValues":"UPDATED_NEW"}"#,
        None
    ),
    row!(
        UpdateItem,
        r#"{"TableName":"Tab","Key":{},"ReturnValues":"NEW","UpdateExpression":5}"#,
        KIND
    ),
    row!(
        GetItem,
        r#"{"TableName":"Tab","Key":{"k":{"S":"a"}},"ConsistentRead":true}"#,
        None
    ),
    row!(
        GetItem,
        r#"{"TableName":"Tab","Key":[],"ConsistentRead":1}"#,
        KIND
    ),
    row!(
        Query,
        r#"{"TableName":"Tab","KeyConditionExpression":"k = :k","Limit":2147483647,"Select":"COUNT"}"#,
        None
    ),
    row!(
        Query,
        r#"{"TableName":"Tab","KeyConditionExpression":"k = :k","Limit":2147483648}"#,
        RANGE
    ),
    row!(Query, r#"{"TableName":"Tab","Limit":0}"#, MISSING),
    row!(
        Scan,
        r#"{"TableName":"Tab","Segment":0,"TotalSegments":1}"#,
        None
    ),
    row!(
        Scan,
        r#"{"TableName":"Tab","Segment":999999,"TotalSegments":1000000}"#,
        None
    ),
    row!(Scan, r#"{"TableName":"Tab","Segment":1000000}"#, RANGE),
    row!(Scan, r#"{"TableName":"Tab","TotalSegments":0}"#, RANGE),
    row!(
        Scan,
        r#"{"TableName":"Tab","TotalSegments":1000001}"#,
        RANGE
    ),
    row!(
        BatchWriteItem,
        r#"{"RequestItems":{"Tab":[{"PutRequest":{"Item":{}}},{"DeleteRequest":{"Key":{}}},{}]}}"#,
        None
    ),
    row!(BatchWriteItem, r#"{"RequestItems":{"Tab":null}}"#, KIND),
    row!(
        BatchWriteItem,
        r#"{"RequestItems":{"Tab":[{"PutRequest":{"Key":{}}}]}}"#,
        MISSING
    ),
    row!(
        BatchWriteItem,
        r#"{"RequestItems":{"Two":[{"PutRequest":{}}],"One":[1]}}"#,
        KIND
    ),
    row!(
        BatchWriteItem,
        r#"{"RequestItems":{"Tab":[{"PutRequest":{},"DeleteRequest":1}]}}"#,
        KIND
    ),
    row!(
        BatchWriteItem,
        r#"{"RequestItems":{"Tab":[{"PutRequest":{},"DeleteRequest":{"Key":1}}]}}"#,
        MISSING
    ),
    row!(
        BatchGetItem,
        r#"{"RequestItems":{"Tab":{"Keys":[{"k":{"S":"a"}}],"ConsistentRead":true}}}"#,
        None
    ),
    row!(
        BatchGetItem,
        r#"{"RequestItems":{"Tab":{"Keys":["a"]}}}"#,
        KIND
    ),
    row!(BatchGetItem, r#"{"RequestItems":{"Tab":{}}}"#, MISSING),
    row!(BatchGetItem, r#"{"RequestItems":{"Two":{},"One":5}}"#, KIND),
    row!(ListStreams, r#"{"TableName":"Tab","Limit":100}"#, None),
    row!(ListStreams, r#"{"Limit":101}"#, RANGE),
    row!(DescribeStream, r#"{"StreamArn":"arn","Limit":1}"#, None),
    row!(DescribeStream, r#"{"ExclusiveStartShardId":5}"#, MISSING),
    row!(
        GetShardIterator,
        r#"{"StreamArn":"arn","ShardId":"s","ShardIteratorType":"LATEST"}"#,
        None
    ),
    row!(
        GetShardIterator,
        r#"{"StreamArn":"arn","ShardId":"s","ShardIteratorType":"AT"}"#,
        RANGE
    ),
    row!(GetRecords, r#"{"ShardIterator":"i","Limit":1000}"#, None),
    row!(GetRecords, r#"{"ShardIterator":"i","Limit":1001}"#, RANGE),
];

fn broken(operation: Operation, body: &Map<String, Value>) -> Option<Broken> {
    match operation {
        Operation::CreateTable => bodies::create_table(body),
        Operation::UpdateTable => bodies::update_table(body),
        Operation::DescribeTable => bodies::describe_table(body),
        Operation::DeleteTable => bodies::delete_table(body),
        Operation::ListTables => bodies::list_tables(body),
        Operation::PutItem => bodies::put_item(body),
        Operation::DeleteItem => bodies::delete_item(body),
        Operation::UpdateItem => bodies::update_item(body),
        Operation::GetItem => bodies::get_item(body),
        Operation::Query => bodies::query(body),
        Operation::Scan => bodies::scan(body),
        Operation::BatchWriteItem => bodies::batch_write_item(body),
        Operation::BatchGetItem => bodies::batch_get_item(body),
        Operation::ListStreams => bodies::list_streams(body),
        Operation::DescribeStream => bodies::describe_stream(body),
        Operation::GetShardIterator => bodies::get_shard_iterator(body),
        Operation::GetRecords => bodies::get_records(body),
    }
}

/// Whether a body is broken as its row says.
fn holds(alloc: Global, row: &Row) -> bool {
    let Ok(value) = Value::from_str(alloc, row.body) else {
        return false;
    };
    let Some(body) = value.as_object() else {
        return false;
    };
    broken(row.operation, body) == row.broken
}

#[test]
fn bodies_have_the_shape_of_their_operation(rt: HostRuntime) -> Result<(), Fail> {
    for row in &ROWS {
        assert!(rt; holds(rt.alloc(), row), "{}", row.body);
    }
    Ok(())
}
