//! Conditions on an item that has all ten kinds: eighteen that hold, each for a put that changes it, two that don't, and one for a delete.

use super::asking::Request;

pub(super) static CONDITIONS: [Request; 24] = [
    (
        "CreateTable",
        r#"{"TableName":"Tab","KeySchema":[{"AttributeName":"k","KeyType":"HASH"}],"AttributeDefinitions":[{"AttributeName":"k","AttributeType":"S"}]}"#,
    ),
    (
        "CreateTable",
        r#"{"TableName":"Two","KeySchema":[{"AttributeName":"k","KeyType":"HASH"},{"AttributeName":"r","KeyType":"RANGE"}],"AttributeDefinitions":[{"AttributeName":"k","AttributeType":"S"},{"AttributeName":"r","AttributeType":"N"}]}"#,
    ),
    (
        "PutItem",
        r#"{"TableName":"Tab","Item":{"k":{"S":"a"},"s":{"S":"text"},"n":{"N":"7"},"b":{"B":"AAH/"},"t":{"BOOL":true},"u":{"NULL":true},"l":{"L":[{"S":"x"},{"N":"2"}]},"m":{"M":{"inner":{"S":"y"}}},"ss":{"SS":["a","b"]},"ns":{"NS":["1","2"]},"bs":{"BS":["AA==","AQ=="]}}}"#,
    ),
    (
        "PutItem",
        r#"{"TableName":"Tab","Item":{"k":{"S":"a"},"s":{"S":"text"},"n":{"N":"7"},"b":{"B":"AAH/"},"t":{"BOOL":true},"u":{"NULL":true},"l":{"L":[{"S":"x"},{"N":"2"}]},"m":{"M":{"inner":{"S":"y"}}},"ss":{"SS":["a","b"]},"ns":{"NS":["1","2"]},"bs":{"BS":["AA==","AQ=="]},"v":{"N":"0"}},"ConditionExpression":"attribute_exists(s)"}"#,
    ),
    (
        "PutItem",
        r#"{"TableName":"Tab","Item":{"k":{"S":"a"},"s":{"S":"text"},"n":{"N":"7"},"b":{"B":"AAH/"},"t":{"BOOL":true},"u":{"NULL":true},"l":{"L":[{"S":"x"},{"N":"2"}]},"m":{"M":{"inner":{"S":"y"}}},"ss":{"SS":["a","b"]},"ns":{"NS":["1","2"]},"bs":{"BS":["AA==","AQ=="]},"v":{"N":"1"}},"ConditionExpression":"attribute_not_exists(x)"}"#,
    ),
    (
        "PutItem",
        r#"{"TableName":"Tab","Item":{"k":{"S":"a"},"s":{"S":"text"},"n":{"N":"7"},"b":{"B":"AAH/"},"t":{"BOOL":true},"u":{"NULL":true},"l":{"L":[{"S":"x"},{"N":"2"}]},"m":{"M":{"inner":{"S":"y"}}},"ss":{"SS":["a","b"]},"ns":{"NS":["1","2"]},"bs":{"BS":["AA==","AQ=="]},"v":{"N":"2"}},"ConditionExpression":"attribute_type(l, :v)","ExpressionAttributeValues":{":v":{"S":"L"}}}"#,
    ),
    (
        "PutItem",
        r#"{"TableName":"Tab","Item":{"k":{"S":"a"},"s":{"S":"text"},"n":{"N":"7"},"b":{"B":"AAH/"},"t":{"BOOL":true},"u":{"NULL":true},"l":{"L":[{"S":"x"},{"N":"2"}]},"m":{"M":{"inner":{"S":"y"}}},"ss":{"SS":["a","b"]},"ns":{"NS":["1","2"]},"bs":{"BS":["AA==","AQ=="]},"v":{"N":"3"}},"ConditionExpression":"begins_with(s, :v)","ExpressionAttributeValues":{":v":{"S":"te"}}}"#,
    ),
    (
        "PutItem",
        r#"{"TableName":"Tab","Item":{"k":{"S":"a"},"s":{"S":"text"},"n":{"N":"7"},"b":{"B":"AAH/"},"t":{"BOOL":true},"u":{"NULL":true},"l":{"L":[{"S":"x"},{"N":"2"}]},"m":{"M":{"inner":{"S":"y"}}},"ss":{"SS":["a","b"]},"ns":{"NS":["1","2"]},"bs":{"BS":["AA==","AQ=="]},"v":{"N":"4"}},"ConditionExpression":"contains(ss, :v)","ExpressionAttributeValues":{":v":{"S":"a"}}}"#,
    ),
    (
        "PutItem",
        r#"{"TableName":"Tab","Item":{"k":{"S":"a"},"s":{"S":"text"},"n":{"N":"7"},"b":{"B":"AAH/"},"t":{"BOOL":true},"u":{"NULL":true},"l":{"L":[{"S":"x"},{"N":"2"}]},"m":{"M":{"inner":{"S":"y"}}},"ss":{"SS":["a","b"]},"ns":{"NS":["1","2"]},"bs":{"BS":["AA==","AQ=="]},"v":{"N":"5"}},"ConditionExpression":"contains(l, :v)","ExpressionAttributeValues":{":v":{"S":"x"}}}"#,
    ),
    (
        "PutItem",
        r#"{"TableName":"Tab","Item":{"k":{"S":"a"},"s":{"S":"text"},"n":{"N":"7"},"b":{"B":"AAH/"},"t":{"BOOL":true},"u":{"NULL":true},"l":{"L":[{"S":"x"},{"N":"2"}]},"m":{"M":{"inner":{"S":"y"}}},"ss":{"SS":["a","b"]},"ns":{"NS":["1","2"]},"bs":{"BS":["AA==","AQ=="]},"v":{"N":"6"}},"ConditionExpression":"size(b) = :v","ExpressionAttributeValues":{":v":{"N":"3"}}}"#,
    ),
    (
        "PutItem",
        r#"{"TableName":"Tab","Item":{"k":{"S":"a"},"s":{"S":"text"},"n":{"N":"7"},"b":{"B":"AAH/"},"t":{"BOOL":true},"u":{"NULL":true},"l":{"L":[{"S":"x"},{"N":"2"}]},"m":{"M":{"inner":{"S":"y"}}},"ss":{"SS":["a","b"]},"ns":{"NS":["1","2"]},"bs":{"BS":["AA==","AQ=="]},"v":{"N":"7"}},"ConditionExpression":"n BETWEEN :v AND :w","ExpressionAttributeValues":{":v":{"N":"1"},":w":{"N":"9"}}}"#,
    ),
    (
        "PutItem",
        r#"{"TableName":"Tab","Item":{"k":{"S":"a"},"s":{"S":"text"},"n":{"N":"7"},"b":{"B":"AAH/"},"t":{"BOOL":true},"u":{"NULL":true},"l":{"L":[{"S":"x"},{"N":"2"}]},"m":{"M":{"inner":{"S":"y"}}},"ss":{"SS":["a","b"]},"ns":{"NS":["1","2"]},"bs":{"BS":["AA==","AQ=="]},"v":{"N":"8"}},"ConditionExpression":"n IN (:w, :v)","ExpressionAttributeValues":{":v":{"N":"7"},":w":{"N":"8"}}}"#,
    ),
    (
        "PutItem",
        r#"{"TableName":"Tab","Item":{"k":{"S":"a"},"s":{"S":"text"},"n":{"N":"7"},"b":{"B":"AAH/"},"t":{"BOOL":true},"u":{"NULL":true},"l":{"L":[{"S":"x"},{"N":"2"}]},"m":{"M":{"inner":{"S":"y"}}},"ss":{"SS":["a","b"]},"ns":{"NS":["1","2"]},"bs":{"BS":["AA==","AQ=="]},"v":{"N":"9"}},"ConditionExpression":"t = :v","ExpressionAttributeValues":{":v":{"BOOL":true}}}"#,
    ),
    (
        "PutItem",
        r#"{"TableName":"Tab","Item":{"k":{"S":"a"},"s":{"S":"text"},"n":{"N":"7"},"b":{"B":"AAH/"},"t":{"BOOL":true},"u":{"NULL":true},"l":{"L":[{"S":"x"},{"N":"2"}]},"m":{"M":{"inner":{"S":"y"}}},"ss":{"SS":["a","b"]},"ns":{"NS":["1","2"]},"bs":{"BS":["AA==","AQ=="]},"v":{"N":"10"}},"ConditionExpression":"u = :v","ExpressionAttributeValues":{":v":{"NULL":true}}}"#,
    ),
    (
        "PutItem",
        r#"{"TableName":"Tab","Item":{"k":{"S":"a"},"s":{"S":"text"},"n":{"N":"7"},"b":{"B":"AAH/"},"t":{"BOOL":true},"u":{"NULL":true},"l":{"L":[{"S":"x"},{"N":"2"}]},"m":{"M":{"inner":{"S":"y"}}},"ss":{"SS":["a","b"]},"ns":{"NS":["1","2"]},"bs":{"BS":["AA==","AQ=="]},"v":{"N":"11"}},"ConditionExpression":"m.inner = :v","ExpressionAttributeValues":{":v":{"S":"y"}}}"#,
    ),
    (
        "PutItem",
        r#"{"TableName":"Tab","Item":{"k":{"S":"a"},"s":{"S":"text"},"n":{"N":"7"},"b":{"B":"AAH/"},"t":{"BOOL":true},"u":{"NULL":true},"l":{"L":[{"S":"x"},{"N":"2"}]},"m":{"M":{"inner":{"S":"y"}}},"ss":{"SS":["a","b"]},"ns":{"NS":["1","2"]},"bs":{"BS":["AA==","AQ=="]},"v":{"N":"12"}},"ConditionExpression":"l[1] = :v","ExpressionAttributeValues":{":v":{"N":"2.0"}}}"#,
    ),
    (
        "PutItem",
        r#"{"TableName":"Tab","Item":{"k":{"S":"a"},"s":{"S":"text"},"n":{"N":"7"},"b":{"B":"AAH/"},"t":{"BOOL":true},"u":{"NULL":true},"l":{"L":[{"S":"x"},{"N":"2"}]},"m":{"M":{"inner":{"S":"y"}}},"ss":{"SS":["a","b"]},"ns":{"NS":["1","2"]},"bs":{"BS":["AA==","AQ=="]},"v":{"N":"13"}},"ConditionExpression":"ns = :v","ExpressionAttributeValues":{":v":{"NS":["2","1"]}}}"#,
    ),
    (
        "PutItem",
        r#"{"TableName":"Tab","Item":{"k":{"S":"a"},"s":{"S":"text"},"n":{"N":"7"},"b":{"B":"AAH/"},"t":{"BOOL":true},"u":{"NULL":true},"l":{"L":[{"S":"x"},{"N":"2"}]},"m":{"M":{"inner":{"S":"y"}}},"ss":{"SS":["a","b"]},"ns":{"NS":["1","2"]},"bs":{"BS":["AA==","AQ=="]},"v":{"N":"14"}},"ConditionExpression":"bs = :v","ExpressionAttributeValues":{":v":{"BS":["AQ==","AA=="]}}}"#,
    ),
    (
        "PutItem",
        r#"{"TableName":"Tab","Item":{"k":{"S":"a"},"s":{"S":"text"},"n":{"N":"7"},"b":{"B":"AAH/"},"t":{"BOOL":true},"u":{"NULL":true},"l":{"L":[{"S":"x"},{"N":"2"}]},"m":{"M":{"inner":{"S":"y"}}},"ss":{"SS":["a","b"]},"ns":{"NS":["1","2"]},"bs":{"BS":["AA==","AQ=="]},"v":{"N":"15"}},"ConditionExpression":"NOT n < :v","ExpressionAttributeValues":{":v":{"N":"1"}}}"#,
    ),
    (
        "PutItem",
        r#"{"TableName":"Tab","Item":{"k":{"S":"a"},"s":{"S":"text"},"n":{"N":"7"},"b":{"B":"AAH/"},"t":{"BOOL":true},"u":{"NULL":true},"l":{"L":[{"S":"x"},{"N":"2"}]},"m":{"M":{"inner":{"S":"y"}}},"ss":{"SS":["a","b"]},"ns":{"NS":["1","2"]},"bs":{"BS":["AA==","AQ=="]},"v":{"N":"16"}},"ConditionExpression":"s < :v AND b > :w","ExpressionAttributeValues":{":v":{"S":"u"},":w":{"B":"AA=="}}}"#,
    ),
    (
        "PutItem",
        r#"{"TableName":"Tab","Item":{"k":{"S":"a"},"s":{"S":"text"},"n":{"N":"7"},"b":{"B":"AAH/"},"t":{"BOOL":true},"u":{"NULL":true},"l":{"L":[{"S":"x"},{"N":"2"}]},"m":{"M":{"inner":{"S":"y"}}},"ss":{"SS":["a","b"]},"ns":{"NS":["1","2"]},"bs":{"BS":["AA==","AQ=="]},"v":{"N":"17"}},"ConditionExpression":"size(m) = :v OR size(m) = :w","ExpressionAttributeValues":{":v":{"N":"1"},":w":{"N":"9"}}}"#,
    ),
    (
        "PutItem",
        r#"{"TableName":"Tab","Item":{"k":{"S":"a"},"s":{"S":"text"},"n":{"N":"7"},"b":{"B":"AAH/"},"t":{"BOOL":true},"u":{"NULL":true},"l":{"L":[{"S":"x"},{"N":"2"}]},"m":{"M":{"inner":{"S":"y"}}},"ss":{"SS":["a","b"]},"ns":{"NS":["1","2"]},"bs":{"BS":["AA==","AQ=="]},"v":{"N":"18"}},"ConditionExpression":"n > :v","ExpressionAttributeValues":{":v":{"N":"9"}}}"#,
    ),
    (
        "PutItem",
        r#"{"TableName":"Tab","Item":{"k":{"S":"a"},"s":{"S":"text"},"n":{"N":"7"},"b":{"B":"AAH/"},"t":{"BOOL":true},"u":{"NULL":true},"l":{"L":[{"S":"x"},{"N":"2"}]},"m":{"M":{"inner":{"S":"y"}}},"ss":{"SS":["a","b"]},"ns":{"NS":["1","2"]},"bs":{"BS":["AA==","AQ=="]},"v":{"N":"19"}},"ConditionExpression":"attribute_type(s, :v)","ExpressionAttributeValues":{":v":{"S":"N"}}}"#,
    ),
    (
        "DeleteItem",
        r#"{"TableName":"Tab","Key":{"k":{"S":"a"}},"ConditionExpression":"m = :v","ExpressionAttributeValues":{":v":{"M":{"inner":{"S":"y"}}}}}"#,
    ),
];
