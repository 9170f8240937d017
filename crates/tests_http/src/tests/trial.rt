//! The requests of the generator. What is wanted was made by another program, in Python, from the rules alone.

use alt_lines::Trial;
use sha2::{Digest, Sha256};
use std::alloc::Global;

/// The first requests of seed 7.
static SEVEN: [&[u8]; 12] = [
    b"CreateTable {\"AttributeDefinitions\":[{\"AttributeName\":\"g\",\"AttributeType\":\"S\"},{\"AttributeName\":\"k\",\"AttributeType\":\"S\"},{\"AttributeName\":\"r\",\"AttributeType\":\"N\"}],\"GlobalSecondaryIndexes\":[{\"IndexName\":\"Gix\",\"KeySchema\":[{\"AttributeName\":\"g\",\"KeyType\":\"HASH\"}],\"Projection\":{\"ProjectionType\":\"KEYS_ONLY\"}}],\"KeySchema\":[{\"AttributeName\":\"k\",\"KeyType\":\"HASH\"},{\"AttributeName\":\"r\",\"KeyType\":\"RANGE\"}],\"StreamSpecification\":{\"StreamEnabled\":true,\"StreamViewType\":\"NEW_AND_OLD_IMAGES\"},\"TableName\":\"Trial\"}",
    b"Query {\"ExpressionAttributeValues\":{\":k\":{\"S\":\"k31\"}},\"KeyConditionExpression\":\"k = :k\",\"Limit\":10,\"TableName\":\"Trial\"}",
    b"UpdateItem {\"ConditionExpression\":\"attribute_exists(k)\",\"ExpressionAttributeValues\":{\":d\":{\"N\":\"764\"}},\"Key\":{\"k\":{\"S\":\"k19\"},\"r\":{\"N\":\"64\"}},\"TableName\":\"Trial\",\"UpdateExpression\":\"ADD v :d\"}",
    b"Query {\"ExpressionAttributeValues\":{\":g\":{\"S\":\"g5\"}},\"IndexName\":\"Gix\",\"KeyConditionExpression\":\"g = :g\",\"Limit\":10,\"TableName\":\"Trial\"}",
    b"PutItem {\"Item\":{\"g\":{\"S\":\"g3\"},\"k\":{\"S\":\"k0\"},\"r\":{\"N\":\"149\"},\"v\":{\"N\":\"962\"}},\"TableName\":\"Trial\"}",
    b"UpdateItem {\"ConditionExpression\":\"attribute_exists(k)\",\"ExpressionAttributeValues\":{\":d\":{\"N\":\"951\"}},\"Key\":{\"k\":{\"S\":\"k19\"},\"r\":{\"N\":\"196\"}},\"TableName\":\"Trial\",\"UpdateExpression\":\"ADD v :d\"}",
    b"UpdateItem {\"ConditionExpression\":\"attribute_exists(k)\",\"ExpressionAttributeValues\":{\":d\":{\"N\":\"98\"}},\"Key\":{\"k\":{\"S\":\"k33\"},\"r\":{\"N\":\"54\"}},\"TableName\":\"Trial\",\"UpdateExpression\":\"ADD v :d\"}",
    b"PutItem {\"Item\":{\"g\":{\"S\":\"g0\"},\"k\":{\"S\":\"k24\"},\"r\":{\"N\":\"40\"},\"v\":{\"N\":\"945\"}},\"TableName\":\"Trial\"}",
    b"PutItem {\"Item\":{\"g\":{\"S\":\"g6\"},\"k\":{\"S\":\"k32\"},\"r\":{\"N\":\"152\"},\"v\":{\"N\":\"517\"}},\"TableName\":\"Trial\"}",
    b"PutItem {\"Item\":{\"g\":{\"S\":\"g1\"},\"k\":{\"S\":\"k35\"},\"r\":{\"N\":\"173\"},\"v\":{\"N\":\"939\"}},\"TableName\":\"Trial\"}",
    b"Query {\"ExpressionAttributeValues\":{\":g\":{\"S\":\"g3\"}},\"IndexName\":\"Gix\",\"KeyConditionExpression\":\"g = :g\",\"Limit\":10,\"TableName\":\"Trial\"}",
    b"UpdateItem {\"ConditionExpression\":\"attribute_exists(k)\",\"ExpressionAttributeValues\":{\":d\":{\"N\":\"10\"}},\"Key\":{\"k\":{\"S\":\"k15\"},\"r\":{\"N\":\"88\"}},\"TableName\":\"Trial\",\"UpdateExpression\":\"ADD v :d\"}",
];

/// The first requests of seed 0: among them a read and deletes.
static ZERO: [&[u8]; 8] = [
    b"CreateTable {\"AttributeDefinitions\":[{\"AttributeName\":\"g\",\"AttributeType\":\"S\"},{\"AttributeName\":\"k\",\"AttributeType\":\"S\"},{\"AttributeName\":\"r\",\"AttributeType\":\"N\"}],\"GlobalSecondaryIndexes\":[{\"IndexName\":\"Gix\",\"KeySchema\":[{\"AttributeName\":\"g\",\"KeyType\":\"HASH\"}],\"Projection\":{\"ProjectionType\":\"KEYS_ONLY\"}}],\"KeySchema\":[{\"AttributeName\":\"k\",\"KeyType\":\"HASH\"},{\"AttributeName\":\"r\",\"KeyType\":\"RANGE\"}],\"StreamSpecification\":{\"StreamEnabled\":true,\"StreamViewType\":\"NEW_AND_OLD_IMAGES\"},\"TableName\":\"Trial\"}",
    b"GetItem {\"Key\":{\"k\":{\"S\":\"k24\"},\"r\":{\"N\":\"137\"}},\"TableName\":\"Trial\"}",
    b"UpdateItem {\"ConditionExpression\":\"attribute_exists(k)\",\"ExpressionAttributeValues\":{\":d\":{\"N\":\"975\"}},\"Key\":{\"k\":{\"S\":\"k11\"},\"r\":{\"N\":\"184\"}},\"TableName\":\"Trial\",\"UpdateExpression\":\"ADD v :d\"}",
    b"DeleteItem {\"Key\":{\"k\":{\"S\":\"k19\"},\"r\":{\"N\":\"103\"}},\"TableName\":\"Trial\"}",
    b"PutItem {\"Item\":{\"g\":{\"S\":\"g1\"},\"k\":{\"S\":\"k5\"},\"r\":{\"N\":\"180\"},\"v\":{\"N\":\"22\"}},\"TableName\":\"Trial\"}",
    b"UpdateItem {\"ConditionExpression\":\"attribute_exists(k)\",\"ExpressionAttributeValues\":{\":d\":{\"N\":\"483\"}},\"Key\":{\"k\":{\"S\":\"k18\"},\"r\":{\"N\":\"131\"}},\"TableName\":\"Trial\",\"UpdateExpression\":\"ADD v :d\"}",
    b"DeleteItem {\"Key\":{\"k\":{\"S\":\"k29\"},\"r\":{\"N\":\"87\"}},\"TableName\":\"Trial\"}",
    b"PutItem {\"Item\":{\"g\":{\"S\":\"g1\"},\"k\":{\"S\":\"k3\"},\"r\":{\"N\":\"41\"},\"v\":{\"N\":\"351\"}},\"TableName\":\"Trial\"}",
];

/// The first requests of the greatest seed.
static GREATEST: [&[u8]; 4] = [
    b"CreateTable {\"AttributeDefinitions\":[{\"AttributeName\":\"g\",\"AttributeType\":\"S\"},{\"AttributeName\":\"k\",\"AttributeType\":\"S\"},{\"AttributeName\":\"r\",\"AttributeType\":\"N\"}],\"GlobalSecondaryIndexes\":[{\"IndexName\":\"Gix\",\"KeySchema\":[{\"AttributeName\":\"g\",\"KeyType\":\"HASH\"}],\"Projection\":{\"ProjectionType\":\"KEYS_ONLY\"}}],\"KeySchema\":[{\"AttributeName\":\"k\",\"KeyType\":\"HASH\"},{\"AttributeName\":\"r\",\"KeyType\":\"RANGE\"}],\"StreamSpecification\":{\"StreamEnabled\":true,\"StreamViewType\":\"NEW_AND_OLD_IMAGES\"},\"TableName\":\"Trial\"}",
    b"Query {\"ExpressionAttributeValues\":{\":k\":{\"S\":\"k23\"}},\"KeyConditionExpression\":\"k = :k\",\"Limit\":10,\"TableName\":\"Trial\"}",
    b"DeleteItem {\"Key\":{\"k\":{\"S\":\"k27\"},\"r\":{\"N\":\"85\"}},\"TableName\":\"Trial\"}",
    b"PutItem {\"Item\":{\"g\":{\"S\":\"g1\"},\"k\":{\"S\":\"k12\"},\"r\":{\"N\":\"83\"},\"v\":{\"N\":\"162\"}},\"TableName\":\"Trial\"}",
];

fn makes(alloc: Global, seed: u64, rows: &[&[u8]]) -> bool {
    let mut trial = Trial::new(seed);
    let mut out = Vec::new(alloc);
    for row in rows {
        out.clear();
        if trial.request(&mut out).is_err() || out.as_slice() != *row {
            return false;
        }
    }
    true
}

#[test]
fn the_requests_are_those_of_the_seed(rt: HostRuntime) {
    assert!(rt; makes(rt.alloc(), 7, &SEVEN));
    assert!(rt; makes(rt.alloc(), 0, &ZERO));
    assert!(rt; makes(rt.alloc(), u64::MAX, &GREATEST));
}

/// The digest of so many lines, each with a line feed.
fn digest(alloc: Global, seed: u64, count: u64) -> Option<[u8; 32]> {
    let mut trial = Trial::new(seed);
    let mut out = Vec::new(alloc);
    let mut all = Sha256::new();
    for _ in 0..count {
        out.clear();
        if trial.request(&mut out).is_err() || out.push(b'\n').is_err() {
            return None;
        }
        all.update(&out);
    }
    Some(all.finalize())
}

/// 0ebf1297741e20b5bd29a74a70f922532d0a5f4604c2415a9953dfc1776277a0
static DIGEST: [u8; 32] = [
    0x0e, 0xbf, 0x12, 0x97, 0x74, 0x1e, 0x20, 0xb5, 0xbd, 0x29, 0xa7, 0x4a, 0x70, 0xf9, 0x22, 0x53,
    0x2d, 0x0a, 0x5f, 0x46, 0x04, 0xc2, 0x41, 0x5a, 0x99, 0x53, 0xdf, 0xc1, 0x77, 0x62, 0x77, 0xa0,
];

fn is_digest(alloc: Global) -> bool {
    match digest(alloc, 7, 20_000) {
        Some(found) => found.as_slice() == DIGEST.as_slice(),
        None => false,
    }
}

#[test]
fn twenty_thousand_requests_of_seed_7_have_their_digest(rt: HostRuntime) {
    assert!(rt; is_digest(rt.alloc()));
}
