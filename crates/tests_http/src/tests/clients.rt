//! Heads as clients send them.
//!
//! Those of boto3 and the AWS CLI were taken from a socket of this machine: boto3 1.43.11 with botocore 1.43.11, aws-cli 1.45.11 with
//! botocore 1.43.11, Python 3.11.7. Those of Go and JavaScript are written after the documentation of aws-sdk-go-v2 (dynamodb 1.x on
//! Go's net/http) and of @aws-sdk/client-dynamodb 3.x on Node's http, and were not taken from a socket.

use crate::tests::heads::{Want, answers_at_last};

pub(crate) static CLIENTS: [(&[u8], Want); 6] = [
    (
        b"POST / HTTP/1.1\r\nHost: 127.0.0.1:39147\r\nAccept-Encoding: identity\r\nX-Amz-Target: DynamoDB_20120810.ListTables\r\nContent-Type: application/x-amz-json-1.0\r\nUser-Agent: Boto3/1.43.11 md/Botocore#1.43.11 ua/2.1 os/linux#6.18.44-fc-v857 md/arch#x86_64 lang/python#3.11.7 md/pyimpl#CPython m/P,b,N,g,Z,D cfg/retry-mode#legacy Botocore/1.43.11\r\nX-Amz-Date: 20261127T094007Z\r\nAuthorization: AWS4-HMAC-SHA256 Credential=x/20261127/us-east-1/dynamodb/aws4_request, SignedHeaders=content-type;host;x-amz-date;x-amz-target, Signature=98fede72e16a4853f33bc001f94e284bd4fa882273e1df3121250dcb24a656d0\r\namz-sdk-invocation-id: f744668b-b043-4edd-9a15-4fac71742296\r\namz-sdk-request: attempt=1\r\nContent-Length: 2\r\n\r\n",
        Want::Head(b"DynamoDB_20120810.ListTables", 2, false, false),
    ),
    (
        b"POST / HTTP/1.1\r\nHost: 127.0.0.1:39147\r\nAccept-Encoding: identity\r\nX-Amz-Target: DynamoDB_20120810.PutItem\r\nContent-Type: application/x-amz-json-1.0\r\nUser-Agent: Boto3/1.43.11 md/Botocore#1.43.11 ua/2.1 os/linux#6.18.44-fc-v857 md/arch#x86_64 lang/python#3.11.7 md/pyimpl#CPython m/P,b,N,g,Z,D cfg/retry-mode#legacy Botocore/1.43.11\r\nX-Amz-Date: 20261127T094007Z\r\nAuthorization: AWS4-HMAC-SHA256 Credential=x/20261127/us-east-1/dynamodb/aws4_request, SignedHeaders=content-type;host;x-amz-date;x-amz-target, Signature=2a30f684e4ef875ae87d9b0874f207f9d70282b6c6e39e60f22caa5bf8dca14c\r\namz-sdk-invocation-id: ab2866f9-97d5-4f23-b264-960e69a7ee8a\r\namz-sdk-request: attempt=1\r\nContent-Length: 47\r\n\r\n",
        Want::Head(b"DynamoDB_20120810.PutItem", 47, false, false),
    ),
    (
        b"POST / HTTP/1.1\r\nHost: 127.0.0.1:35623\r\nAccept-Encoding: identity\r\nX-Amz-Target: DynamoDB_20120810.ListTables\r\nContent-Type: application/x-amz-json-1.0\r\nUser-Agent: aws-cli/1.45.11 md/Botocore#1.43.11 ua/2.1 os/linux#6.18.44-fc-v857 md/arch#x86_64 lang/python#3.11.7 md/pyimpl#CPython m/D,C,b,g,P,Z,N cfg/retry-mode#legacy botocore/1.43.11\r\nX-Amz-Date: 20261127T094008Z\r\nAuthorization: AWS4-HMAC-SHA256 Credential=x/20261127/us-east-1/dynamodb/aws4_request, SignedHeaders=content-type;host;x-amz-date;x-amz-target, Signature=578953d744d24ab874ba8c73c75a050452685e17665c41ccda6ab077b439faa2\r\namz-sdk-invocation-id: f3c0c27c-8727-437b-83a8-3e0c48ac7151\r\namz-sdk-request: attempt=1\r\nContent-Length: 2\r\n\r\n",
        Want::Head(b"DynamoDB_20120810.ListTables", 2, false, false),
    ),
    (
        b"POST / HTTP/1.1\r\nHost: localhost:8000\r\nUser-Agent: aws-sdk-go-v2/1.30.3 os/linux lang/go#1.22.5 md/GOOS#linux md/GOARCH#amd64 api/dynamodb#1.34.4\r\nContent-Length: 2\r\nAccept-Encoding: identity\r\nAmz-Sdk-Invocation-Id: 5f0c1a2e-7d52-4b6f-9b8e-0a1b2c3d4e5f\r\nAmz-Sdk-Request: attempt=1; max=3\r\nAuthorization: AWS4-HMAC-SHA256 Credential=x/20231114/us-east-1/dynamodb/aws4_request, SignedHeaders=accept-encoding;amz-sdk-invocation-id;content-length;content-type;host;x-amz-date;x-amz-target, Signature=0\r\nContent-Type: application/x-amz-json-1.0\r\nX-Amz-Date: 20231114T221320Z\r\nX-Amz-Target: DynamoDB_20120810.ListTables\r\n\r\n",
        Want::Head(b"DynamoDB_20120810.ListTables", 2, false, false),
    ),
    (
        b"POST / HTTP/1.1\r\ncontent-type: application/x-amz-json-1.0\r\nx-amz-target: DynamoDB_20120810.ListTables\r\ncontent-length: 2\r\nhost: localhost:8000\r\nx-amz-user-agent: aws-sdk-js/3.621.0\r\nuser-agent: aws-sdk-js/3.621.0 ua/2.0 os/linux#6.1.0 lang/js md/nodejs#20.15.1 api/dynamodb#3.621.0\r\namz-sdk-invocation-id: 5f0c1a2e-7d52-4b6f-9b8e-0a1b2c3d4e5f\r\namz-sdk-request: attempt=1; max=3\r\nx-amz-date: 20231114T221320Z\r\nx-amz-content-sha256: 44136fa355b3678a1146ad16f7e8649e94fb4fc21fe77e8310c060f61caaff8a\r\nauthorization: AWS4-HMAC-SHA256 Credential=x/20231114/us-east-1/dynamodb/aws4_request, SignedHeaders=content-type;host;x-amz-date;x-amz-target, Signature=0\r\nConnection: keep-alive\r\n\r\n",
        Want::Head(b"DynamoDB_20120810.ListTables", 2, false, false),
    ),
    (
        b"POST / HTTP/1.1\r\nHost: localhost:8000\r\nX-Amz-Target: DynamoDBStreams_20120810.ListStreams\r\nContent-Length: 2000\r\nExpect: 100-continue\r\nConnection: close\r\n\r\n",
        Want::Head(b"DynamoDBStreams_20120810.ListStreams", 2000, true, true),
    ),
];

#[test]
fn heads_of_clients_are_read_however_they_are_cut(rt: HostRuntime) {
    for (bytes, want) in &CLIENTS {
        assert!(rt;
            answers_at_last(rt.alloc(), bytes, *want),
            "{}",
            bytes.escape_ascii()
        );
    }
}
