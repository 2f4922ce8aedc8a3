//! What is asked, and what etcd 3.4.23 answered. `tests/etcd` asks a running etcd the same.

// A head of a request, up to the length of its body.
pub const APPEND_HEAD: &str = "POST /v3/kv/txn HTTP/1.1\r\nHost: etcd\r\n\
    Content-Type: application/json\r\nContent-Length: ";

pub const RANGE_HEAD: &str = "POST /v3/kv/range HTTP/1.1\r\nHost: etcd\r\n\
    Content-Type: application/json\r\nContent-Length: ";

// The record `#1 1 7 1` is appended, unless something was trimmed: the mark of that is hz.
pub const APPEND_1: &str = "\
    {\"compare\":[{\"key\":\"aHgvMDAwMDAwMDAwMDAx\",\"target\":\"VERSION\",\"result\":\"EQUAL\",\
    \"version\":\"0\"},{\"key\":\"aHo=\",\"target\":\"VERSION\",\"result\":\"EQUAL\",\
    \"version\":\"0\"}],\"success\":[{\"requestPut\":{\"key\":\"aHgvMDAwMDAwMDAwMDAx\",\
    \"value\":\"IzEgMSA3IDEK\"}}],\"failure\":[{\"requestRange\":{\
    \"key\":\"aHgvMDAwMDAwMDAwMDAx\"}}]}";

// So is `#1 1 8 1`, of another writer.
pub const RIVAL_1: &str = "\
    {\"compare\":[{\"key\":\"aHgvMDAwMDAwMDAwMDAx\",\"target\":\"VERSION\",\"result\":\"EQUAL\",\
    \"version\":\"0\"},{\"key\":\"aHo=\",\"target\":\"VERSION\",\"result\":\"EQUAL\",\
    \"version\":\"0\"}],\"success\":[{\"requestPut\":{\"key\":\"aHgvMDAwMDAwMDAwMDAx\",\
    \"value\":\"IzEgMSA4IDEK\"}}],\"failure\":[{\"requestRange\":{\
    \"key\":\"aHgvMDAwMDAwMDAwMDAx\"}}]}";

// So is `#2 1 7 1` with the lines `one` and `two`, if the first one stands.
pub const APPEND_2: &str = "\
    {\"compare\":[{\"key\":\"aHgvMDAwMDAwMDAwMDAy\",\"target\":\"VERSION\",\"result\":\"EQUAL\",\
    \"version\":\"0\"},{\"key\":\"aHgvMDAwMDAwMDAwMDAx\",\"target\":\"VERSION\",\
    \"result\":\"GREATER\",\"version\":\"0\"}],\"success\":[{\"requestPut\":{\"key\":\"aHgvMDAwMDAwMDAwMDAy\",\
    \"value\":\"IzIgMSA3IDEKb25lCnR3bwo=\"}}],\"failure\":[{\"requestRange\":{\
    \"key\":\"aHgvMDAwMDAwMDAwMDAy\"}}]}";

// The first ten records are asked for; the first alone; those from the third on.
pub const RANGE_1: &str = r#"{"key":"aHgvMDAwMDAwMDAwMDAx","range_end":"aHgw","limit":"10"}"#;

pub const FIRST: &str = r#"{"key":"aHgvMDAwMDAwMDAwMDAx","range_end":"aHgw","limit":"1"}"#;

pub const RANGE_3: &str = r#"{"key":"aHgvMDAwMDAwMDAwMDAz","range_end":"aHgw","limit":"10"}"#;

// The append of the first record stands; that of its rival does not; that of the second does.
pub const STANDS_1: &str = "\
    {\"header\":{\"cluster_id\":\"6001611773266757492\",\"member_id\":\"13049071153751544597\",\
    \"revision\":\"2\",\"raft_term\":\"2\"},\"succeeded\":true,\"responses\":[{\
    \"response_put\":{\"header\":{\"revision\":\"2\"}}}]}";

pub const TAKEN_1: &str = "\
    {\"header\":{\"cluster_id\":\"6001611773266757492\",\"member_id\":\"13049071153751544597\",\
    \"revision\":\"2\",\"raft_term\":\"2\"},\"responses\":[{\"response_range\":{\"header\":{\
    \"revision\":\"2\"},\"kvs\":[{\"key\":\"aHgvMDAwMDAwMDAwMDAx\",\"create_revision\":\"2\",\
    \"mod_revision\":\"2\",\"version\":\"1\",\"value\":\"IzEgMSA3IDEK\"}],\"count\":\"1\"}}]}";

pub const STANDS_2: &str = "\
    {\"header\":{\"cluster_id\":\"6001611773266757492\",\"member_id\":\"13049071153751544597\",\
    \"revision\":\"3\",\"raft_term\":\"2\"},\"succeeded\":true,\"responses\":[{\
    \"response_put\":{\"header\":{\"revision\":\"3\"}}}]}";

// The answers with records: two; the first of two; none.
pub const BOTH: &str = "\
    {\"header\":{\"cluster_id\":\"6001611773266757492\",\"member_id\":\"13049071153751544597\",\
    \"revision\":\"3\",\"raft_term\":\"2\"},\"kvs\":[{\"key\":\"aHgvMDAwMDAwMDAwMDAx\",\
    \"create_revision\":\"2\",\"mod_revision\":\"2\",\"version\":\"1\",\
    \"value\":\"IzEgMSA3IDEK\"},{\"key\":\"aHgvMDAwMDAwMDAwMDAy\",\"create_revision\":\"3\",\
    \"mod_revision\":\"3\",\"version\":\"1\",\"value\":\"IzIgMSA3IDEKb25lCnR3bwo=\"}],\
    \"count\":\"2\"}";

pub const ONE: &str = "\
    {\"header\":{\"cluster_id\":\"6001611773266757492\",\"member_id\":\"13049071153751544597\",\
    \"revision\":\"3\",\"raft_term\":\"2\"},\"kvs\":[{\"key\":\"aHgvMDAwMDAwMDAwMDAx\",\
    \"create_revision\":\"2\",\"mod_revision\":\"2\",\"version\":\"1\",\
    \"value\":\"IzEgMSA3IDEK\"}],\"more\":true,\"count\":\"2\"}";

pub const NONE: &str = "\
    {\"header\":{\"cluster_id\":\"6001611773266757492\",\"member_id\":\"13049071153751544597\",\
    \"revision\":\"3\",\"raft_term\":\"2\"}}";

// The writer 7 writes the heartbeat `12` under the key hy/7, and it is asked for; so is that of the writer 8, who has
// written none.
pub const HEARTBEAT_HEAD: &str = "POST /v3/kv/put HTTP/1.1\r\nHost: etcd\r\n\
    Content-Type: application/json\r\nContent-Length: ";

pub const HEARTBEAT_7: &str = r#"{"key":"aHkvNw==","value":"MTI="}"#;

pub const ASK_7: &str = r#"{"key":"aHkvNw=="}"#;

pub const ASK_8: &str = r#"{"key":"aHkvOA=="}"#;

// The answers: the heartbeat is written; it is read; there is none.
pub const SHOWN_7: &str = "\
    {\"header\":{\"cluster_id\":\"6001611773266757492\",\"member_id\":\"13049071153751544597\",\
    \"revision\":\"4\",\"raft_term\":\"2\"}}";

pub const SEEN_7: &str = "\
    {\"header\":{\"cluster_id\":\"6001611773266757492\",\"member_id\":\"13049071153751544597\",\
    \"revision\":\"4\",\"raft_term\":\"2\"},\"kvs\":[{\"key\":\"aHkvNw==\",\
    \"create_revision\":\"4\",\"mod_revision\":\"4\",\"version\":\"1\",\"value\":\"MTI=\"}],\
    \"count\":\"1\"}";

pub const NO_HEARTBEAT: &str = "\
    {\"header\":{\"cluster_id\":\"6001611773266757492\",\"member_id\":\"13049071153751544597\",\
    \"revision\":\"4\",\"raft_term\":\"2\"}}";

// The copy 5 shows under the key hc/5 that it has two records, and that is asked for.
pub const COPY_5: &str = r#"{"key":"aGMvNQ==","value":"Mg=="}"#;

pub const ASK_COPY_5: &str = r#"{"key":"aGMvNQ=="}"#;

// The answers: it is shown, and read.
pub const COPY_SHOWN: &str = "\
    {\"header\":{\"cluster_id\":\"6001611773266757492\",\"member_id\":\"13049071153751544597\",\
    \"revision\":\"5\",\"raft_term\":\"2\"}}";

pub const COPY_SEEN: &str = "\
    {\"header\":{\"cluster_id\":\"6001611773266757492\",\"member_id\":\"13049071153751544597\",\
    \"revision\":\"5\",\"raft_term\":\"2\"},\"kvs\":[{\"key\":\"aGMvNQ==\",\
    \"create_revision\":\"5\",\"mod_revision\":\"5\",\"version\":\"1\",\"value\":\"Mg==\"}],\
    \"count\":\"1\"}";

// The log is trimmed in front of the second record; in front of the ninth, which is not there.
pub const TRIM_2: &str = "\
    {\"compare\":[{\"key\":\"aHgvMDAwMDAwMDAwMDAy\",\"target\":\"VERSION\",\
    \"result\":\"GREATER\",\"version\":\"0\"}],\"success\":[{\"requestDeleteRange\":{\
    \"key\":\"aHgvMDAwMDAwMDAwMDAx\",\"range_end\":\"aHgvMDAwMDAwMDAwMDAy\"}},{\"requestPut\":{\
    \"key\":\"aHo=\",\"value\":\"Mg==\"}}]}";

pub const TRIM_9: &str = "\
    {\"compare\":[{\"key\":\"aHgvMDAwMDAwMDAwMDA5\",\"target\":\"VERSION\",\
    \"result\":\"GREATER\",\"version\":\"0\"}],\"success\":[{\"requestDeleteRange\":{\
    \"key\":\"aHgvMDAwMDAwMDAwMDAx\",\"range_end\":\"aHgvMDAwMDAwMDAwMDA5\"}},{\"requestPut\":{\
    \"key\":\"aHo=\",\"value\":\"OQ==\"}}]}";

// The first record is deleted, and the mark put; nothing is.
pub const TRIMMED_2: &str = "\
    {\"header\":{\"cluster_id\":\"6001611773266757492\",\"member_id\":\"13049071153751544597\",\
    \"revision\":\"6\",\"raft_term\":\"2\"},\"succeeded\":true,\"responses\":[{\
    \"response_delete_range\":{\"header\":{\"revision\":\"6\"},\"deleted\":\"1\"}},{\
    \"response_put\":{\"header\":{\"revision\":\"6\"}}}]}";

pub const NOT_TRIMMED: &str = "\
    {\"header\":{\"cluster_id\":\"6001611773266757492\",\"member_id\":\"13049071153751544597\",\
    \"revision\":\"6\",\"raft_term\":\"2\"}}";

// The append of the first record finds none, and is not made; the question for the first ten finds the second.
pub const GONE_1: &str = "\
    {\"header\":{\"cluster_id\":\"6001611773266757492\",\"member_id\":\"13049071153751544597\",\
    \"revision\":\"6\",\"raft_term\":\"2\"},\"responses\":[{\"response_range\":{\"header\":{\
    \"revision\":\"6\"}}}]}";

pub const FROM_2: &str = "\
    {\"header\":{\"cluster_id\":\"6001611773266757492\",\"member_id\":\"13049071153751544597\",\
    \"revision\":\"6\",\"raft_term\":\"2\"},\"kvs\":[{\"key\":\"aHgvMDAwMDAwMDAwMDAy\",\
    \"create_revision\":\"3\",\"mod_revision\":\"3\",\"version\":\"1\",\
    \"value\":\"IzIgMSA3IDEKb25lCnR3bwo=\"}],\"count\":\"1\"}";

// What is older than the trim is given up.
pub const COMPACT_HEAD: &str = "POST /v3/kv/compaction HTTP/1.1\r\nHost: etcd\r\n\
    Content-Type: application/json\r\nContent-Length: ";

pub const COMPACT_6: &str = r#"{"revision":"6"}"#;

pub const COMPACTED: &str = "\
    {\"header\":{\"cluster_id\":\"6001611773266757492\",\"member_id\":\"13049071153751544597\",\
    \"revision\":\"6\",\"raft_term\":\"2\"}}";

// What stands in front of a body that has a length, up to that length.
pub const ANSWER_HEAD: &str = "HTTP/1.1 200 OK\r\n\
    Access-Control-Allow-Headers: accept, content-type, authorization\r\n\
    Access-Control-Allow-Methods: POST, GET, OPTIONS, PUT, DELETE\r\n\
    Access-Control-Allow-Origin: *\r\nContent-Type: application/json\r\n\
    Grpc-Metadata-Content-Type: application/grpc\r\n\
    Date: Sat, 28 Nov 2026 10:46:16 GMT\r\nContent-Length: ";

// A whole answer that comes in chunks, with a field after them: nothing was asked for.
pub const NO_KEY: &str = "HTTP/1.1 400 Bad Request\r\n\
    Access-Control-Allow-Headers: accept, content-type, authorization\r\n\
    Access-Control-Allow-Methods: POST, GET, OPTIONS, PUT, DELETE\r\n\
    Access-Control-Allow-Origin: *\r\nContent-Type: application/json\r\n\
    Trailer: Grpc-Trailer-Content-Type\r\nDate: Sat, 28 Nov 2026 10:46:18 GMT\r\n\
    Transfer-Encoding: chunked\r\n\r\n60\r\n\
    {\"error\":\"etcdserver: key is not provided\",\
    \"message\":\"etcdserver: key is not provided\",\"code\":3}\r\n\
    0\r\nGrpc-Trailer-Content-Type: application/grpc\r\n\r\n";

// Its body.
pub const NO_KEY_BODY: &str = "{\"error\":\"etcdserver: key is not provided\",\
    \"message\":\"etcdserver: key is not provided\",\"code\":3}";
