//! Texts that are read as documents.
use bson_from_json::{JsonReason, from_json};
use raw_bson::Limits;
use std::alloc::Global;
use std::process::Abort;

const LIMITS: Limits = Limits {
    bytes: 1000,
    depth: 10,
};

/// Whether these are the bytes that the hex digits write.
fn are_written(bytes: &[u8], digits: &str) -> bool {
    let mut rest = digits.as_bytes();
    for byte in bytes {
        let [high, low, after @ ..] = rest else {
            return false;
        };
        let mut found = [0];
        if hex::decode_to_slice([*high, *low].as_slice(), &mut found).is_err() || found != [*byte] {
            return false;
        }
        rest = after;
    }
    rest.is_empty()
}

/// A text with each wrapper.
const TEXT: &str =
    "{\"a\":{\"$oid\":\"56e1fc72e0c917e9c4714161\"},\"b\":{\"$numberInt\":\"1\"},\"c\":{\"$numberLong\":\"1\"},\"d\":{\"$numberDouble\":\"1\"},\"e\":{\"$numberDecimal\":\"1\"},\"f\":{\"$binary\":{\"base64\":\"AQ==\",\"subType\":\"0\"}},\"g\":{\"$uuid\":\"73ffd264-44b3-4c69-90e8-e7d1dfc035d4\"},\"h\":{\"$date\":\"1970-01-01T00:00:00Z\"},\"i\":{\"$regularExpression\":{\"pattern\":\"a\",\"options\":\"xi\"}},\"j\":{\"$timestamp\":{\"t\":1,\"i\":2}},\"k\":{\"$code\":\"x\"},\"l\":{\"$code\":\"x\",\"$scope\":{}},\"m\":{\"$scope\":{},\"$code\":\"y\"},\"n\":{\"$dbPointer\":{\"$ref\":\"b\",\"$id\":{\"$oid\":\"56e1fc72e0c917e9c4714161\"}}},\"o\":{\"$symbol\":\"s\"},\"p\":{\"$undefined\":true},\"q\":{\"$minKey\":1},\"r\":{\"$maxKey\":1}}";

/// The document that it writes, in hex.
const BYTES: &str =
    "D700000007610056E1FC72E0C917E9C4714161106200010000001263000100000000000000016400000000000000F03F13650001000000000000000000000000004030056600010000000001056700100000000473FFD26444B34C6990E8E7D1DFC035D409680000000000000000000B69006100697800116A0002000000010000000D6B000200000078000F6C000F00000002000000780005000000000F6D000F00000002000000790005000000000C6E0002000000620056E1FC72E0C917E9C47141610E6F00020000007300067000FF71007F720000";

/// The other forms of wrappers, each in a text of its own, and the documents that libbson and MongoDB's package
/// read from them.
const FORMS: &[(&str, &str)] = &[
    (
        "{\"a\":{\"$date\":{\"$numberLong\":\"-1\"}}}",
        "10000000096100FFFFFFFFFFFFFFFF00",
    ),
    (
        "{\"a\":{\"$binary\":{\"base64\":\"AQID\",\"subType\":\"02\"}}}",
        "1400000005610007000000020300000001020300",
    ),
    (
        "{\"a\":{\"$binary\":{\"subType\":\"80\",\"base64\":\"AQID\"}}}",
        "10000000056100030000008001020300",
    ),
    (
        "{\"a\":{\"$regularExpression\":{\"options\":\"mi\",\"pattern\":\"b\"}}}",
        "0D0000000B61006200696D0000",
    ),
    (
        "{\"a\":{\"$timestamp\":{\"i\":2,\"t\":1}}}",
        "10000000116100020000000100000000",
    ),
    (
        "{\"a\":{\"$dbPointer\":{\"$id\":{\"$oid\":\"56e1fc72e0c917e9c4714161\"},\"$ref\":\"b\"}}}",
        "1A0000000C610002000000620056E1FC72E0C917E9C471416100",
    ),
    (
        "{\"a\":{\"\\u0024oid\":\"56e1\\u0066c72e0c917e9c4714161\"}}",
        "1400000007610056E1FC72E0C917E9C471416100",
    ),
    (
        "{\"a\":[{\"$scope\":{\"b\":{\"$scope\":{},\"$code\":\"d\"}},\"$code\":\"c\\n\"}]}",
        "320000000461002A0000000F30002200000003000000630A00170000000F62000F0000000200000064000500000000000000",
    ),
    (
        "{\"$oid\":{\"$symbol\":\"\\u00e9\"}}",
        "120000000E246F69640003000000C3A90000",
    ),
];

/// Whether the text is read as the document, or memory ran out.
fn is_read(alloc: Global, text: &str, digits: &str) -> bool {
    match from_json(alloc, text, LIMITS) {
        Ok(document) => are_written(document.as_bytes(), digits),
        Err(error) => error.reason == JsonReason::OutOfMemory,
    }
}

#[test]
fn a_text_or_out_of_memory(rt: HostRuntime) {
    assert!(rt; is_read(rt.alloc(), TEXT, BYTES));
    for (text, digits) in FORMS {
        assert!(rt; is_read(rt.alloc(), text, digits), "{text}");
    }
}
