use raw_bson::{RawDocumentBuf, Result};
use raw_shelf::{PutError, Shelf};
use std::alloc::Global;
use std::process::Abort;

/// A buffer of one text, `y'all`, under the key `hi`.
fn greeting(alloc: Global) -> Result<RawDocumentBuf> {
    let bytes = Vec::from_slice(alloc, b"\x13\0\0\0\x02hi\0\x06\0\0\0y'all\0\0")?;
    RawDocumentBuf::from_bytes(bytes)
}

/// Whether the put into the empty shelf stores the document; or memory runs out, and the shelf is still empty.
fn is_stored(shelf: &mut Shelf, document: RawDocumentBuf) -> bool {
    match shelf.put(document) {
        Ok(is_new) => is_new && shelf.len() == 1,
        Err(error) => error == PutError::OutOfMemory && shelf.is_empty(),
    }
}

// `bin/test` runs this alone, with each request for memory failing in turn.
#[test]
fn put_or_out_of_memory(rt: HostRuntime) {
    if let Ok(document) = greeting(rt.alloc()) {
        assert!(rt; is_stored(&mut Shelf::new(rt.alloc()), document));
    }
}
