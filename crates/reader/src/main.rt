//! Prints the keys of the document on standard input, and the kinds of their values.
#![tactic(auto)]

use raw_bson::RawDocument;
use std::io::Read;

fn main(rt: HostRuntime) -> std::io::Result<()> {
    let mut bytes = Vec::new(rt.alloc());
    rt.stdin().read_to_end(&mut bytes)?;
    let Ok(document) = RawDocument::from_bytes(&bytes) else {
        return println!(rt; "no document");
    };
    for item in document.iter(rt.alloc()) {
        match item {
            Ok((key, value)) => println!(rt; "{key}: {}", value.element_type())?,
            Err(error) => println!(rt; "damaged: {error}")?,
        }
    }
    Ok(())
}
