//! What holds of all documents, as a call whose contract says it. Programs never need it; proofs do.

ghost use Rattle.raw_view.specs.Document.{bytes_of};
ghost use Rattle.json_round_trip.specs.Closing.{ClosesCircle};

use raw_bson::RawDocument;

/// A canonical document whose tree comes back is the only one that its text in the canonical format writes, in
/// either layout; and within limits that the document is within, `from_json` reads that text unless memory runs
/// out. Programs never need it; proofs do.
/// ```
/// json_round_trip::laws::attest_round_trip(RawDocument::from_bytes(b"\x05\0\0\0\0")?);
/// ```
pub fn attest_round_trip(document: RawDocument<'_>)
    ensures { ClosesCircle (bytes_of document.entry) }
{
    let _ = document.as_bytes();
}
