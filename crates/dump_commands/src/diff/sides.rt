//! What is gathered of the documents of two inputs that are compared.
#![tactic(auto)]

ghost use Rattle.std.specs.Prelude.{◌≡◌, [], IfErr, IfOk, OnOk};
ghost use Rattle.raw_view.specs.Frame.Envelope.{IsEnvelope};
ghost use Rattle.dump_commands.specs.diff.Sides.{IsKey, IsSide, side_of, sides_of, with_side};
ghost use Rattle.dump_commands.specs.diff.Sides as says;
ghost use Rattle.dump_io.specs.lines.Failing.{IsReading};
ghost use Rattle.dump_io.specs.lines.Origins.{origin_of};

use crate::elements::pick::picked;
use dump_io::lines::failure::Failure;
use dump_io::lines::origin::Origin;
use raw_form::canonical_within;
use raw_tree::Limits;
use raw_view::RawDocument;
use sha2::{Digest, Sha256};
use std::alloc::{AllocError, Global};

/// How two inputs are compared.
#[derive(Clone, Copy)]
pub struct Comparing<'a> {
    /// paths to the elements that make documents of both belong together
    pub by: &'a str,
    /// the name of the first input
    pub old: &'a str,
}

/// A document of an input that is compared with another.
#[derive(Clone, Copy)]
pub struct Side<'a> {
    /// where it begins
    pub place: Origin<'a>,
    /// how many bytes it has
    pub size: usize,
    /// the digest of its key
    pub key: [u8; 32],
    /// the digest of its canonical form
    pub form: [u8; 32],
}

/// How many bytes a document without elements has.
const EMPTY: usize = 5;

/// The documents of both inputs, in order.
#[derive(Drop)]
pub struct Sides<'a> {
    /// those of the first
    pub olds: Vec<Side<'a>>,
    /// those of the other
    pub news: Vec<Side<'a>>,
}

impl<'a> Sides<'a> {
    /// No documents.
    pub fn new(alloc: Global) -> Sides<'a>
        ensures { sides_of result ≡ record { olds = []; news = [] } }
    {
        Sides {
            olds: Vec::new(alloc),
            news: Vec::new(alloc),
        }
    }

    /// A document more, of the first input or of the other.
    pub fn add(&mut self, of_old: bool, side: Side<'a>) -> Result<(), AllocError>
        ensures { OnOk result (sides_of self.new ≡ with_side (sides_of self.old) of_old (side_of side.entry)) }
    {
        match of_old {
            true => self.olds.push(side)?,
            false => self.news.push(side)?,
        }
        Ok(())
    }
}

impl Comparing<'_> {
    /// Whether a document that begins there is in the first input.
    pub fn is_old(self, place: Origin<'_>) -> bool
        ensures { result ≡ says.is_old self.entry (origin_of place.entry) }
    {
        place.name == self.old
    }
}

/// What is gathered of a document without damage, which begins there. What has a barrier counts as out of memory, and so does a form that is over
/// the range of lengths.
pub fn side_at<'a>(
    alloc: Global,
    limits: Limits,
    paths: &str,
    place: Origin<'a>,
    bytes: &[u8],
) -> Result<Side<'a>, Failure>
    ensures side { IfOk result (λ s. IsSide limits paths.now (origin_of place.entry) bytes.now (side_of s)) }
    ensures failed { IfErr result (λ failure. ¬ IsReading failure) }
{
    match canonical_within(alloc, bytes, limits) {
        Ok(form) => {
            let key = key_of(alloc, paths, &form)?;
            Ok(Side {
                place,
                size: bytes.len(),
                key: Sha256::digest(&key),
                form: Sha256::digest(&form),
            })
        }
        Err(_) => Err(Failure::Memory),
    }
}

/// The key of a document with this form.
fn key_of(alloc: Global, paths: &str, form: &[u8]) -> Result<Vec<u8>, AllocError>
    requires { IsEnvelope form.now }
    ensures { IfOk result (λ key. IsKey paths.now form.now key.items) }
{
    let Ok(document) = RawDocument::from_bytes(form) else {
        unreachable!()
    };
    let mut key = picked(alloc, document, paths)?;
    if key.len() <= EMPTY {
        key.extend_from_slice(form)?;
    }
    Ok(key)
}
