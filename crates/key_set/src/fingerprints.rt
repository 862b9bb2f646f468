//! Fingerprints of keys: parts of their hashes in a table. One look at it tells most keys apart.
#![tactic(auto)]

ghost use Rattle.std.specs.Prelude.{◌≡◌, ◌≢◌, ℕ, List, IsTrue, IfOk, IfSome};
ghost use Rattle.key_set.specs.Fingerprints.{hash_of, fingerprint_of, HaveFingerprints, IsFreeFrom, IsFingerprintAt, HasFingerprint};
ghost use Rattle.key_set.specs.References.{texts};

use std::alloc::{AllocError, Global};
use std::hash::{FoldHasher, Hasher};

/// How many slots are looked at for one key. If at most half of them are taken, keys that nobody chose need
/// fewer.
const MOST_PROBES: usize = 128;

/// The number of keys that the first tables have room for. Each table after these has room for twice as many
/// as the one before.
const ROOMS: [usize; 5] = [128, 1024, 4096, 16384, 131072];

/// How many keys may collide before there is room for twice as many keys. Each collision costs a look through
/// all keys. Keys that nobody chose hardly ever collide.
const MOST_COLLISIONS: usize = 8;

/// The fingerprints of keys. That of a key is at the place that its hash gives or after it, with no free slot
/// between.
#[derive(Drop)]
pub(crate) struct Fingerprints {
    /// the fingerprints; 0 where a slot is free
    slots: Vec<u32>,
    /// the greatest place that a hash gives
    mask: usize,
    /// how many more fingerprints fit
    room: usize,
    /// how many more keys may collide
    collisions: usize,
}

pub(crate) fn hash_of(key: &str) -> u64
    ensures { result ≡ hash_of key.now }
{
    let mut hasher = FoldHasher::default();
    hasher.write(key.as_bytes());
    hasher.finish()
}

#[inline(always)]
fn fingerprint_of(hash: u64) -> u32
    ensures fingerprint { result ≡ fingerprint_of hash }
    ensures some { result ≢ 0 }
{
    ((hash >> 32) as u32).max(1)
}

/// The first free slot from `start` on, unless the fingerprint is before it or too many slots would have to
/// be looked at.
#[inline(always)]
fn free_slot(slots: &[u32], start: usize, fingerprint: u32) -> Option<usize>
    ensures free { IfSome result (IsFreeFrom slots.now start fingerprint) }
{
    let mut at = start;
    'probes: for _ in 0..MOST_PROBES {
        let slot = *slots.get(at)?;
        if slot == 0 {
            return Some(at);
        }
        if slot == fingerprint {
            return None;
        }
        at += 1;
    }
    None
}

/// Whether the fingerprint is found from `start` on, with no free slot before it, without looking at too many
/// slots.
fn has_fingerprint(slots: &[u32], start: usize, fingerprint: u32) -> bool
    ensures { IsTrue result → IsFingerprintAt slots.now start fingerprint }
{
    let mut at = start;
    'probes: for _ in 0..MOST_PROBES {
        let Some(slot) = slots.get(at) else {
            return false;
        };
        if *slot == fingerprint {
            return true;
        }
        if *slot == 0 {
            return false;
        }
        at += 1;
    }
    false
}

/// The room of the first table that has room for more than `keys` keys.
fn room_behind(keys: usize) -> usize {
    for room in ROOMS {
        if keys < room {
            return room;
        }
    }
    keys.saturating_add(1)
        .checked_next_power_of_two()
        .unwrap_or(usize::MAX)
}

impl Fingerprints {
    /// No fingerprints, with room for more than `keys` of them.
    pub(crate) fn for_keys(alloc: Global, keys: usize) -> Result<Fingerprints, AllocError> {
        let room = room_behind(keys);
        let starts = room.saturating_mul(2);
        let mut slots = Vec::new(alloc);
        slots.resize(starts.saturating_add(MOST_PROBES), 0)?;
        Ok(Fingerprints {
            slots,
            mask: starts.saturating_sub(1),
            room,
            collisions: MOST_COLLISIONS,
        })
    }

    /// How many more fingerprints fit.
    pub(crate) fn room(&self) -> usize {
        self.room
    }

    /// Whether no more fingerprint fits.
    pub(crate) fn is_full(&self) -> bool {
        self.room == 0
    }

    /// Adds the fingerprint of a key and returns true if no hashed key is equal to it. Returns false and adds
    /// nothing if there is no room or a hashed key may be equal.
    #[inline(always)]
    pub(crate) fn put(&mut self, key: &str) -> bool
        ensures new { IsTrue result → (¬ HasFingerprint self.old key.now) × HasFingerprint self.new key.now }
        ensures kept { (k : List ℕ) → HasFingerprint self.old k → HasFingerprint self.new k }
    {
        if self.room == 0 {
            return false;
        }
        let hash = hash_of(key);
        let fingerprint = fingerprint_of(hash);
        let Some(at) = free_slot(&self.slots, hash as usize & self.mask, fingerprint) else {
            return false;
        };
        self.slots[at] = fingerprint;
        self.room -= 1;
        true
    }

    /// Whether the fingerprint of a key is found. It may be that of another key.
    #[inline(never)]
    fn has(&self, key: &str) -> bool
        ensures { IsTrue result → HasFingerprint self.now key.now }
    {
        let hash = hash_of(key);
        has_fingerprint(&self.slots, hash as usize & self.mask, fingerprint_of(hash))
    }

    /// Counts a collision, which is a key whose fingerprint is found. Returns false if it isn't found or if
    /// too many were counted.
    pub(crate) fn collide(&mut self, key: &str) -> bool
        ensures hashed { IsTrue result → HasFingerprint self.new key.now }
        ensures kept { (k : List ℕ) → HasFingerprint self.old k → HasFingerprint self.new k }
    {
        if self.collisions == 0 || !self.has(key) {
            return false;
        }
        self.collisions -= 1;
        true
    }

    /// Adds the fingerprint of a key, unless it is found. Returns false if there is no room.
    fn add(&mut self, key: &str) -> bool
        ensures hashed { IsTrue result → HasFingerprint self.new key.now }
        ensures kept { (k : List ℕ) → HasFingerprint self.old k → HasFingerprint self.new k }
    {
        if self.put(key) {
            return true;
        }
        self.has(key)
    }

    /// Adds the fingerprint of each of these keys. Returns false if there is no room for all.
    fn add_all(&mut self, keys: &[&str]) -> bool
        ensures hashed { IsTrue result → HaveFingerprints self.new (texts keys.now) }
    {
        for key in keys {
            if !self.add(*key) {
                return false;
            }
        }
        true
    }

    /// The fingerprints of these keys, with room for more; `None` if not all of them fit.
    pub(crate) fn of(alloc: Global, keys: &[&str]) -> Result<Option<Fingerprints>, AllocError>
        ensures fingerprints { IfOk result (λ fingerprints. IfSome fingerprints (λ fingerprints. HaveFingerprints fingerprints (texts keys.now))) }
    {
        let mut fingerprints = Fingerprints::for_keys(alloc, keys.len())?;
        Ok(if fingerprints.add_all(keys) {
            Some(fingerprints)
        } else {
            None
        })
    }
}
