//! Datagrams as they are on the network: where the number was, a tag stands that only who knows the key can make: HMAC with
//! SHA-256. Takes no memory.
ghost use Rattle.std.specs.Prelude.{◌≡◌, ◌≤◌, ◌++◌, ℕ, List, length, option_map, true, Some, IfSome};
ghost use Rattle.std.specs.Str.{bytes_eq};
ghost use Rattle.sha2.specs.Hashers.{Holds256};
ghost use Rattle.sha2.specs.Sha256.{sha256};
ghost use Rattle.roll_contact.specs.Seals.{HasNumber, IsSealed, field, hmac, message_by, named, said_by, sealed, tag, unsealed, with_field};
ghost use Rattle.roll_wire.specs.Spelling.{content, is_whole, Fits};

use crate::key::Key;
use arrayvec::ArrayVec;
use roll_wire::{Body, DATAGRAM_LIMIT, Datagram, Envelope, encode};
use sha2::{Digest, Sha256};
use std::marker::Model;

type Bytes = ArrayVec<u8, DATAGRAM_LIMIT>;

/// What a key's first or second pad is made by.
const INNER: u8 = 0x36;

const OUTER: u8 = 0x5C;

/// Seals and opens datagrams by a key. It keeps the states of SHA-256 after the key's two pads, so that a tag costs two blocks
/// less than with a key alone.
#[derive(Drop)]
pub struct Sealer {
    key: Key,
    inner: Sha256,
    outer: Sha256,
}

/// A clause sees its key.
impl Model for Sealer {
    ghost use Rattle.roll_contact.specs.Sealers.{AreStatesOf};
    ghost use Rattle.roll_contact.specs.declared.key.Key.{Key};

    ghost Value = { Key };

    ghost view = { λ s. s.key };

    ghost invariant = { λ s. AreStatesOf s.key s.inner s.outer };
}

/// What SHA-256 is at after bytes.
fn state_after(bytes: &[u8]) -> Sha256
    ensures { Holds256 result bytes.now }
{
    Sha256::new_with_prefix(bytes)
}

/// The digest of what a state holds, and of bytes after it.
fn digest_after(state: &Sha256, bytes: &[u8]) -> [u8; 32]
    ensures { (held : List ℕ) → Holds256 state.now held → result ≡ sha256 (held ++ bytes.now) }
{
    match state.clone() {
        Ok(mut hasher) => {
            hasher.update(bytes);
            hasher.finalize()
        }
        Err(_) => unreachable!(),
    }
}

impl Sealer {
    /// Seals and opens by this key.
    pub fn new(key: Key) -> Sealer
        ensures { result ≡ key }
    {
        Sealer {
            key,
            inner: state_after(&key.padded(INNER)),
            outer: state_after(&key.padded(OUTER)),
        }
    }

    /// Seals and opens by another key from now on, or by the same: then what it keeps is kept.
    pub fn turn_to(&mut self, key: &Key)
        ensures { self.new ≡ key.now }
    {
        if self.key != *key {
            *self = Sealer::new(*key);
        }
    }

    /// A datagram's digest by the key.
    fn hmac_of(&self, datagram: &[u8]) -> [u8; 32]
        ensures { result ≡ hmac self.now datagram.now }
    {
        let inner = digest_after(&self.inner, datagram);
        digest_after(&self.outer, &inner)
    }

    /// Its first 8 bytes.
    fn tag_of(&self, datagram: &[u8]) -> [u8; 8]
        ensures { result ≡ tag self.now datagram.now }
    {
        let [a, b, c, d, e, f, g, h, ..] = self.hmac_of(datagram);
        [a, b, c, d, e, f, g, h]
    }

    /// Puts the tag where the number is.
    pub fn seal(&self, datagram: &mut ArrayVec<u8, DATAGRAM_LIMIT>)
        requires { 12 ≤ length datagram.old.items }
        ensures sealed { datagram.new.items ≡ sealed self.now datagram.old.items }
        ensures len { length datagram.new.items ≡ length datagram.old.items }
        // Who knows the key gets the datagram back.
        ensures again { HasNumber self.now.number datagram.old.items
            → unsealed self.now datagram.new.items ≡ Some datagram.old.items }
    {
        let tag = self.tag_of(datagram);
        put_field(datagram, tag);
    }

    /// The bytes by which a sender says something to who has the key: a datagram with the key's number, sealed.
    pub fn say(&self, sender: u8, body: Body) -> ArrayVec<u8, DATAGRAM_LIMIT>
        requires { is_whole (content body) ≡ true }
        ensures said { result.items ≡ said_by self.now sender (content body) }
        ensures fits { Fits (message_by self.now sender (content body)) }
    {
        let envelope = Envelope {
            match_number: self.key.number,
            sender,
        };
        match encode(&Datagram { envelope, body }) {
            Some(mut bytes) => {
                self.seal(&mut bytes);
                bytes
            }
            None => unreachable!(),
        }
    }

    /// The datagram that was sealed by the key as these bytes. None if there is no such datagram: they are too few or too many, or
    /// the tag is another.
    pub fn unseal(&self, bytes: &[u8]) -> Option<ArrayVec<u8, DATAGRAM_LIMIT>>
        ensures found { IfSome result (λ datagram. IsSealed self.now bytes.now
            × (datagram.items ≡ named self.now.number bytes.now)) }
        ensures exact { option_map (λ datagram. datagram.items) result
            ≡ unsealed self.now bytes.now }
    {
        if bytes.len() < 12 {
            return None;
        }
        let Ok(mut datagram) = Bytes::try_from(bytes) else {
            return None;
        };
        put_field(&mut datagram, self.key.number.to_be_bytes());
        if are_same(self.tag_of(&datagram), field_of(bytes)) {
            Some(datagram)
        } else {
            None
        }
    }
}

/// The 8 bytes in the place of the number.
fn field_of(datagram: &[u8]) -> [u8; 8]
    requires { 12 ≤ length datagram.now }
    ensures { result ≡ field datagram.now }
{
    [
        datagram[4],
        datagram[5],
        datagram[6],
        datagram[7],
        datagram[8],
        datagram[9],
        datagram[10],
        datagram[11],
    ]
}

/// Puts 8 bytes there.
fn put_field(datagram: &mut Bytes, field: [u8; 8])
    requires { 12 ≤ length datagram.old.items }
    ensures { datagram.new.items ≡ with_field field datagram.old.items }
{
    datagram[4..12].copy_from_slice(&field);
}

/// Whether two tags are the same. As two numbers are compared, it takes the same time whichever
/// bytes differ.
fn are_same(one: [u8; 8], other: [u8; 8]) -> bool
    ensures { result ≡ bytes_eq one other }
{
    u64::from_be_bytes(one) == u64::from_be_bytes(other)
}

/// Puts the tag where the number is.
pub fn seal(datagram: &mut ArrayVec<u8, DATAGRAM_LIMIT>, key: &Key)
    requires { 12 ≤ length datagram.old.items }
    ensures sealed { datagram.new.items ≡ sealed key.now datagram.old.items }
    ensures len { length datagram.new.items ≡ length datagram.old.items }
    // Who knows the key gets the datagram back.
    ensures again { HasNumber key.now.number datagram.old.items
        → unsealed key.now datagram.new.items ≡ Some datagram.old.items }
{
    Sealer::new(*key).seal(datagram);
}

/// The bytes by which a sender says something to who has the key: a datagram with the key's number, sealed.
pub fn say(key: &Key, sender: u8, body: Body) -> ArrayVec<u8, DATAGRAM_LIMIT>
    requires { is_whole (content body) ≡ true }
    ensures said { result.items ≡ said_by key.now sender (content body) }
    ensures fits { Fits (message_by key.now sender (content body)) }
{
    Sealer::new(*key).say(sender, body)
}

/// The datagram that was sealed by this key as these bytes. None if there is no such datagram: they are too few or too many, or
/// the tag is another.
pub fn unseal(bytes: &[u8], key: &Key) -> Option<ArrayVec<u8, DATAGRAM_LIMIT>>
    ensures found { IfSome result (λ datagram. IsSealed key.now bytes.now
        × (datagram.items ≡ named key.now.number bytes.now)) }
    ensures exact { option_map (λ datagram. datagram.items) result
        ≡ unsealed key.now bytes.now }
{
    Sealer::new(*key).unseal(bytes)
}
