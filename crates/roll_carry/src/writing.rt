//! Maps and parcels to bytes.
ghost use Rattle.std.specs.Prelude.{◌≡◌, ◌+◌, ◌*◌, ◌≤◌, ◌<◌, ◌++◌, length, List};
ghost use Rattle.std.specs.List.{AllByRecursion};
ghost use Rattle.roll_wire.specs.Spelling.{IsEnvelope};
ghost use Rattle.roll_wire.specs.declared.limits.TheConstants.{DATAGRAM_LIMIT};
ghost use Rattle.roll_mesh.specs.declared.limits.TheConstants.{MACHINE_LIMIT};
ghost use Rattle.roll_carry.specs.Spelling.{Carries, Fits, IsHearing, IsParcel, Maps, ParcelValue, area_text, head, hearing_text, map_text, message_by, parcel_text, parcel_value, said_by};
ghost use Rattle.roll_carry.specs.declared.limits.TheConstants.{AREA_LIMIT, HEAD, LABEL, TAIL_LEAST};

use crate::datagram::{Hearing, Parcel};
use crate::limits::{AREA_LIMIT, CARRIED, MAP};
use arrayvec::ArrayVec;
use roll_contact::Key;
use roll_contact::seal::seal;
use roll_mesh::MACHINE_LIMIT;
use roll_wire::bytes::{mask_of, put};
use roll_wire::{DATAGRAM_LIMIT, MAGIC};

type Bytes = ArrayVec<u8, DATAGRAM_LIMIT>;

/// The 14 bytes that a datagram of a kind begins with, before it is sealed.
fn begin(key: &Key, sender: u8, kind: u8) -> Bytes
    ensures items { result.items
        ≡ head kind (record { match_number = key.now.number; sender = sender }) }
    ensures len { length result.items ≡ HEAD }
    ensures fits { IsEnvelope (record { match_number = key.now.number; sender = sender }) }
{
    let mut out = ArrayVec::new();
    put(&mut out, &MAGIC.to_be_bytes());
    put(&mut out, &key.number.to_be_bytes());
    out.push(sender);
    out.push(kind);
    out
}

fn put_hearing(out: &mut Bytes, hearing: &Hearing)
    requires { length out.old.items + 5 ≤ DATAGRAM_LIMIT }
    ensures items { out.new.items ≡ out.old.items ++ hearing_text hearing.now }
    ensures len { length out.new.items ≡ length out.old.items + 5 }
    ensures fits { IsHearing hearing.now }
{
    out.push(mask_of(hearing.hears.as_slice()));
    put(out, &hearing.number.to_be_bytes());
}

fn put_map(out: &mut Bytes, map: &[Hearing])
    requires { length out.old.items + 5 * length map.now ≤ DATAGRAM_LIMIT }
    ensures items { out.new.items ≡ out.old.items ++ map_text map.now }
    ensures len { length out.new.items ≡ length out.old.items + 5 * length map.now }
    ensures fits { AllByRecursion IsHearing map.now }
{
    for hearing in map {
        put_hearing(out, hearing);
    }
}

/// The bytes by which a sender tells who has the key whom each machine hears straight, machine 0 first.
pub fn say_map(key: &Key, sender: u8, map: &[Hearing]) -> ArrayVec<u8, DATAGRAM_LIMIT>
    requires { length map.now ≤ MACHINE_LIMIT }
    ensures said { result.items ≡ said_by key.now sender (Maps map.now) }
    ensures fits { Fits (message_by key.now sender (Maps map.now)) }
{
    let mut bytes = begin(key, sender, MAP);
    put_map(&mut bytes, map);
    seal(&mut bytes, key);
    bytes
}

/// Puts a parcel behind others.
pub(crate) fn push_parcel(area: &mut ArrayVec<u8, AREA_LIMIT>, parcel: &Parcel)
    requires least { TAIL_LEAST ≤ length parcel.now.tail.now }
    requires room { length area.old.items + (LABEL + length parcel.now.tail.now) ≤ AREA_LIMIT }
    ensures items { area.new.items ≡ area.old.items ++ parcel_text (parcel_value parcel.now) }
    ensures len { length area.new.items
        ≡ length area.old.items + (LABEL + length parcel.now.tail.now) }
    ensures fits { IsParcel (parcel_value parcel.now) }
{
    let size = parcel.tail.len() as u16;
    area.push(parcel.to);
    area.push(parcel.steps);
    put(area, &size.to_be_bytes());
    put(area, parcel.tail);
}

/// The bytes by which a sender gives parcels, one behind the other, to who has the key.
pub fn say_parcels(key: &Key, sender: u8, area: &[u8]) -> ArrayVec<u8, DATAGRAM_LIMIT>
    requires { length area.now ≤ AREA_LIMIT }
    ensures said { (parcels : List ParcelValue) → area.now ≡ area_text parcels
        → result.items ≡ said_by key.now sender (Carries parcels) }
    ensures fits { (parcels : List ParcelValue) → area.now ≡ area_text parcels
        → AllByRecursion IsParcel parcels → Fits (message_by key.now sender (Carries parcels)) }
{
    let mut bytes = begin(key, sender, CARRIED);
    put(&mut bytes, area);
    seal(&mut bytes, key);
    bytes
}
