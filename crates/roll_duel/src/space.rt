//! Places and distances on the field, which wraps.
ghost use Rattle.std.specs.Prelude.{◌≡◌, ◌<◌, ◌≤◌};
ghost use Rattle.roll_duel.specs.Space.{moved_by as place_after, distance as way_between};

/// The width of the field.
pub(crate) const WIDTH: u32 = 81_920;

/// The height of the field.
pub(crate) const HEIGHT: u32 = 61_440;

/// The place after a frame at this speed, on a field of this size.
pub(crate) fn moved_by(size: u32, speed: i16, place: u32) -> u32
    requires inside { place < size }
    requires small { size ≤ 81920 }
    ensures value { result ≡ place_after size speed place }
    ensures still_inside { result < size }
{
    (place as i32 + i32::from(speed)).rem_euclid(size as i32) as u32
}

/// The way from one place to another, round the field if that is shorter.
pub(crate) fn distance(size: u32, a: u32, b: u32) -> u32
    requires a_inside { a < size }
    requires b_inside { b < size }
    requires small { size ≤ 81920 }
    ensures { result ≡ way_between size a b }
{
    let gap = (a + (size - b)) % size;
    gap.min(size - gap)
}
