//! The first line of a script.
ghost use Rattle.std.specs.Prelude.{◌≡◌, ◌≢◌, ◌≤◌, ◌++◌, ◌↔◌, Some, IfOk, IfSome, IsTrue, OnOk, length, map};
ghost use Rattle.std.specs.Option.{option_map};
ghost use Rattle.std.specs.Fmt.{decimal};
ghost use Rattle.std.specs.List.{All};
ghost use Rattle.roll_text.specs.Numbers.{IsWord, list_of};
ghost use Rattle.roll_text.specs.Text.{Reads};
ghost use Rattle.prog_scripts.specs.Headers.{IsRising, IsSetup, Setup, bits_of, header_fields, header_of, in_places as placed, mask_count, setup_of, settings_of, version_field};

use roll_frame::{DELAY_LIMIT, FRAME_LIMIT, LOG_LIMIT, PLAYER_LIMIT, Profile, Settings};
use roll_text::{fields, number, numbers, push_list, push_number};
use std::alloc::{AllocError, Global};

/// The forms of a header.
#[derive(Clone, Copy, Debug, PartialEq, Eq)]
pub enum Version {
    /// `roll 1`: all bits of a word are predicted as held.
    Plain,
    /// `roll 2`: with a mask for each player.
    Masked,
    /// `roll 3`: with masks, in the wide profile.
    Wide,
}

/// How a script opens its session. It can ask for more than a session takes, which is refused when it starts.
#[derive(Debug, Drop)]
pub struct Header {
    pub version: Version,
    /// 1 to 8.
    pub players: u32,
    /// The numbers of the local players, rising.
    pub local: Vec<u32>,
    /// Each player's delay.
    pub delays: Vec<u32>,
    /// Each player's mask; none in a plain header.
    pub masks: Vec<u32>,
    pub threshold: u32,
}

impl Header {
    /// The header that a line spells, given without its end.
    ///
    /// # Errors
    ///
    /// `AllocError` if the allocator has no room.
    pub fn read(alloc: Global, line: &[u8]) -> Result<Option<Header>, AllocError>
        ensures { IfOk result (λ header. Reads IsSetup header_of line.now
            (option_map setup_of header)) }
    {
        let fields = fields(alloc, line, b' ')?;
        let Some(header) = Header::from_fields(alloc, &fields)? else {
            return Ok(None);
        };
        let mut text = Vec::new(alloc);
        header.push(&mut text)?;
        if text.as_slice() == line {
            Ok(Some(header))
        } else {
            Ok(None)
        }
    }

    /// The only header that can have these fields. It looks at the values alone.
    fn from_fields(alloc: Global, fields: &[&[u8]]) -> Result<Option<Header>, AllocError>
        ensures sound { IfOk result
            (λ header. IfSome header (λ header. IsSetup (setup_of header))) }
        ensures complete { (setup : Setup) → IsSetup setup → map (λ field. field.now) fields.now
            ≡ header_fields setup → IfOk result
            (λ header. option_map setup_of header ≡ Some setup) }
    {
        match fields {
            [_, _, _, players, _, local, _, delays, _, threshold] => {
                from_values(
                    alloc,
                    Version::Plain,
                    players,
                    local,
                    delays,
                    b"",
                    threshold,
                )
            }
            [
                _,
                version,
                _,
                players,
                _,
                local,
                _,
                delays,
                _,
                masks,
                _,
                threshold,
            ] => {
                let version = masked_version(version);
                from_values(alloc, version, players, local, delays, masks, threshold)
            }
            _ => Ok(None),
        }
    }

    /// Writes its line at the end, without the line's end.
    fn push(&self, out: &mut Vec<u8>) -> Result<(), AllocError>
        requires { IsSetup (setup_of self.now) }
        ensures { OnOk result (out.new.items ≡ out.old.items ++ header_of (setup_of self.now)) }
    {
        out.extend_from_slice(b"roll ")?;
        out.push(self.version.digit())?;
        out.extend_from_slice(b" players ")?;
        push_number(out, self.players)?;
        out.extend_from_slice(b" local ")?;
        push_list(out, &self.local)?;
        out.extend_from_slice(b" delay ")?;
        push_list(out, &self.delays)?;
        if !self.masks.is_empty() {
            out.extend_from_slice(b" mask ")?;
            push_list(out, &self.masks)?;
        }
        out.extend_from_slice(b" threshold ")?;
        push_number(out, self.threshold)?;
        Ok(())
    }

    /// The settings that it asks for.
    pub fn settings(&self) -> Settings
        requires { IsSetup (setup_of self.now) }
        ensures { result ≡ settings_of (setup_of self.now) }
    {
        Settings {
            profile: self.version.profile(),
            players: self.players as u8,
            local: bits(&self.local),
            delays: in_places(0, &self.delays),
            masks: in_places(u32::MAX, &self.masks),
            before: [0; PLAYER_LIMIT],
            first: [[0; DELAY_LIMIT as usize]; PLAYER_LIMIT],
            threshold: self.threshold,
            limit: FRAME_LIMIT,
            log: LOG_LIMIT,
        }
    }
}

impl Version {
    ghost use Rattle.std.specs.Prelude.{◌≡◌, ◌∷◌, []};
    ghost use Rattle.prog_scripts.specs.Headers.{profile_of, version_field};

    fn digit(&self) -> u8
        ensures { result ∷ [] ≡ version_field self.now }
    {
        match self {
            Version::Plain => b'1',
            Version::Masked => b'2',
            Version::Wide => b'3',
        }
    }

    fn profile(&self) -> Profile
        ensures { result ≡ profile_of self.now }
    {
        match self {
            Version::Plain | Version::Masked => Profile::Ggpo,
            Version::Wide => Profile::Wide,
        }
    }
}

/// The version of a header with masks that has this digit.
fn masked_version(digit: &[u8]) -> Version
    ensures plain { result ≢ Version.Plain }
    ensures masked { digit.now ≡ version_field Version.Masked → result ≡ Version.Masked }
    ensures wide { digit.now ≡ version_field Version.Wide → result ≡ Version.Wide }
{
    if digit == b"3".as_slice() {
        Version::Wide
    } else {
        Version::Masked
    }
}

/// The header whose values these texts are, if they are in range. A plain header has no masks.
fn from_values(
    alloc: Global,
    version: Version,
    players: &[u8],
    local: &[u8],
    delays: &[u8],
    masks: &[u8],
    threshold: &[u8],
) -> Result<Option<Header>, AllocError>
    ensures sound { IfOk result (λ header. IfSome header (λ header. IsSetup (setup_of header))) }
    ensures complete { (setup : Setup) → IsSetup setup → version ≡ setup.version
        → players.now ≡ decimal setup.players → local.now ≡ list_of setup.local
        → delays.now ≡ list_of setup.delays → masks.now ≡ list_of setup.masks
        → threshold.now ≡ decimal setup.threshold
        → IfOk result (λ header. option_map setup_of header ≡ Some setup) }
{
    let Some(players) = number(players) else {
        return Ok(None);
    };
    let Some(local) = numbers(alloc, local)? else {
        return Ok(None);
    };
    let Some(delays) = numbers(alloc, delays)? else {
        return Ok(None);
    };
    let Some(masks) = read_masks(alloc, masks)? else {
        return Ok(None);
    };
    let Some(threshold) = number(threshold) else {
        return Ok(None);
    };
    if !is_player(players) || !is_rising(&local) {
        return Ok(None);
    }
    if delays.len() != players as usize || masks.len() != masks_wanted(version, players) {
        return Ok(None);
    }
    Ok(Some(Header {
        version,
        players,
        local,
        delays,
        masks,
        threshold,
    }))
}

/// The masks that a text spells; an empty one spells none.
fn read_masks(alloc: Global, text: &[u8]) -> Result<Option<Vec<u32>>, AllocError>
    ensures { IfOk result (λ masks. Reads (All IsWord) list_of text.now
        (option_map (λ masks. masks.items) masks)) }
{
    if text.is_empty() {
        Ok(Some(Vec::new(alloc)))
    } else {
        numbers(alloc, text)
    }
}

/// How many masks a header has.
fn masks_wanted(version: Version, players: u32) -> usize
    ensures { result ≡ mask_count version players }
{
    match version {
        Version::Plain => 0,
        Version::Masked | Version::Wide => players as usize,
    }
}

/// Whether there can be a player of this number, or so many players.
fn is_player(n: u32) -> bool
    ensures { IsTrue result ↔ ((1 ≤ n) × (n ≤ PLAYER_LIMIT)) }
{
    1 <= n && n as usize <= PLAYER_LIMIT
}

/// Whether each is the number of a player, and above the one before it.
fn is_rising(numbers: &[u32]) -> bool
    ensures { IsTrue result ↔ IsRising 0 numbers.now }
{
    let mut last = 0;
    for n in numbers {
        if *n <= last || *n as usize > PLAYER_LIMIT {
            return false;
        }
        last = *n;
    }
    true
}

/// Bit p - 1 for each player p.
fn bits(players: &[u32]) -> u8
    requires { IsRising 0 players.now }
    ensures { result ≡ bits_of players.now }
{
    let mut bits = 0;
    for p in players {
        bits |= 1 << (*p - 1);
    }
    bits
}

/// The numbers in the first places, and `rest` in the others.
fn in_places(rest: u32, numbers: &[u32]) -> [u32; PLAYER_LIMIT]
    requires { length numbers.now ≤ PLAYER_LIMIT }
    ensures { result ≡ placed rest numbers.now }
{
    let mut places = [rest; PLAYER_LIMIT];
    places[..numbers.len()].copy_from_slice(numbers);
    places
}
