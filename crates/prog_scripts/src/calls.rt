//! The calls of a session that commands ask for.
ghost use Rattle.std.specs.Prelude.{◌≡◌};
ghost use Rattle.prog_scripts.specs.Calls.{call_of, narrowed};

use crate::command::Command;
use roll_session::Call;

/// The call that a command asks for. A number that is past those of any player stands for none, as 0 does.
#[inline(always)]
pub fn call(command: &Command) -> Option<Call>
    ensures { result ≡ call_of command.now }
{
    match command {
        Command::Local { player, word } => Some(Call::Local {
            player: player_number(*player),
            word: *word,
        }),
        Command::Remote {
            player,
            frame,
            word,
        } => Some(Call::Remote {
            player: player_number(*player),
            frame: *frame,
            word: *word,
        }),
        Command::Disconnect { player } => Some(Call::Disconnect {
            player: player_number(*player),
        }),
        Command::Sync => Some(Call::Sync),
        Command::Advance => Some(Call::Advance),
        Command::Guess { .. } | Command::Extend { .. } | Command::Claim => None,
    }
}

/// A player's number as a call has it: 0, which is nobody's, for one that is past those of any player.
pub fn player_number(n: u32) -> u8
    ensures { result ≡ narrowed n }
{
    u8::try_from(n).unwrap_or(0)
}
