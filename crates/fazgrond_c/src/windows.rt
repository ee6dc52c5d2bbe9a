//! Windows of numbers, for games in other languages: plain values, which need no handle.
ghost use Rattle.std.specs.Prelude.{◌≡◌, ℕ, List, false, if◌then◌else◌};
ghost use Rattle.roll_contact.specs.Windows.{IsWindowOf, after, is_new};

use roll_contact::Window;

/// Whether a number is new: 1 if so, else 0.
#[unsafe(no_mangle)]
pub extern "C" fn fazgrond_window_is_new(window: &Window, number: u64) -> u32
    ensures { (taken : List ℕ) → IsWindowOf taken window.now
        → result ≡ (if is_new taken number then 1 else 0) }
{
    u32::from(window.is_new(number))
}

/// Takes a number, if it is new: 1 if so, else 0, and nothing changes.
#[unsafe(no_mangle)]
pub extern "C" fn fazgrond_window_note(window: &mut Window, number: u64) -> u32
    ensures taken { (taken : List ℕ) → IsWindowOf taken window.old
        → IsWindowOf (after taken number) window.new }
    ensures answer { (taken : List ℕ) → IsWindowOf taken window.old
        → result ≡ (if is_new taken number then 1 else 0) }
    ensures refused { result ≡ 0 → window.new ≡ window.old }
{
    u32::from(window.take(number))
}
