//! A window that stands where it is wanted.
ghost use Rattle.std.specs.Prelude.{◌≡◌, ◌+◌, ◌<◌, ◌^◌, ℕ, List, length};
ghost use Rattle.net_io.specs.file_window.Window.{IsFrom};

use net_io::Window;

/// Brings the window, which stands at `place`, to the octet `at`. What it holds from there on stays; in front of its place nothing is held.
pub(crate) fn move_to(at: u64, place: &mut u64, window: &mut Window)
    requires { place.old + length window.old < 2 ^ 64 }
    ensures moved { place.new ≡ at }
    ensures ahead { (file : List ℕ) → IsFrom file place.old window.old → IsFrom file at window.new }
    ensures place { at + length window.new < 2 ^ 64 }
{
    if at < *place {
        window.clear();
    } else {
        window.skip((at - *place) as usize);
    }
    *place = at;
}
