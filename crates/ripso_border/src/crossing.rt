//! What becomes of a packet at a border.

ghost use Rattle.std.specs.Prelude.{◌<◌};
ghost use Rattle.std.specs.Option.{option_copied};
ghost use Rattle.ripso_border.specs.Crossing.{HasCrossed};

use crate::border::{Border, Way};
use crate::entering::cross_in;
use crate::leaving::cross_out;
use crate::swap::denied;
use label_receive::Room;
use packet_label::{Denial, Stop};

/// Writes what becomes of the packet in a frame, or denies it: `out` becomes exactly the packet, and is empty after a stop. The labels of
/// the room may be any then.
///
/// In: NotIp where the frame has no packet; BadHeader at the headers' first fault; WrongVersion in version 6; AlreadyLabelled at an
/// option 134; Unlabelled without option 130; BadOption at a second option 130, or else at the first one's fault; LevelUnmapped and
/// CategoryUnmapped where the definition has no local number; Inexpressible where no tag of the definition can say the label; NoRoom and
/// TooLong where the options pass 40 octets, or the packet 65,535.
///
/// Out: NotIp; BadHeader and BadOption at the packet's first fault; WrongVersion in version 6; Unlabelled without option 134;
/// AlreadyLabelled at an option 130; UnknownDoi where the DOI is another; TagNotAllowed where the definition lacks the tag;
/// Inexpressible where the definition has no remote number, or option 130 can't say what it gives.
pub fn cross(
    border: &Border<'_>,
    part: Option<&[u8]>,
    room: &mut Room,
    out: &mut Vec<u8>,
) -> Result<(), Stop>
    requires { 0 < border.now.doi }
    ensures { HasCrossed border.now.way border.now.definition.now border.now.doi
        (option_copied part.entry) result out.new.items }
{
    let Some(octets) = part else {
        return Err(denied(Denial::NotIp, out));
    };
    match border.way {
        Way::In => cross_in(border, octets, room, out),
        Way::Out => cross_out(border, octets, room, out),
    }
}
