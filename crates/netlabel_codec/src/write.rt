//! Label options from a level and runs of categories.

ghost use Rattle.std.specs.Prelude.{◌≡◌, ◌≤◌, [], length};
ghost use Rattle.netlabel_codec.specs.Status.{IsCodeOf};
ghost use Rattle.netlabel_codec.specs.Written.{Delivers, IsCalipsoOf, IsCipsoOf, WritesOption};
ghost use Rattle.netlabel_codec.specs.inside.Answered.{answered};

use crate::put::put_octets;
use crate::runs::{add_runs, ascend};
use crate::{NetlabelRun, Status};
use arrayvec::ArrayVec;
use calipso_option::{MOST_OCTETS as CALIPSO_OCTETS, write_calipso};
use cipso_option::{MOST_OCTETS as CIPSO_OCTETS, write_cipso};
use cipso_tags::tag_of_type;
use mls_label::Label;

/// Writes a CIPSO option with a tag of this type, and tells its length: `netlabel_write_cipso`.
#[unsafe(no_mangle)]
pub extern "C" fn netlabel_write_cipso(
    doi: u32,
    tag: u8,
    level: u8,
    runs: &[NetlabelRun],
    out: &mut [u8],
    length: &mut usize,
) -> u32
    ensures writes { IsCodeOf
        (WritesOption (IsCipsoOf doi tag level runs.now) out.old out.new length.new) result }
    ensures few { length.new ≤ CIPSO_OCTETS }
{
    let mut text = ArrayVec::new();
    let asked = cipso_of(doi, tag, level, runs, &mut text);
    deliver(asked, &text, out, length).code()
}

/// Writes a CALIPSO option of the fewest words that hold the categories, and tells its length: `netlabel_write_calipso`.
#[unsafe(no_mangle)]
pub extern "C" fn netlabel_write_calipso(
    doi: u32,
    level: u8,
    runs: &[NetlabelRun],
    out: &mut [u8],
    length: &mut usize,
) -> u32
    ensures writes { IsCodeOf
        (WritesOption (IsCalipsoOf doi level runs.now) out.old out.new length.new) result }
    ensures few { length.new ≤ CALIPSO_OCTETS }
{
    let mut text = ArrayVec::new();
    let asked = calipso_of(doi, level, runs, &mut text);
    deliver(asked, &text, out, length).code()
}

// Puts the option into the caller's buffer, where there is one.
fn deliver(asked: Result<(), Status>, text: &[u8], out: &mut [u8], count: &mut usize) -> Status
    ensures delivers { Delivers (answered asked text.now) out.old out.new count.new result }
    ensures few { count.new ≤ length text.now }
{
    match asked {
        Ok(()) => {
            *count = text.len();
            put_octets(text, out)
        }
        Err(cause) => {
            *count = 0;
            cause
        }
    }
}

fn cipso_of(
    doi: u32,
    tag: u8,
    level: u8,
    runs: &[NetlabelRun],
    text: &mut ArrayVec<u8, CIPSO_OCTETS>,
) -> Result<(), Status>
    requires { text.old.items ≡ [] }
    ensures { IsCipsoOf doi tag level runs.now (answered result text.new.items) }
{
    if !ascend(runs) {
        return Err(Status::BadRuns);
    }
    if doi == 0 {
        return Err(Status::BadDoi);
    }
    let Some(tag) = tag_of_type(tag) else {
        return Err(Status::BadTag);
    };
    let mut label = Label::lowest();
    label.level = level;
    let Ok(()) = add_runs(runs, &mut label.cats) else {
        return Err(Status::Inexpressible);
    };
    if !cipso_tags::can_express(tag, &label) {
        return Err(Status::Inexpressible);
    }
    write_cipso(doi, tag, &label, text);
    Ok(())
}

fn calipso_of(
    doi: u32,
    level: u8,
    runs: &[NetlabelRun],
    text: &mut ArrayVec<u8, CALIPSO_OCTETS>,
) -> Result<(), Status>
    requires { text.old.items ≡ [] }
    ensures { IsCalipsoOf doi level runs.now (answered result text.new.items) }
{
    if !ascend(runs) {
        return Err(Status::BadRuns);
    }
    if doi == 0 {
        return Err(Status::BadDoi);
    }
    let mut label = Label::lowest();
    label.level = level;
    let Ok(()) = add_runs(runs, &mut label.cats) else {
        return Err(Status::Inexpressible);
    };
    if !calipso_option::can_express(&label) {
        return Err(Status::Inexpressible);
    }
    write_calipso(doi, &label, text);
    Ok(())
}
