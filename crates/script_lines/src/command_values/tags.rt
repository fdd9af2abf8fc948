//! Lists of tags.

ghost use Rattle.std.specs.Prelude.{◌≡◌, ◌++◌, IfOk, OnOk, OnErr};
ghost use Rattle.script_lines.specs.command_values.List.{list_text};
ghost use Rattle.script_lines.specs.command_values.Tags.{tag_of_text, tag_number_text, tags_of_text, AreTags};

use crate::command_values::list::{CommaList, ListEntry};
use crate::command_values::parts::is_word;
use mls_label::{OutOfMemory, Tag, write_decimal};
use std::alloc::Global;
use std::marker::Model;

/// The most tags of a DOI.
const MOST_TAGS: usize = 5;

/// The tags that a CIPSO option of a DOI may have, the preferred first: 1 to 5, of which some may be the same.
#[derive(Drop)]
pub struct Tags {
    tags: CommaList<Tag>,
}

impl Model for Tags {
    ghost use Rattle.std.specs.Prelude.{List, ◌≤◌, length};
    ghost use Rattle.mls_label.specs.declared.label.Tag.{Tag};

    ghost Value = { List Tag };

    ghost view = { λ t. t.tags };

    ghost invariant = { λ t. length t.tags ≤ 5 };
}

impl Tags {
    /// These tags.
    pub fn of(alloc: Global, tags: &[Tag]) -> Result<Tags, OutOfMemory>
        requires { AreTags tags.now }
        ensures { IfOk result (λ made. made ≡ tags.now) }
    {
        let tags = CommaList::<Tag>::of(alloc, tags)?;
        Ok(Tags { tags })
    }

    /// The tags in order.
    pub fn as_slice(&self) -> &[Tag]
        ensures value { result.now ≡ self.now }
        ensures tags { AreTags self.now }
    {
        self.tags.as_slice()
    }

    /// A copy.
    pub fn copy(&self) -> Result<Tags, OutOfMemory>
        ensures { IfOk result (λ copy. copy ≡ self.now) }
    {
        let tags = self.tags.copy()?;
        Ok(Tags { tags })
    }

    /// Reads a whole text as numbers of tags with commas between.
    pub fn read(alloc: Global, text: &[u8]) -> Result<Option<Tags>, OutOfMemory>
        ensures { IfOk result (λ read. read ≡ tags_of_text text.now) }
    {
        let Some(tags) = CommaList::<Tag>::read(alloc, text)? else {
            return Ok(None);
        };
        if tags.as_slice().len() > MOST_TAGS {
            return Ok(None);
        }
        Ok(Some(Tags { tags }))
    }

    /// Appends the numbers of the tags with commas between. After an error `out` is as it was.
    pub fn write(&self, out: &mut Vec<u8>) -> Result<(), OutOfMemory>
        ensures ok { OnOk result
            (out.new.items ≡ out.old.items ++ list_text tag_number_text self.now) }
        ensures err { OnErr result (out.new.items ≡ out.old.items) }
    {
        self.tags.write(out)
    }
}

impl ListEntry for Tag {
    ghost use Rattle.script_lines.specs.command_values.Tags.{tag_of_text, tag_number_text};

    ghost of_text = { tag_of_text };

    ghost text_of = { tag_number_text };

    ghost is_entry = { λ tag. Unit {0} };

    fn read(text: &[u8]) -> Option<Tag> {
        if is_word(text, "1") {
            Some(Tag::One)
        } else if is_word(text, "2") {
            Some(Tag::Two)
        } else if is_word(text, "5") {
            Some(Tag::Five)
        } else {
            None
        }
    }

    fn write(&self, out: &mut Vec<u8>) -> Result<(), OutOfMemory> {
        let number = match self {
            Tag::One => 1,
            Tag::Two => 2,
            Tag::Five => 5,
        };
        write_decimal(number, out)?;
        Ok(())
    }
}
