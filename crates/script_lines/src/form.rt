//! The table of forms: for each row its fixed words, and its parameters in the order in which they are written.

ghost use Rattle.std.specs.Prelude.{◌≡◌, map};
ghost use Rattle.script_lines.specs.Form.{with_translations, form_of};

use crate::parameter::Parameter;
use crate::row::Row;

/// A parameter's place in a form.
#[derive(Clone, Copy, Debug, PartialEq, Eq)]
pub struct Slot {
    pub parameter: Parameter,
    /// Whether the parameter must be there.
    pub must: bool,
}

const DOI: Slot = Slot {
    parameter: Parameter::Doi,
    must: true,
};

const ONE_DOI: Slot = Slot {
    parameter: Parameter::Doi,
    must: false,
};

const TAGS: Slot = Slot {
    parameter: Parameter::Tags,
    must: true,
};

const LEVELS: Slot = Slot {
    parameter: Parameter::Levels,
    must: true,
};

const CATEGORIES: Slot = Slot {
    parameter: Parameter::Categories,
    must: false,
};

const DOMAIN: Slot = Slot {
    parameter: Parameter::Domain,
    must: true,
};

const INTERFACE: Slot = Slot {
    parameter: Parameter::Interface,
    must: true,
};

const PREFIX: Slot = Slot {
    parameter: Parameter::Prefix,
    must: true,
};

const ONE_PREFIX: Slot = Slot {
    parameter: Parameter::Prefix,
    must: false,
};

const PROTOCOL: Slot = Slot {
    parameter: Parameter::Protocol,
    must: true,
};

const LABEL: Slot = Slot {
    parameter: Parameter::Label,
    must: true,
};

const ADDRESS: Slot = Slot {
    parameter: Parameter::Address,
    must: true,
};

const HOME: Slot = Slot {
    parameter: Parameter::Home,
    must: true,
};

const LEVEL: Slot = Slot {
    parameter: Parameter::Level,
    must: true,
};

const RANGE: Slot = Slot {
    parameter: Parameter::Range,
    must: true,
};

const FOUR: Slot = Slot {
    parameter: Parameter::Four,
    must: true,
};

const SIX: Slot = Slot {
    parameter: Parameter::Six,
    must: true,
};

const READING_LEVELS: Slot = Slot {
    parameter: Parameter::ReadingLevels,
    must: false,
};

const READING_CATEGORIES: Slot = Slot {
    parameter: Parameter::ReadingCategories,
    must: false,
};

/// A form of the table: its fixed words, and the places of its parameters.
#[derive(Clone, Copy, Debug)]
pub struct Form {
    pub fixed: &'static [&'static str],
    pub slots: &'static [Slot],
}

fn form_with(fixed: &'static [&'static str], slots: &'static [Slot]) -> Form
    ensures fixed { result.fixed.now ≡ fixed.now }
    ensures slots { result.slots.now ≡ slots.now }
{
    Form { fixed, slots }
}

impl Row {
    /// The row's form.
    pub fn form(self) -> Form
        ensures fixed { map (λ word. word.now) result.fixed.now ≡
            (form_of with_translations self).fixed }
        ensures slots { result.slots.now ≡ (form_of with_translations self).slots }
    {
        match self {
            Row::CipsoAddPass => form_with(&["cipsov4", "add", "pass"], &[DOI, TAGS]),
            Row::CipsoAddTrans => form_with(
                &["cipsov4", "add", "trans"],
                &[DOI, TAGS, LEVELS, CATEGORIES],
            ),
            Row::CalipsoAddPass => form_with(&["calipso", "add", "pass"], &[DOI]),
            Row::CipsoDel => form_with(&["cipsov4", "del"], &[DOI]),
            Row::CalipsoDel => form_with(&["calipso", "del"], &[DOI]),
            Row::CipsoList => form_with(&["cipsov4", "list"], &[ONE_DOI]),
            Row::CalipsoList => form_with(&["calipso", "list"], &[ONE_DOI]),
            Row::MapAdd => form_with(&["map", "add"], &[DOMAIN, ONE_PREFIX, PROTOCOL]),
            Row::MapDel => form_with(&["map", "del"], &[DOMAIN, ONE_PREFIX]),
            Row::MapList => form_with(&["map", "list"], &[]),
            Row::AcceptOn => form_with(&["unlbl", "accept", "on"], &[]),
            Row::AcceptOff => form_with(&["unlbl", "accept", "off"], &[]),
            Row::UnlblAdd => form_with(&["unlbl", "add"], &[INTERFACE, PREFIX, LABEL]),
            Row::UnlblDel => form_with(&["unlbl", "del"], &[INTERFACE, PREFIX]),
            Row::UnlblList => form_with(&["unlbl", "list"], &[]),
            Row::ReceiverAdd => form_with(&["receiver", "add"], &[ADDRESS, HOME, LEVEL]),
            Row::ReceiverDel => form_with(&["receiver", "del"], &[ADDRESS]),
            Row::RangeAdd => form_with(&["range", "add"], &[INTERFACE, RANGE]),
            Row::RangeDel => form_with(&["range", "del"], &[INTERFACE]),
            Row::PairAdd => form_with(&["pair", "add"], &[FOUR, SIX]),
            Row::PairDel => form_with(&["pair", "del"], &[FOUR]),
            Row::MgmtVersion => form_with(&["mgmt", "version"], &[]),
            Row::MgmtProtocols => form_with(&["mgmt", "protocols"], &[]),
            Row::CalipsoAddTrans => form_with(
                &["calipso", "add", "trans"],
                &[DOI, LEVELS, CATEGORIES],
            ),
            Row::Reading => form_with(&["reading"], &[READING_LEVELS, READING_CATEGORIES]),
        }
    }
}
