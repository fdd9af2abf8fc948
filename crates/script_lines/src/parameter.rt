//! Parameters, and how their words begin.

ghost use Rattle.std.specs.Prelude.{◌≡◌};
ghost use Rattle.script_lines.specs.Form.{key_text, has_default, is_key};

use crate::command_values::is_word;

/// A parameter: how its words begin, and the form of its value.
#[derive(Clone, Copy, Debug, PartialEq, Eq)]
pub enum Parameter {
    Doi,
    Tags,
    /// Pairs of levels.
    Levels,
    /// Pairs of categories.
    Categories,
    /// A domain of a map, or the default one.
    Domain,
    /// An interface, or the default one.
    Interface,
    Prefix,
    Protocol,
    /// The range of a static entry.
    Label,
    /// The address of a receiver.
    Address,
    /// The domain of a receiver.
    Home,
    /// The level of a receiver, which is a range.
    Level,
    /// The range of an interface.
    Range,
    /// The IPv4 address of a pair.
    Four,
    /// The IPv6 address of a pair.
    Six,
    /// What levels mean.
    ReadingLevels,
    /// What categories mean.
    ReadingCategories,
}

impl Parameter {
    /// How the parameter's words begin, with their colon.
    pub fn key(self) -> &'static str
        ensures { result.now ≡ key_text self }
    {
        match self {
            Parameter::Doi => "doi:",
            Parameter::Tags => "tags:",
            Parameter::Levels => "levels:",
            Parameter::Categories => "categories:",
            Parameter::Domain => "domain:",
            Parameter::Interface => "interface:",
            Parameter::Prefix => "address:",
            Parameter::Protocol => "protocol:",
            Parameter::Label => "label:",
            Parameter::Address => "address:",
            Parameter::Home => "domain:",
            Parameter::Level => "level:",
            Parameter::Range => "range:",
            Parameter::Four => "address4:",
            Parameter::Six => "address6:",
            Parameter::ReadingLevels => "levels:",
            Parameter::ReadingCategories => "categories:",
        }
    }

    /// Whether the word `default` is spelled for it too.
    pub(crate) fn has_default(self) -> bool
        ensures { result ≡ has_default self }
    {
        matches!(self, Parameter::Domain | Parameter::Interface)
    }

    /// Whether a word that begins so is the parameter's.
    pub(crate) fn is_key(self, key: &[u8]) -> bool
        ensures { result ≡ is_key self key.now }
    {
        is_word(key, self.key()) || (self.has_default() && is_word(key, "default"))
    }
}
