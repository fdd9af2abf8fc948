//! What the definitions say of each other: written values read back, and a text that is one label stays what it was where ranges
//! are read.

ghost use Rattle.std.specs.Prelude.{◌≡◌, ℕ, ◌<◌, ◌^◌, List, Some, IsTrue, option_map};
ghost use Rattle.std.specs.Fmt.{decimal};
ghost use Rattle.mls_label.specs.declared.label.Tag.{Tag};
ghost use Rattle.mls_range.specs.Range.{LabelRange};
ghost use Rattle.mls_range.specs.RangeText.{range_text};
ghost use Rattle.mls_range.specs.Computed.{label_of_text, lone_range};
ghost use Rattle.domain_map.specs.declared.protocol.Protocol.{Protocol};
ghost use Rattle.domain_map.specs.declared.address_text.address.Address.TheVariants.{V4, V6};
ghost use Rattle.domain_map.specs.address_text.Address.{IsOctetsOf, address_text};
ghost use Rattle.script_lines.specs.command_values.Doi.{is_doi, doi_of_text};
ghost use Rattle.script_lines.specs.command_values.List.{AreEntries, list_of_text, list_text};
ghost use Rattle.script_lines.specs.command_values.Pairs.{IsPairWithin, pair_of_text, pair_text};
ghost use Rattle.script_lines.specs.command_values.Tags.{AreTags, tag_number_text, tags_of_text};
ghost use Rattle.script_lines.specs.command_values.MapProtocol.{is_map_protocol, map_protocol_of_text, map_protocol_text};
ghost use Rattle.script_lines.specs.command_values.Ranges.{IsMlsRange, in_context, range_below, static_range_of_text, receiver_range_of_text, receiver_range_text};
ghost use Rattle.script_lines.specs.command_values.Addresses.{four_of_text, sixteen_of_text};

/// A DOI's text is that of the DOI.
pub fn written_doi_reads_back()
    ensures { (n : ℕ) → IsTrue (is_doi n) → doi_of_text (decimal n) ≡ Some n }
{}

/// The text of 1 to 5 tags is that of these tags.
pub fn written_tags_read_back()
    ensures { (tags : List Tag) → AreTags tags
        → tags_of_text (list_text tag_number_text tags) ≡ Some tags }
{}

/// The text of pairs is that of these pairs.
pub fn written_pairs_read_back()
    ensures { (first second : ℕ) (pairs : List (ℕ × ℕ)) → first < 2 ^ 64 → second < 2 ^ 64
        → AreEntries (IsPairWithin first second) pairs
        → list_of_text (pair_of_text first second) (list_text pair_text pairs) ≡ Some pairs }
{}

/// The text of a map's protocol is that of the protocol.
pub fn written_map_protocol_reads_back()
    ensures { (protocol : Protocol) → IsTrue (is_map_protocol protocol)
        → map_protocol_of_text (map_protocol_text protocol) ≡ Some protocol }
{}

/// A range's text is that of a static entry with this range.
pub fn written_static_range_reads_back()
    ensures { (range : LabelRange) → IsMlsRange range
        → static_range_of_text (range_text range) ≡ Some range }
{}

/// A receiver's level is written so that it reads back.
pub fn written_receiver_range_reads_back()
    ensures { (range : LabelRange) → IsMlsRange range
        → receiver_range_of_text (receiver_range_text range) ≡ Some range }
{}

/// The text of an IPv4 address is that of its octets.
pub fn written_four_octets_read_back()
    ensures { (octets : List ℕ) → IsOctetsOf 4 octets
        → four_of_text (address_text (V4 octets)) ≡ Some octets }
{}

/// The text of an IPv6 address is that of its octets.
pub fn written_sixteen_octets_read_back()
    ensures { (octets : List ℕ) → IsOctetsOf 16 octets
        → sixteen_of_text (address_text (V6 octets)) ≡ Some octets }
{}

/// What a text says as a label, alone or behind a user, a role and a type, it says as the range of a static entry: both ends are
/// that label.
pub fn labels_stay_static_ranges()
    ensures { (text : List ℕ) (range : LabelRange)
        → in_context (λ t. option_map lone_range (label_of_text t)) text ≡ Some range
        → static_range_of_text text ≡ Some range }
{}

/// A text that is a label is the level of a receiver from the lowest label to that one.
pub fn labels_stay_receiver_ranges()
    ensures { (text : List ℕ) (range : LabelRange)
        → option_map range_below (label_of_text text) ≡ Some range
        → receiver_range_of_text text ≡ Some range }
{}
