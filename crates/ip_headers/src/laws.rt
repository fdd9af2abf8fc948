//! Laws: what is true of the definitions alone. Each is a function with nothing to do, whose clause is the law.

ghost use Rattle.std.specs.Prelude.{◌≡◌, ℕ, ◌+◌, ◌-◌, ◌%◌, ◌<◌, ◌≤◌, ◌==◌, List, length, fold, sum, All, Option, None, IfSome, IfErr, Ok, if◌then◌else◌};
ghost use Rattle.mls_label.specs.octet_grammar.Octets.{IsOctets};
ghost use Rattle.ip_headers.specs.declared.version.Version.{Version};
ghost use Rattle.ip_headers.specs.Sum.{ones_add};
ghost use Rattle.ip_headers.specs.Packet.{Headers};
ghost use Rattle.ip_headers.specs.Reading.{packet_of, front_of};
ghost use Rattle.ip_headers.specs.Written.{IsLabelOption, IsParsed, rewritten};
ghost use Rattle.ip_headers.specs.Laws.{ReadsBack, StandsIn};

/// A first fault stands in the octets or at their end.
pub fn faults_stand_within()
    ensures packets { (version : Version) (octets : List ℕ)
        → IfErr (packet_of version octets) (λ fault. fault.octet ≤ length octets) }
    ensures fronts { (version : Version) (octets : List ℕ)
        → IfErr (front_of version octets) (λ fault. fault.octet ≤ length octets) }
{}

/// A packet is read in the same way where a second label option is allowed.
pub fn packets_are_fronts()
    ensures { (version : Version) (octets : List ℕ) (p : Headers) → packet_of version octets ≡ Ok p
        → front_of version octets ≡ Ok p }
{}

/// What is read without the test for a second label option is a packet where it has no label option.
pub fn fronts_without_a_label_are_packets()
    ensures { (version : Version) (octets : List ℕ) (p : Headers) → front_of version octets ≡ Ok p
        → p.label ≡ None → packet_of version octets ≡ Ok p }
{}

/// A packet that was read is of the version that was asked for, which its octets name, and its label option stands in them.
pub fn packets_stand_in_their_octets()
    ensures { (version : Version) (octets : List ℕ) (p : Headers) → front_of version octets ≡ Ok p
        → StandsIn version octets p }
{}

/// The payload of a packet that was read is octets, no more than a length field can count.
pub fn payloads_fit_their_length()
    ensures { (version : Version) (octets : List ℕ) (p : Headers) → IsOctets octets
        → front_of version octets ≡ Ok p → IsOctets p.payload × (length p.payload ≤ 65535) }
{}

/// A packet that was read may be written with another label option or none, and other hops: its values fit their fields.
pub fn read_packets_may_be_written()
    ensures { (version : Version) (octets : List ℕ) (p : Headers) (option : Option (List ℕ))
        (hops : ℕ)
        → IsOctets octets
        → front_of version octets ≡ Ok p
        → hops < 256
        → IfSome option (λ o. IsLabelOption version o × IsOctets o)
        → IsParsed (rewritten p option hops) }
{}

/// What is written within its room and length is read as the packet that it then is: that which was written, with its
/// options where they are written, but for the one case in which version 6 hides its payload.
pub fn written_packet_reads_back()
    ensures { (p : Headers) → ReadsBack p }
{}

/// The one's complement sum of words is their sum modulo 65535, counted from 1 to 65535 where it isn't 0.
pub fn sum_is_modulo_65535()
    ensures { (words : List ℕ) → All (λ w. w < 65536) words
        → fold ones_add 0 words ≡ (if sum words == 0 then 0 else 1 + (sum words - 1) % 65535) }
{}
