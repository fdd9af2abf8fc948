//! Laws: what is true of the definitions alone. Each is a function with nothing to do, whose clause is the law.

ghost use Rattle.std.specs.Prelude.{◌≡◌, ℕ, ◌<◌, ◌≤◌, List, length, Option, Ok, IfSome};
ghost use Rattle.mls_label.specs.octet_grammar.Octets.{IsOctets};
ghost use Rattle.ip_headers.specs.Packet.{Headers};
ghost use Rattle.ip_headers.specs.Reading.{packet_of};
ghost use Rattle.ip_headers.specs.Written.{IsLabelOption, packet_octets, rebuilt_length, rebuilt_room, room_limit};
ghost use Rattle.version_cross.specs.Checksum.{checksum_sum};
ghost use Rattle.version_cross.specs.Cross.{crossed_with, other_version};
ghost use Rattle.version_cross.specs.Laws.{CanCross};

/// The sum of pseudo-header and segment keeps its value, modulo 65535: a segment that verifies does so afterwards, and a
/// damaged one stays damaged.
pub fn crossing_keeps_the_sum()
    ensures { (p : Headers) (source destination : List ℕ) (option : Option (List ℕ)) (hops : ℕ)
        → CanCross p source destination
        → checksum_sum (crossed_with p source destination option hops) ≡ checksum_sum p }
{}

/// A packet that crossed has a payload of the same length.
pub fn crossing_keeps_the_length()
    ensures { (p : Headers) (source destination : List ℕ) (option : Option (List ℕ)) (hops : ℕ)
        → CanCross p source destination
        → length (crossed_with p source destination option hops).payload ≡ length p.payload }
{}

/// A packet that crossed may be written, and can cross back to the old addresses.
pub fn crossed_packets_can_cross_back()
    ensures { (p : Headers) (source destination : List ℕ) (option : Option (List ℕ)) (hops : ℕ)
        → CanCross p source destination
        → hops < 256
        → IfSome option (λ o. IsLabelOption (other_version p.version) o × IsOctets o)
        → CanCross (crossed_with p source destination option hops) p.source p.destination }
{}

/// A packet that crossed has room for its label option, the one option that it has.
pub fn crossed_packets_have_room()
    ensures { (p : Headers) (source destination : List ℕ) (option : Option (List ℕ)) (hops : ℕ)
        → IfSome option (IsLabelOption (other_version p.version))
        → rebuilt_room (crossed_with p source destination option hops) ≤ room_limit
        (other_version p.version) }
{}

/// A packet that crossed is read as itself, within its length.
pub fn crossed_packets_read_back()
    ensures { (p : Headers) (source destination : List ℕ) (option : Option (List ℕ)) (hops : ℕ)
        → CanCross p source destination
        → hops < 256
        → IfSome option (λ o. IsLabelOption (other_version p.version) o × IsOctets o)
        → rebuilt_length (crossed_with p source destination option hops) ≤ 65535
        → packet_of (other_version p.version)
        (packet_octets (crossed_with p source destination option hops)) ≡ Ok
        (crossed_with p source destination option hops) }
{}
