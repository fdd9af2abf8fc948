//! Lines that say one thing.

ghost use Rattle.std.specs.Prelude.{◌≡◌};
ghost use Rattle.call_report.specs.Lines.Fixed.{usage_line, packet_limit_line, packets_limit_line, done_line};

/// The forms of the command line.
#[tactic(auto, unfolding(crate::specs::Lines::Fixed::usage_line))]
pub fn usage() -> &'static [u8]
    ensures { result.now ≡ usage_line }
{
    b"usage: netlabel run <script> [-w <n>] | judge <doi> <level> <file> | check <script> | show <capture> | agree <script> <flow> [<versions>] | make <number> <count> <capture>\n"
}

/// The file for `judge` is longer than any packet.
#[tactic(auto, unfolding(crate::specs::Lines::Fixed::packet_limit_line))]
pub fn packet_limit() -> &'static [u8]
    ensures { result.now ≡ packet_limit_line }
{
    b"limit packet 65575\n"
}

/// The most packets that one call reads or makes.
pub const PACKETS_LIMIT: u64 = 1_048_576;

/// There are more packets than one call reads.
#[tactic(auto, unfolding(crate::specs::Lines::Fixed::packets_limit_line))]
pub fn packets_limit() -> &'static [u8]
    ensures { result.now ≡ packets_limit_line }
{
    b"limit packets 1048576\n"
}

/// All flows of a script were carried out.
#[tactic(auto, unfolding(crate::specs::Lines::Fixed::done_line))]
pub fn done() -> &'static [u8]
    ensures { result.now ≡ done_line }
{
    b"done\n"
}
