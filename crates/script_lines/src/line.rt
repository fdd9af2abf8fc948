//! Lines of a text, and the octets that a line may hold.

ghost use Rattle.std.specs.Prelude.{◌≡◌, ◌<◌, [], ◌∷◌, ◌==◌, length, not, IfNone, IfSome};
ghost use Rattle.std.specs.List.{position};
ghost use Rattle.std.specs.Str.Lines.{lines, strip_carriage_return};
ghost use Rattle.script_lines.specs.Octet.{is_plain};

/// The first line of a text and what stands behind it; `None` where the text has no line. A line ends with LF, which may be
/// missing behind the last one. One CR directly before the LF belongs to the line's end.
pub fn next_line(text: &[u8]) -> Option<(&[u8], &[u8])>
    ensures none { IfNone result (lines text.now ≡ []) }
    ensures line { IfSome result (λ parts. lines text.now ≡ parts.0.now ∷ lines parts.1.now) }
    ensures shorter { IfSome result (λ parts. length parts.1.now < length text.now) }
{
    if text.is_empty() {
        return None;
    }
    match line_feed_in(text) {
        Some(end) => Some((without_cr(&text[..end]), &text[end + 1..])),
        None => Some((text, &[])),
    }
}

fn line_feed_in(text: &[u8]) -> Option<usize>
    ensures { result ≡ position (λ octet. octet == 10) text.now }
{
    text.iter().position(|octet| *octet == b'\n')
}

fn without_cr(line: &[u8]) -> &[u8]
    ensures { result.now ≡ strip_carriage_return line.now }
{
    if line.is_empty() || line[line.len() - 1] != b'\r' {
        return line;
    }
    &line[..line.len() - 1]
}

/// Where the first octet stands that a line may not hold: one that is neither printable ASCII, a space among it, nor a tab.
pub fn first_unfit(line: &[u8]) -> Option<usize>
    ensures { result ≡ position (λ octet. not (is_plain octet)) line.now }
{
    line.iter().position(|octet| !is_plain(*octet))
}

fn is_plain(octet: u8) -> bool
    ensures { result ≡ is_plain octet }
{
    matches!(octet, b'\t' | b' '..=b'~')
}
