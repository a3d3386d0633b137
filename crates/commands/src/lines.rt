ghost use Rattle.std.specs.Prelude.{◌≡◌, ◌<◌, ◌==◌, [], length, position, MatchOption};
ghost use Rattle.commands.specs.Lines.{first_line, after_first_line, without_return, Splits};

// Where the first byte 10 is.
fn newline(text: &[u8]) -> Option<usize>
    ensures { result ≡ position (λ byte. byte == 10) text.now }
{
    text.iter().position(|byte| *byte == b'\n')
}

// A line without the byte 13 at its end, if it has one there.
fn without_return(line: &[u8]) -> &[u8]
    ensures { result.now ≡ without_return line.now }
{
    line.strip_suffix(b"\r").unwrap_or(line)
}

// The first line of a text and the text after it, by where the first byte 10 is. A function of its own: in one with `split_line` a mistake
// would be refused by the file of its proof, and not by the contract.
fn cut(text: &[u8]) -> Option<(&[u8], &[u8])>
    ensures { MatchOption result (text.now ≡ []) (λ parts. (0 < length text.now) × (parts.0.now ≡ first_line text.now) × (parts.1.now ≡ after_first_line text.now)) }
{
    if text.is_empty() {
        return None;
    }
    Some(match newline(text) {
        Some(end) => (without_return(&text[..end]), &text[end + 1..]),
        None => (text, &[]),
    })
}

/// The first line of a text, without its ending, and the text after it; none of an empty text. A line ends in byte 10 or at the end of
/// the text, and one byte 13 directly before that byte 10 belongs to the ending.
pub fn split_line(text: &[u8]) -> Option<(&[u8], &[u8])>
    ensures value { MatchOption result (text.now ≡ []) (λ parts. (0 < length text.now) × (parts.0.now ≡ first_line text.now) × (parts.1.now ≡ after_first_line text.now)) }
    ensures law { MatchOption result (text.now ≡ []) (λ parts. Splits text.now parts.0.now parts.1.now) }
{
    cut(text)
}
