//! The line in which a text passes its limit.

ghost use Rattle.std.specs.Prelude.{◌≡◌, ◌+◌, ◌<◌, ◌^◌, ◌==◌, count_by};
ghost use Rattle.text_lines.specs.Lines.{is_line, line_over};

/// The line in which the byte behind the first `most` bytes stands, from 1 on; none where there is no such byte.
#[tactic(auto, unfolding(crate::specs::Lines::line_over))]
pub fn line_over(most: usize, bytes: &[u8]) -> Option<u32>
    requires { most + 2 < 2 ^ 32 }
    ensures { result ≡ line_over most bytes.now }
{
    if bytes.len() <= most {
        None
    } else {
        Some(1 + feeds(&bytes[..most]) as u32)
    }
}

/// How many line feeds a text has.
fn feeds(bytes: &[u8]) -> usize
    ensures { result ≡ count_by (λ b. b == 10) bytes.now }
{
    bytes.iter().filter(|byte| **byte == b'\n').count()
}

/// Whether a line is the one in which the text passes its limit.
pub fn is_line(over: Option<u32>, number: u32) -> bool
    ensures { result ≡ is_line over number }
{
    match over {
        Some(line) => number == line,
        None => false,
    }
}
