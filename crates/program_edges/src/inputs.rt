//! The two parts of an input: a script, and a transcript behind it.

ghost use Rattle.std.specs.Prelude.{◌≡◌, ◌≤◌, length};
ghost use Rattle.program_edges.specs.Inputs.{script_part, transcript_part, script_length};

use text_lines::next_line;

/// How many bytes of an input are its script: those through the first complete line that is exactly `end`, or all where
/// there is none.
fn script_length(bytes: &[u8]) -> usize
    ensures length { result ≡ script_length bytes.now }
    ensures within { result ≤ length bytes.now }
{
    let mut rest = bytes;
    loop {
        let (line, behind) = next_line(rest);
        let Some(next) = behind else {
            return bytes.len();
        };
        rest = next;
        if line == b"end".as_slice() {
            return bytes.len() - rest.len();
        }
    }
}

/// The script of an input, and the transcript behind it.
pub fn parts(bytes: &[u8]) -> (&[u8], &[u8])
    ensures script { result.0.now ≡ script_part bytes.now }
    ensures transcript { result.1.now ≡ transcript_part bytes.now }
{
    bytes.split_at(script_length(bytes))
}
