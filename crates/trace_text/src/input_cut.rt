//! An input, cut into its script and its trace.

ghost use Rattle.std.specs.Prelude.{◌≡◌, ◌-◌, ◌≤◌, length, take};
ghost use Rattle.trace_text.specs.Lines.{is_trace_line as is_trace};
ghost use Rattle.trace_text.specs.InputParts.{script_part, trace_part};

use crate::split::{are_same, split_once};

/// The script and the trace of an input.
pub fn input_parts(input: &[u8]) -> (&[u8], &[u8])
    ensures script { result.0.now ≡ script_part input.now }
    ensures trace { result.1.now ≡ trace_part input.now }
{
    let mut rest = input;
    while let Some((line, behind)) = split_once(rest, b'\n') {
        if is_trace_line(line) {
            return (lines_before(rest, input), behind);
        }
        rest = behind;
    }
    // The last line has no LF.
    if is_trace_line(rest) {
        (lines_before(rest, input), &[])
    } else {
        (input, &[])
    }
}

/// The lines of an input before the rest of it, without the LF of the last one.
fn lines_before<'a>(rest: &[u8], input: &'a [u8]) -> &'a [u8]
    requires { length rest.now ≤ length input.now }
    ensures { result.now ≡ take (length input.now - length rest.now - 1) input.now }
{
    let end = (input.len() - rest.len()).saturating_sub(1);
    &input[..end]
}

/// Whether a line ends the script.
fn is_trace_line(line: &[u8]) -> bool
    ensures { result ≡ is_trace line.now }
{
    are_same(line, b"trace")
}
