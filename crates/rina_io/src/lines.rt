//! The lines of an input.
ghost use Rattle.std.specs.Prelude.{◌≡◌, ◌≤◌, length, map, IfOk};
ghost use Rattle.bstr.specs.Text.{lines_of, without_terminator};

use bstr::ByteSlice;
use std::alloc::{AllocError, Global};

/// A line without its line feed and one carriage return before it.
pub fn without_end(line: &[u8]) -> &[u8]
    ensures { result.now ≡ without_terminator line.now }
{
    match line {
        [front @ .., b'\r', b'\n'] => front,
        [front @ .., b'\n'] => front,
        _ => line,
    }
}

/// The lines of an input, each with its end if it has one.
pub fn all_lines(alloc: Global, bytes: &[u8]) -> Result<Vec<&[u8]>, AllocError>
    ensures value { IfOk result (λ v. map (λ s. s.now) v.items ≡ lines_of bytes.now) }
    ensures few { IfOk result (λ v. length v.items ≤ length bytes.now) }
{
    bytes.lines_with_terminator().collect(alloc)
}
