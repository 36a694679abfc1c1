//! The mark between the stack and the schedule of an input.
ghost use Rattle.std.specs.Prelude.{◌≡◌, ◌<◌, length, map, position, Some, IfSome, option_map, true};
ghost use Rattle.rina_run.specs.Script.{Script, is_mark, script_of};

use rina_io::without_end;

/// Whether a line is the mark.
#[tactic(auto, unfolding(crate::specs::Script::is_mark))]
pub fn is_mark_line(line: &[u8]) -> bool
    ensures { result ≡ is_mark line.now }
{
    without_end(line) == b"%%".as_slice()
}

fn first_mark(lines: &[&[u8]]) -> Option<usize>
    ensures place { result ≡ position (λ l. is_mark l.now) lines.now }
    ensures within { IfSome result (λ k. k < length lines.now) }
{
    lines.iter().position(|line| is_mark_line(line))
}

/// The place of the mark.
fn mark_in(lines: &[&[u8]]) -> Option<usize>
    ensures place { result ≡ position is_mark (map (λ l. l.now) lines.now) }
    ensures within { IfSome result (λ k. k < length lines.now) }
{
    first_mark(lines)
}

/// How many lines of an input stand behind the mark.
#[tactic(auto, using(crate::proofs::InputLines::behind_mark, crate::proofs::InputLines::no_mark))]
pub fn lines_behind_mark(lines: &[&[u8]]) -> usize
    ensures { option_map (λ (s : Script). length s.lines) (script_of true (map (λ l. l.now) lines.now)) ≡ Some result }
{
    match mark_in(lines) {
        Some(at) => lines.len() - at - 1,
        None => 0,
    }
}
