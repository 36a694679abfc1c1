//! Laws of reading and printing lines. The functions are empty; their contracts are the laws.
ghost use Rattle.std.specs.Prelude.{◌≡◌, ℕ, ◌<◌, ◌≤◌, List, Some, Ok, Err};
ghost use Rattle.rina_schedule.specs.declared.event.Event.{Event};
ghost use Rattle.rina_schedule.specs.declared.error.LineError.{LineError};
ghost use Rattle.rina_schedule.specs.Errors.{field_of};
ghost use Rattle.rina_schedule.specs.Faults.{IsTrueOf};
ghost use Rattle.rina_schedule.specs.Firsts.{SameFields};
ghost use Rattle.rina_schedule.specs.Line.{line_at};
ghost use Rattle.rina_schedule.specs.Printed.{line_text};
ghost use Rattle.rina_schedule.specs.Ranges.{IsEvent};

/// The printed line of an event is read as that event, so no two events have the same line.
pub fn what_is_printed_is_read()
    ensures read { (e : Event) → IsEvent e → line_at (line_text e) ≡ Ok (Some e) }
    ensures one { (e other : Event) → IsEvent e → IsEvent other → line_text e ≡ line_text other → e ≡ other }
{}

/// The event of a line has its fields in range, and its printed line is read as the same event.
pub fn what_is_read_is_printed()
    ensures ranges { (text : List ℕ) (e : Event) → line_at text ≡ Ok (Some e) → IsEvent e }
    ensures again { (text : List ℕ) (e : Event) → line_at text ≡ Ok (Some e) → line_at (line_text e) ≡ Ok (Some e) }
{}

/// The error of a line is true of the field that it names: a field that is missing is the one behind the last, an
/// extra one is there, and any other is there and is no number, no name, or no bytes.
pub fn what_is_told_of_a_line_is_so()
    ensures { (text : List ℕ) (e : LineError) → line_at text ≡ Err e → IsTrueOf text e }
{}

/// The error of a line is the first from the left. It is settled by the fields up to the one that it names: each line that
/// begins with these has the same error, whatever stands behind. No field in front of that one is at fault: no line that
/// begins with the fields in front has an error at one of them. And a line has one error.
pub fn the_error_of_a_line_is_the_first()
    ensures settled { (text other : List ℕ) (e : LineError) (k : ℕ) → line_at text ≡ Err e → field_of e < k → SameFields k text other → line_at other ≡ Err e }
    ensures in_front { (text other : List ℕ) (e d : LineError) → line_at text ≡ Err e → SameFields (field_of e) text other → line_at other ≡ Err d → field_of e ≤ field_of d }
    ensures one { (text : List ℕ) (d e : LineError) → line_at text ≡ Err d → line_at text ≡ Err e → d ≡ e }
{}
