//! Laws of reading and printing notes. The functions are empty; their contracts are the laws.
ghost use Rattle.std.specs.Prelude.{◌≡◌, ◌↔◌, ℕ, ◌<◌, ◌≤◌, List, Ok, Err};
ghost use Rattle.rina_schedule.specs.declared.error.LineError.{LineError};
ghost use Rattle.rina_report.specs.declared.note.Note.{Note};
ghost use Rattle.rina_report.specs.Firsts.{SameFields, place_of, BeginsNote, IsTrueOf};
ghost use Rattle.rina_report.specs.Notes.{note_text};
ghost use Rattle.rina_report.specs.Ranges.{IsNote};
ghost use Rattle.rina_report.specs.ReadNotes.{note_at};

/// The printed text of a note is read as that note, so no two notes have the same text.
pub fn what_is_printed_is_read()
    ensures read { (n : Note) → IsNote n → note_at (note_text n) ≡ Ok n }
    ensures one { (n other : Note) → IsNote n → IsNote other → note_text n ≡ note_text other → n ≡ other }
{}

/// A text is read as a note exactly where it is the printed text of the note, with each value in range.
pub fn what_is_read_is_printed()
    ensures { (text : List ℕ) (n : Note) → (note_at text ≡ Ok n) ↔ (IsNote n × (text ≡ note_text n)) }
{}

/// The error of a note is true of the field that it names: an unknown word is not there or is none of the words that may
/// stand there, a field that is missing is the one behind the last, an extra one stands behind the fields of a whole note,
/// and any other is there.
pub fn what_is_told_of_a_note_is_so()
    ensures { (text : List ℕ) (e : LineError) → note_at text ≡ Err e → IsTrueOf text e }
{}

/// The error of a note is the first from the left. It is settled by the fields up to the one that it names: each text that
/// begins with these has the same error, whatever stands behind. No field in front of that one is at fault: no text that
/// begins with the fields in front has an error at one of them, and some note begins with them. And a text has one error.
pub fn the_error_of_a_note_is_the_first()
    ensures settled { (text other : List ℕ) (e : LineError) (k : ℕ) → note_at text ≡ Err e → place_of text e < k → SameFields k text other → note_at other ≡ Err e }
    ensures in_front { (text other : List ℕ) (e d : LineError) → note_at text ≡ Err e → SameFields (place_of text e) text other → note_at other ≡ Err d → place_of text e ≤ place_of other d }
    ensures begins { (text : List ℕ) (e : LineError) → note_at text ≡ Err e → BeginsNote (place_of text e) text }
    ensures one { (text : List ℕ) (d e : LineError) → note_at text ≡ Err d → note_at text ≡ Err e → d ≡ e }
{}
