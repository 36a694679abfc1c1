//! The table of SDUs that were sent, and its sums.
ghost use Rattle.std.specs.Prelude.{◌≡◌, ◌∷◌, [], codes, IfOk};
ghost use Rattle.std.specs.Fmt.{decimal};
ghost use Rattle.std.specs.List.{flat_map};
ghost use Rattle.rina_schedule.specs.Spelling.{Adds, spaced};
ghost use Rattle.rina_report.specs.Values.{num_text};
ghost use Rattle.rina_view.specs.Texts.{columns, end_lines, end_sum, field_text, got_fields, lost_text, mean_text, other_fields, row_text, sent_text, sum_line, sum_text};

use crate::gather::{ends_in, offs_in};
use crate::row::{Row, rows_of};
use crate::sentence::{end, fate, num};
use crate::shown::{End, Off};
use crate::sum::{Sum, sum_of};
use rina_base::Memory;
use rina_report::Note;
use rina_schedule::Text;
use std::alloc::Global;

/// Appends the number of an SDU, the tick of its sending, and its bytes.
fn sent_fields(text: &mut Text, row: &Row) -> Result<(), Memory>
    ensures { Adds result text.old text.new (spaced (num_text row.now.sent.num ∷ decimal row.now.sent.at ∷ decimal row.now.sent.len ∷ [])) }
{
    text.push(b' ')?;
    num(text, row.sent.num)?;
    text.number_field(u64::from(row.sent.at))?;
    text.number_field(row.sent.len)
}

/// Appends the end that sent an SDU, and the SDU's number, tick and bytes.
#[tactic(auto, unfolding(crate::specs::Texts::sent_text))]
fn sent(text: &mut Text, from: &End, row: &Row) -> Result<(), Memory>
    ensures { Adds result text.old text.new (sent_text from.now row.now) }
{
    end(text, from)?;
    sent_fields(text, row)
}

/// Appends the line of an SDU.
fn row_line(text: &mut Text, offs: &[Off], from: &End, row: &Row) -> Result<(), Memory>
    ensures { Adds result text.old text.new (row_text offs.now from.now row.now) }
{
    sent(text, from, row)?;
    text.push(b' ')?;
    fate(text, offs, row)?;
    text.push(b'\n')
}

/// Appends the lines of the SDUs that an end sent.
#[tactic(auto, using(std::proofs::lemmas::List::drop_more))]
fn end_lines(
    alloc: Global,
    text: &mut Text,
    ends: &[End],
    offs: &[Off],
    end: &End,
) -> Result<(), Memory>
    ensures { Adds result text.old text.new (end_lines ends.now offs.now end.now) }
{
    let rows = rows_of(alloc, ends, offs, end)?;
    let rows = rows.as_slice();
    'rows: for row in rows {
        row_line(text, offs, end, row)?;
    }
    Ok(())
}

/// Appends a word and a number as two fields.
#[tactic(auto, unfolding(crate::specs::Texts::field_text))]
fn named(text: &mut Text, word: &[u8], n: u64) -> Result<(), Memory>
    ensures { Adds result text.old text.new (field_text word.now (decimal n)) }
{
    text.field(word)?;
    text.number_field(n)
}

/// Appends the mean delay.
fn mean(text: &mut Text, sum: &Sum) -> Result<(), Memory>
    ensures { Adds result text.old text.new (32 ∷ mean_text sum.now) }
{
    if sum.got == 0 {
        text.field(b"-")
    } else {
        text.number_field(sum.total / sum.got as u64)
    }
}

/// Appends the mean delay behind its name.
#[tactic(auto, unfolding(crate::specs::Texts::field_text))]
fn named_mean(text: &mut Text, sum: &Sum) -> Result<(), Memory>
    ensures { Adds result text.old text.new (field_text (codes "mean") (mean_text sum.now)) }
{
    text.field(b"mean")?;
    mean(text, sum)
}

/// Appends how many SDUs were sent and got, and the mean delay.
#[tactic(auto, unfolding(crate::specs::Texts::got_fields))]
fn got_fields(text: &mut Text, sum: &Sum) -> Result<(), Memory>
    ensures { Adds result text.old text.new (got_fields sum.now) }
{
    named(text, b"sent", sum.sent as u64)?;
    named(text, b"got", sum.got as u64)?;
    named_mean(text, sum)
}

/// Appends the greatest delay, and how many SDUs were written off and neither.
#[tactic(auto, unfolding(crate::specs::Texts::other_fields))]
fn other_fields(text: &mut Text, sum: &Sum) -> Result<(), Memory>
    ensures { Adds result text.old text.new (other_fields sum.now) }
{
    named(text, b"greatest", u64::from(sum.greatest))?;
    named(text, b"off", sum.off as u64)?;
    named(text, b"unseen", sum.unseen as u64)
}

/// Appends the line of a sum.
fn sum_line(text: &mut Text, from: &End, sum: &Sum) -> Result<(), Memory>
    ensures { Adds result text.old text.new (sum_text from.now sum.now) }
{
    text.add(b"sum ")?;
    end(text, from)?;
    got_fields(text, sum)?;
    other_fields(text, sum)?;
    text.push(b'\n')
}

/// Appends the sum of an end that sent something.
fn sum_lines(
    alloc: Global,
    text: &mut Text,
    ends: &[End],
    offs: &[Off],
    end: &End,
) -> Result<(), Memory>
    ensures { Adds result text.old text.new (end_sum ends.now offs.now end.now) }
{
    let rows = rows_of(alloc, ends, offs, end)?;
    let sum = sum_of(rows.as_slice());
    if sum.sent == 0 {
        Ok(())
    } else {
        sum_line(text, end, &sum)
    }
}

/// Appends the lines of all ends.
#[tactic(auto, using(std::proofs::lemmas::List::drop_more))]
fn all_ends(alloc: Global, text: &mut Text, ends: &[End], offs: &[Off]) -> Result<(), Memory>
    ensures { Adds result text.old text.new (flat_map (end_lines ends.now offs.now) ends.now) }
{
    'ends: for end in ends {
        end_lines(alloc, text, ends, offs, end)?;
    }
    Ok(())
}

/// Appends the sums of all ends.
#[tactic(auto, using(std::proofs::lemmas::List::drop_more))]
fn all_sums(alloc: Global, text: &mut Text, ends: &[End], offs: &[Off]) -> Result<(), Memory>
    ensures { Adds result text.old text.new (flat_map (end_sum ends.now offs.now) ends.now) }
{
    'ends: for end in ends {
        sum_lines(alloc, text, ends, offs, end)?;
    }
    Ok(())
}

/// Appends the names of the columns.
#[tactic(auto, unfolding(crate::specs::Texts::columns))]
fn head(text: &mut Text) -> Result<(), Memory>
    ensures { Adds result text.old text.new columns }
{
    text.add(b"facility flow from number sent bytes fate\n")
}

/// The table of the SDUs that the notes of a run show as sent: a row for each, and then a sum for each end of a flow that sent one.
pub fn lost_table(alloc: Global, notes: &[Note]) -> Result<Vec<u8>, Memory>
    ensures { IfOk result (λ v. v.items ≡ lost_text notes.now) }
{
    let ends = ends_in(alloc, notes)?;
    let offs = offs_in(alloc, notes)?;
    let mut text = Text::new(alloc);
    head(&mut text)?;
    all_ends(alloc, &mut text, ends.as_slice(), offs.as_slice())?;
    all_sums(alloc, &mut text, ends.as_slice(), offs.as_slice())?;
    Ok(text.into_vec())
}
