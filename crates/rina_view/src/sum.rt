//! The sum of the rows of an end of a flow.
ghost use Rattle.std.specs.Prelude.{◌≡◌, ◌+◌, ◌-◌, ◌^◌, count_by, min};
ghost use Rattle.std.specs.List.{sum_by};
ghost use Rattle.rina_view.specs.Sums.{delay, is_got, is_off, is_unseen, greatest, sum_of};

use crate::row::Row;

/// How many SDUs were sent, and what became of them.
#[derive(Clone, Copy, Debug)]
pub struct Sum {
    pub sent: usize,
    pub got: usize,
    /// Not got, and a PDU of it was written off.
    pub off: usize,
    /// Neither got nor written off.
    pub unseen: usize,
    /// The sum of the delays of those that were got.
    pub total: u64,
    /// The greatest of these delays.
    pub greatest: u32,
}

/// The ticks from the sending of an SDU until it was got, 0 where it was not.
#[tactic(auto, unfolding(crate::specs::Sums::delay))]
pub(crate) fn delay(row: &Row) -> u32
    ensures { result ≡ delay row.now }
{
    match row.got {
        Some(tick) => tick.saturating_sub(row.sent.at),
        None => 0,
    }
}

#[tactic(auto, unfolding(crate::specs::Sums::is_got))]
fn is_got(row: &Row) -> bool
    ensures { result ≡ is_got row.now }
{
    row.got.is_some()
}

#[tactic(auto, unfolding(crate::specs::Sums::is_off))]
fn is_off(row: &Row) -> bool
    ensures { result ≡ is_off row.now }
{
    row.got.is_none() && row.off.is_some()
}

#[tactic(auto, unfolding(crate::specs::Sums::is_unseen))]
fn is_unseen(row: &Row) -> bool
    ensures { result ≡ is_unseen row.now }
{
    row.got.is_none() && row.off.is_none()
}

fn total(rows: &[Row]) -> u64
    ensures { result ≡ min (sum_by delay rows.now) (2 ^ 64 - 1) }
{
    let mut total = 0u64;
    'rows: for row in rows {
        total = total.saturating_add(u64::from(delay(row)));
    }
    total
}

fn greatest(rows: &[Row]) -> u32
    ensures { result ≡ greatest rows.now }
{
    let mut most = 0u32;
    'rows: for row in rows {
        most = most.max(delay(row));
    }
    most
}

fn count_got(rows: &[Row]) -> usize
    ensures { result ≡ count_by is_got rows.now }
{
    rows.iter().filter(|row| is_got(row)).count()
}

fn count_off(rows: &[Row]) -> usize
    ensures { result ≡ count_by is_off rows.now }
{
    rows.iter().filter(|row| is_off(row)).count()
}

fn count_unseen(rows: &[Row]) -> usize
    ensures { result ≡ count_by is_unseen rows.now }
{
    rows.iter().filter(|row| is_unseen(row)).count()
}

/// The sum of some rows. Each SDU that was sent was got, or written off, or is unseen.
pub fn sum_of(rows: &[Row]) -> Sum
    ensures sum { result ≡ sum_of rows.now }
    ensures each { result.got + result.off + result.unseen ≡ result.sent }
{
    let sent = rows.len();
    let got = count_got(rows);
    let off = count_off(rows);
    let unseen = count_unseen(rows);
    let total = total(rows);
    let greatest = greatest(rows);
    Sum {
        sent,
        got,
        off,
        unseen,
        total,
        greatest,
    }
}
