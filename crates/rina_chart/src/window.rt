//! The window of ticks that a chart shows, and the words that ask for one.
ghost use Rattle.std.specs.Prelude.{◌≡◌, ◌≤◌, map, string_bytes, IfErr};
ghost use Rattle.rina_report.specs.Fields.{max32, numeral_of};
ghost use Rattle.rina_chart.specs.Windows.{closed_by, from_by, to_by, to_in, window_in};

use rina_base::{Tick, read_number};

/// The ticks that are shown, from the one to the other, both included.
#[derive(Clone, Copy, Debug, PartialEq, Eq)]
pub struct Window {
    pub from: Tick,
    pub to: Tick,
}

/// The number of 32 bits that a word is in decimal, without a sign and without a leading zero.
#[tactic(auto, unfolding(rina_base::specs::Decimals::decimal_of, rina_report::specs::Fields::is_numeral, rina_report::specs::Fields::numeral_of))]
fn numeral_in(word: &[u8]) -> Option<u32>
    ensures { result ≡ numeral_of max32 word.now }
{
    match word {
        [] | [b'0', _, ..] => None,
        _ => read_number(word),
    }
}

/// The window, where no word is behind it.
fn closed_by(window: Window, others: &[String]) -> Result<Option<Window>, u32>
    ensures window { result ≡ closed_by window (map (λ w. string_bytes w) others.now) }
    ensures place { IfErr result (λ word. word ≤ 4) }
{
    match others {
        [] => Ok(Some(window)),
        [_, ..] => Err(4),
    }
}

/// The window up to a tick, if the word is one and not below the first tick.
fn to_by(from: Tick, to: Option<Tick>, others: &[String]) -> Result<Option<Window>, u32>
    ensures window { result ≡ to_by from to (map (λ w. string_bytes w) others.now) }
    ensures place { IfErr result (λ word. word ≤ 4) }
{
    match to {
        None => Err(3),
        Some(to) => {
            if from <= to {
                closed_by(Window { from, to }, others)
            } else {
                Err(3)
            }
        }
    }
}

/// The window from a tick up to the next word.
fn to_in(from: Tick, words: &[String]) -> Result<Option<Window>, u32>
    ensures window { result ≡ to_in from (map (λ w. string_bytes w) words.now) }
    ensures place { IfErr result (λ word. word ≤ 4) }
{
    match words {
        [] => Err(3),
        [to, others @ ..] => to_by(from, numeral_in(to.as_bytes()), others),
    }
}

/// The window from a tick, if the word is one.
fn from_by(from: Option<Tick>, others: &[String]) -> Result<Option<Window>, u32>
    ensures window { result ≡ from_by from (map (λ w. string_bytes w) others.now) }
    ensures place { IfErr result (λ word. word ≤ 4) }
{
    match from {
        None => Err(2),
        Some(from) => to_in(from, others),
    }
}

/// The window that the words behind a facility ask for, none where there are no words; else the place on the command line of the first word that
/// cannot stand there, or of one that is missing.
pub fn window_in(words: &[String]) -> Result<Option<Window>, u32>
    ensures window { result ≡ window_in (map (λ w. string_bytes w) words.now) }
    ensures place { IfErr result (λ word. word ≤ 4) }
{
    match words {
        [] => Ok(None),
        [from, others @ ..] => from_by(numeral_in(from.as_bytes()), others),
    }
}
