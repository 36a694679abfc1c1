//! The words of the command line.
ghost use Rattle.std.specs.Prelude.{◌≡◌, map, string_bytes};
ghost use Rattle.rina_report.specs.Fields.{max32, numeral_of};
ghost use Rattle.rina_run.specs.Command.{alone, command_of, number_by, number_of};

use rina_base::read_number;

/// What the words of the command line ask for.
#[derive(Clone, Copy, Debug, PartialEq, Eq)]
pub enum Command {
    /// The input is run.
    Run,
    /// The input is read, and nothing of it is run.
    Check,
    /// The input that is drawn from a number is run.
    Gen { n: u32 },
    /// The input that is drawn from a number is written.
    Show { n: u32 },
}

/// The number of 32 bits that a word is in decimal, without a sign and without a leading zero.
#[tactic(auto, unfolding(rina_base::specs::Decimals::decimal_of, rina_report::specs::Fields::is_numeral, rina_report::specs::Fields::numeral_of))]
fn numeral_in(word: &[u8]) -> Option<u32>
    ensures { result ≡ numeral_of max32 word.now }
{
    match word {
        [] | [b'0', _, ..] => None,
        _ => read_number(word),
    }
}

/// A command whose word no other may follow.
fn alone(command: Command, others: &[String]) -> Result<Command, u32>
    ensures { result ≡ alone command (map (λ w. string_bytes w) others.now) }
{
    match others {
        [] => Ok(command),
        [_, ..] => Err(1),
    }
}

/// The number behind a command that takes one, if it is one, and no word follows.
fn number_by(number: Option<u32>, others: &[String]) -> Result<u32, u32>
    ensures { result ≡ number_by number (map (λ w. string_bytes w) others.now) }
{
    match (number, others) {
        (None, _) => Err(1),
        (Some(n), []) => Ok(n),
        (Some(_), [_, ..]) => Err(2),
    }
}

/// The number that the words behind a command are, which takes one.
fn number_in(others: &[String]) -> Result<u32, u32>
    ensures { result ≡ number_of (map (λ w. string_bytes w) others.now) }
{
    match others {
        [] => Err(1),
        [number, more @ ..] => number_by(numeral_in(number.as_bytes()), more),
    }
}

/// The command that the words are; else the place of the first word that can't stand there, or the
/// number of words where one is missing.
#[tactic(auto, unfolding(crate::specs::Command::command_of))]
pub fn command_in(words: &[String]) -> Result<Command, u32>
    ensures { result ≡ command_of (map (λ w. string_bytes w) words.now) }
{
    match words {
        [] => Err(0),
        [first, others @ ..] => {
            if first.as_str() == "run" {
                alone(Command::Run, others)
            } else if first.as_str() == "check" {
                alone(Command::Check, others)
            } else if first.as_str() == "gen" {
                let n = number_in(others)?;
                Ok(Command::Gen { n })
            } else if first.as_str() == "show" {
                let n = number_in(others)?;
                Ok(Command::Show { n })
            } else {
                Err(0)
            }
        }
    }
}
