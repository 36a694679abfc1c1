//! Printing lists.
ghost use Rattle.std.specs.Prelude.{◌++◌, codes};
ghost use Rattle.std.specs.List.{flat_map};
ghost use Rattle.rina_schedule.specs.Spelling.{Adds};
ghost use Rattle.rina_gen.specs.Text.{divided, list_of};
ghost use Rattle.rina_gen.specs.declared.listed.Column.{Column};

use rina_base::Memory;
use rina_schedule::Text;

/// What a list of the stack shows of each wire.
#[derive(Clone, Copy, Debug, PartialEq, Eq)]
pub(crate) enum Column {
    /// The name of its first node.
    Node,
    /// The member at its first node.
    Member,
    /// The link of the lower DIF on it.
    Link,
}

/// An element of a list.
pub(crate) trait Listed {
    ghost use Rattle.std.specs.Prelude.{List, ℕ};

    /// The text of the element in such a list.
    ghost shown: { Column → Self → List ℕ };

    fn add_to(&self, column: Column, text: &mut Text) -> Result<(), Memory>
        ensures { Adds result text.old text.new (shown column self.now) };
}

/// Appends elements, with a comma and a space before each.
fn add_others<T: Listed>(text: &mut Text, column: Column, parts: &[T]) -> Result<(), Memory>
    ensures { Adds result text.old text.new (flat_map (λ y. codes ", " ++ T.shown column y) parts.now) }
{
    match parts {
        [] => Ok(()),
        [first, others @ ..] => {
            text.add(b", ")?;
            first.add_to(column, text)?;
            add_others(text, column, others)
        }
    }
}

/// Appends elements, separated by a comma and a space.
pub(crate) fn add_divided<T: Listed>(
    text: &mut Text,
    column: Column,
    parts: &[T],
) -> Result<(), Memory>
    ensures { Adds result text.old text.new (divided (T.shown column) parts.now) }
{
    match parts {
        [] => Ok(()),
        [first, others @ ..] => {
            first.add_to(column, text)?;
            add_others(text, column, others)
        }
    }
}

/// Appends a line with a key and a list of tables.
pub(crate) fn add_list<T: Listed>(
    text: &mut Text,
    key: &[u8],
    column: Column,
    parts: &[T],
) -> Result<(), Memory>
    ensures { Adds result text.old text.new (list_of key.now (T.shown column) parts.now) }
{
    text.add(key)?;
    text.add(b" = [ ")?;
    add_divided(text, column, parts)?;
    text.add(b" ]\n")
}
