//! A row in words.
ghost use Rattle.std.specs.Prelude.{◌≡◌, ◌∷◌, ◌++◌, []};
ghost use Rattle.std.specs.Fmt.{decimal};
ghost use Rattle.std.specs.List.{flat_map};
ghost use Rattle.rina_schedule.specs.Spelling.{Adds, spaced};
ghost use Rattle.rina_cube.specs.Cubes.{promise_of};
ghost use Rattle.rina_way.specs.Ways.{charges, slack_of, trip};
ghost use Rattle.rina_way.specs.Words.{charge_text, charges_text, hop_text, kind_words, mark_words, node_name, promise_part, promise_words, row_text, slack_text, slack_words, trip_text, way_fields, way_part, way_text};

use crate::hop::Hop;
use crate::row::{Row, trip};
use crate::slack::{Slack, slack_of};
use rina_base::{Memory, Name, Node, Seq};
use rina_cube::{Cube, Kind};
use rina_schedule::Text;

/// The name of a node, ? where it has none.
pub fn node_name(nodes: &[Name], node: Node) -> &[u8]
    ensures { result.now ≡ node_name nodes.now node }
{
    match nodes.get(node as usize) {
        Some(name) => name.as_bytes(),
        None => b"?",
    }
}

/// Appends the name of a node.
fn node(text: &mut Text, nodes: &[Name], node: Node) -> Result<(), Memory>
    ensures { Adds result text.old text.new (node_name nodes.now node) }
{
    text.add(node_name(nodes, node))
}

/// Appends > and the node at the end of a hop.
fn hop(text: &mut Text, nodes: &[Name], hop: &Hop) -> Result<(), Memory>
    ensures { Adds result text.old text.new (hop_text nodes.now hop.now) }
{
    text.push(b'>')?;
    node(text, nodes, hop.to)
}

#[tactic(auto, using(std::proofs::lemmas::List::drop_more))]
fn all_hops(text: &mut Text, nodes: &[Name], hops: &[Hop]) -> Result<(), Memory>
    ensures { Adds result text.old text.new (flat_map (hop_text nodes.now) hops.now) }
{
    'hops: for one in hops {
        hop(text, nodes, one)?;
    }
    Ok(())
}

/// Appends the nodes of a way.
fn way(text: &mut Text, nodes: &[Name], hops: &[Hop]) -> Result<(), Memory>
    ensures { Adds result text.old text.new (way_text nodes.now hops.now) }
{
    match hops {
        [] => text.add(b"-"),
        [first, ..] => {
            node(text, nodes, first.from)?;
            all_hops(text, nodes, hops)
        }
    }
}

/// Appends + and what a hop charges.
fn charge(text: &mut Text, hop: &Hop) -> Result<(), Memory>
    ensures { Adds result text.old text.new (charge_text hop.now) }
{
    text.push(b'+')?;
    text.number(u64::from(hop.charge))
}

#[tactic(auto, using(std::proofs::lemmas::List::drop_more))]
fn all_charges(text: &mut Text, hops: &[Hop]) -> Result<(), Memory>
    ensures { Adds result text.old text.new (flat_map charge_text hops.now) }
{
    'hops: for one in hops {
        charge(text, one)?;
    }
    Ok(())
}

/// Appends what the hops of a way charge.
fn charges(text: &mut Text, hops: &[Hop]) -> Result<(), Memory>
    ensures { Adds result text.old text.new (charges_text hops.now) }
{
    match hops {
        [] => text.add(b"0"),
        [first, others @ ..] => {
            text.number(u64::from(first.charge))?;
            all_charges(text, others)
        }
    }
}

/// Appends a slack.
fn slack_left(text: &mut Text, slack: Slack) -> Result<(), Memory>
    ensures { Adds result text.old text.new (slack_text slack) }
{
    match slack {
        Slack::Left(left) => text.number(u64::from(left)),
        Slack::Short(by) => {
            text.push(b'-')?;
            text.number(by)
        }
    }
}

/// Appends the fields of a way that was found.
fn found(text: &mut Text, nodes: &[Name], cube: &Cube, hops: &[Hop]) -> Result<(), Memory>
    ensures { Adds result text.old text.new (spaced (way_text nodes.now hops.now ∷ charges_text hops.now ∷ slack_text (slack_of cube.now.mpl (charges hops.now)) ∷ [])) }
{
    text.push(b' ')?;
    way(text, nodes, hops)?;
    text.push(b' ')?;
    charges(text, hops)?;
    text.push(b' ')?;
    slack_left(text, slack_of(cube.mpl, hops))
}

/// Appends the way, what it charges, and the slack.
fn way_fields(
    text: &mut Text,
    nodes: &[Name],
    cube: &Cube,
    hops: &Option<Seq<Hop>>,
) -> Result<(), Memory>
    ensures { Adds result text.old text.new (way_fields nodes.now cube.now hops.now) }
{
    match hops {
        Some(hops) => found(text, nodes, cube, hops.as_slice()),
        None => text.add(b" - - -"),
    }
}

/// Appends a round trip, - where there is none.
fn trip_field(text: &mut Text, trip: Option<u64>) -> Result<(), Memory>
    ensures { Adds result text.old text.new (32 ∷ trip_text trip) }
{
    match trip {
        Some(ticks) => text.number_field(ticks),
        None => text.field(b"-"),
    }
}

#[tactic(auto, unfolding(crate::specs::Words::kind_words))]
fn kind_words(kind: Kind) -> &'static [u8]
    ensures { result.now ≡ kind_words kind }
{
    match kind {
        Kind::Datagram => b"at most once, in any order",
        Kind::Loose => b"at most once, in order",
        Kind::Reliable => b"at most once, in order, without gaps",
    }
}

/// How many ticks pass at most from the acceptance of an SDU to its delivery.
fn promise(cube: &Cube) -> u64
    ensures { result ≡ promise_of cube.now }
{
    match cube.kind {
        Kind::Datagram | Kind::Loose => u64::from(cube.mpl),
        Kind::Reliable => u64::from(cube.r) + u64::from(cube.mpl),
    }
}

/// Appends what a cube promises.
fn promise_words(text: &mut Text, cube: &Cube) -> Result<(), Memory>
    ensures { Adds result text.old text.new (promise_words cube.now) }
{
    text.add(kind_words(cube.kind))?;
    text.add(b", within ")?;
    text.number(promise(cube))?;
    text.add(b" ticks")
}

/// Appends the mark of a slack below 0.
fn slack_words(text: &mut Text, slack: Slack) -> Result<(), Memory>
    ensures { Adds result text.old text.new (slack_words slack) }
{
    match slack {
        Slack::Left(_) => Ok(()),
        Slack::Short(_) => text.add(b"; no SDU can arrive"),
    }
}

/// Appends the mark of a flow without a way, or whose slack is below 0.
fn mark(text: &mut Text, cube: &Cube, hops: &Option<Seq<Hop>>) -> Result<(), Memory>
    ensures { Adds result text.old text.new (mark_words cube.now hops.now) }
{
    match hops {
        Some(hops) => slack_words(text, slack_of(cube.mpl, hops.as_slice())),
        None => text.add(b"; no way"),
    }
}

/// Appends the window, the pieces, the round trip and the promise.
fn promise_fields(text: &mut Text, row: &Row) -> Result<(), Memory>
    ensures { Adds result text.old text.new (spaced (decimal row.now.cube.window ∷ decimal row.now.pieces ∷ trip_text (trip row.now) ∷ promise_words row.now.cube ∷ [])) }
{
    text.number_field(u64::from(row.cube.window))?;
    text.number_field(u64::from(row.pieces))?;
    trip_field(text, trip(row))?;
    text.push(b' ')?;
    promise_words(text, &row.cube)
}

/// Appends the facility, the ports and the cube.
fn names(text: &mut Text, fac: &Name, from: &[u8], to: &[u8], id: u8) -> Result<(), Memory>
    ensures { Adds result text.old text.new (fac.now ++ spaced (from.now ∷ to.now ∷ decimal id ∷ [])) }
{
    text.add(fac.as_bytes())?;
    text.field(from)?;
    text.field(to)?;
    text.number_field(u64::from(id))
}

/// Appends the facility, the ports, the cube, the way, what its hops charge, and the slack.
#[tactic(auto, unfolding(crate::specs::Words::way_part))]
fn way_part(
    text: &mut Text,
    fac: &Name,
    from: &[u8],
    to: &[u8],
    nodes: &[Name],
    row: &Row,
) -> Result<(), Memory>
    ensures { Adds result text.old text.new (way_part fac.now from.now to.now nodes.now row.now) }
{
    names(text, fac, from, to, row.cube.id)?;
    way_fields(text, nodes, &row.cube, &row.there)
}

/// Appends the window, the pieces, the round trip, and the promise with its mark.
#[tactic(auto, unfolding(crate::specs::Words::promise_part))]
fn promise_part(text: &mut Text, row: &Row) -> Result<(), Memory>
    ensures { Adds result text.old text.new (promise_part row.now) }
{
    promise_fields(text, row)?;
    mark(text, &row.cube, &row.there)
}

/// Appends the line of a row: the facility, the names of the sender and of the other end, the cube, the way, what its hops charge, the slack, the
/// window, the pieces of the largest SDU, the round trip, and the promise in words.
pub fn add_row(
    text: &mut Text,
    fac: &Name,
    from: &[u8],
    to: &[u8],
    nodes: &[Name],
    row: &Row,
) -> Result<(), Memory>
    ensures { Adds result text.old text.new (row_text fac.now from.now to.now nodes.now row.now) }
{
    way_part(text, fac, from, to, nodes, row)?;
    promise_part(text, row)?;
    text.push(b'\n')
}
