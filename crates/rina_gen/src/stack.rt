//! Printing a stack.
ghost use Rattle.std.specs.Prelude.{◌≡◌, []};
ghost use Rattle.std.specs.List.{flat_map};
ghost use Rattle.rina_schedule.specs.Spelling.{Adds};
ghost use Rattle.rina_gen.specs.Text.{led, quoted, node_text, ends_text, storm_text, wire_head, wire_limits, delay_text, wire_text, link_head, link_ends, member_text, low_link_text, link_text, end_text, flow_text, column_text, low_head, high_head, low_text, high_text, stack_text};

use crate::input::{Flow, Input, Link, Wire};
use crate::listed::{Column, Listed, add_divided, add_list};
use rina_base::Memory;
use rina_schedule::Text;

/// Appends words and a number.
#[tactic(auto, unfolding(crate::specs::Text::led))]
pub(crate) fn add_led(text: &mut Text, words: &[u8], n: u64) -> Result<(), Memory>
    ensures { Adds result text.old text.new (led words.now n) }
{
    text.add(words)?;
    text.number(n)
}

#[tactic(auto, unfolding(crate::specs::Text::quoted))]
fn add_quoted(text: &mut Text, letter: &[u8], n: u32) -> Result<(), Memory>
    ensures { Adds result text.old text.new (quoted letter.now n) }
{
    text.push(b'"')?;
    add_led(text, letter, u64::from(n))?;
    text.push(b'"')
}

fn add_node(text: &mut Text, n: u32) -> Result<(), Memory>
    ensures { Adds result text.old text.new (node_text n) }
{
    add_quoted(text, b"n", n)
}

#[tactic(auto, unfolding(crate::specs::Text::ends_text))]
fn add_ends(text: &mut Text, a: u32, b: u32) -> Result<(), Memory>
    ensures { Adds result text.old text.new (ends_text a b) }
{
    add_node(text, a)?;
    text.add(b", ")?;
    add_node(text, b)
}

#[tactic(auto, unfolding(crate::specs::Text::storm_text))]
fn add_storm(text: &mut Text, wire: Wire) -> Result<(), Memory>
    ensures { Adds result text.old text.new (storm_text wire) }
{
    add_led(text, b"storm = { seed = ", wire.seed)?;
    add_led(text, b", lose = ", u64::from(wire.lose))?;
    add_led(text, b", repeat = ", u64::from(wire.repeat))?;
    text.add(b", spread = 4 }\n")
}

#[tactic(auto, unfolding(crate::specs::Text::wire_head))]
fn wire_head() -> &'static [u8]
    ensures { result.now ≡ wire_head }
{
    b"[[wire]]\nname = \"w"
}

#[tactic(auto, unfolding(crate::specs::Text::wire_limits))]
fn wire_limits() -> &'static [u8]
    ensures { result.now ≡ wire_limits }
{
    b"\nlife = 12\nlargest = 1500\n"
}

#[tactic(auto, unfolding(crate::specs::Text::delay_text))]
fn add_delay(text: &mut Text, wire: Wire) -> Result<(), Memory>
    ensures { Adds result text.old text.new (delay_text wire) }
{
    add_led(text, b"]\ndelay = ", u64::from(wire.delay))?;
    text.add(wire_limits())
}

#[tactic(auto, unfolding(crate::specs::Text::wire_text))]
fn add_wire(text: &mut Text, wire: Wire) -> Result<(), Memory>
    ensures { Adds result text.old text.new (wire_text wire) }
{
    add_led(text, wire_head(), u64::from(wire.number))?;
    text.add(b"\"\nends = [")?;
    add_ends(text, wire.number, wire.to)?;
    add_delay(text, wire)?;
    add_storm(text, wire)
}

fn add_wires(text: &mut Text, wires: &[Wire]) -> Result<(), Memory>
    ensures { Adds result text.old text.new (flat_map wire_text wires.now) }
{
    match wires {
        [] => Ok(()),
        [first, others @ ..] => {
            add_wire(text, *first)?;
            add_wires(text, others)
        }
    }
}

#[tactic(auto, unfolding(crate::specs::Text::link_ends))]
fn add_link_ends(text: &mut Text, a: u32, b: u32) -> Result<(), Memory>
    ensures { Adds result text.old text.new (link_ends a b) }
{
    text.add(b"a = ")?;
    add_node(text, a)?;
    text.add(b", b = ")?;
    add_node(text, b)
}

#[tactic(auto, unfolding(crate::specs::Text::member_text))]
fn add_member(text: &mut Text, wire: Wire) -> Result<(), Memory>
    ensures { Adds result text.old text.new (member_text wire) }
{
    text.add(b"{ node = ")?;
    add_node(text, wire.number)?;
    add_led(text, b", addr = ", u64::from(wire.number) + 1)?;
    text.add(b" }")
}

#[tactic(auto, unfolding(crate::specs::Text::low_link_text))]
fn add_low_link(text: &mut Text, wire: Wire) -> Result<(), Memory>
    ensures { Adds result text.old text.new (low_link_text wire) }
{
    add_led(text, b"{ on = \"w", u64::from(wire.number))?;
    text.add(b"\", ")?;
    add_link_ends(text, wire.number, wire.to)?;
    text.add(b" }")
}

impl Listed for Wire {
    ghost shown = { column_text };

    fn add_to(&self, column: Column, text: &mut Text) -> Result<(), Memory> {
        match column {
            Column::Node => add_node(text, self.number),
            Column::Member => add_member(text, *self),
            Column::Link => add_low_link(text, *self),
        }
    }
}

#[tactic(auto, unfolding(crate::specs::Text::link_head))]
fn link_head() -> &'static [u8]
    ensures { result.now ≡ link_head }
{
    b"{ on = \"low\", "
}

#[tactic(auto, unfolding(crate::specs::Text::link_text))]
fn add_link(text: &mut Text, link: Link) -> Result<(), Memory>
    ensures { Adds result text.old text.new (link_text link) }
{
    text.add(link_head())?;
    add_link_ends(text, link.from, link.to)?;
    add_led(text, b", cube = ", u64::from(link.cube))?;
    text.add(b" }")
}

impl Listed for Link {
    ghost shown = { λ column. link_text };

    fn add_to(&self, _column: Column, text: &mut Text) -> Result<(), Memory> {
        add_link(text, *self)
    }
}

#[tactic(auto, unfolding(crate::specs::Text::end_text))]
fn add_end(text: &mut Text, node: u32, app: &[u8], label: &[u8], n: u32) -> Result<(), Memory>
    ensures { Adds result text.old text.new (end_text node app.now label.now n) }
{
    text.add(b"{ node = ")?;
    add_node(text, node)?;
    text.add(b", app = ")?;
    add_quoted(text, app, n)?;
    text.add(b", label = ")?;
    add_quoted(text, label, n)?;
    text.add(b" }")
}

#[tactic(auto, unfolding(crate::specs::Text::flow_text))]
fn add_flow(text: &mut Text, flow: Flow) -> Result<(), Memory>
    ensures { Adds result text.old text.new (flow_text flow) }
{
    add_led(text, b"{ cube = ", u64::from(flow.cube))?;
    text.add(b", from = ")?;
    add_end(text, flow.from, b"a", b"p", flow.number)?;
    text.add(b", to = ")?;
    add_end(text, flow.to, b"b", b"q", flow.number)?;
    text.add(b" }")
}

impl Listed for Flow {
    ghost shown = { λ column. flow_text };

    fn add_to(&self, _column: Column, text: &mut Text) -> Result<(), Memory> {
        add_flow(text, *self)
    }
}

/// The keys of the lower DIF before its members and links.
const LOW_HEAD: &[u8] = b"[[dif]]
name = \"low\"
rank = 1
static = true
pdu = 300
widths = { addr = 1, cep = 2, len = 2, seq = 2 }
queue = 64
policy = \"round\"
wait = 500
manage = { mpl = 200, r = 60, a = 2, retry = 15, window = 16 }
cube = [ { id = 1, kind = \"datagram\", mpl = 200, window = 64, largest = 250 }, { id = 2, kind = \"reliable\", mpl = 200, window = 16, largest = 250, r = 60, a = 2, retry = 15 } ]
";

/// The keys of the upper DIF before its members, links and flows.
const HIGH_HEAD: &[u8] = b"[[dif]]
name = \"high\"
rank = 2
static = true
pdu = 250
widths = { addr = 1, cep = 2, len = 2, seq = 2 }
queue = 64
policy = \"weighted\"
wait = 2000
manage = { mpl = 900, r = 200, a = 4, retry = 60, window = 16 }
cube = [ { id = 1, kind = \"loose\", mpl = 900, window = 64, largest = 1000 }, { id = 2, kind = \"reliable\", mpl = 900, window = 16, largest = 1000, r = 200, a = 4, retry = 60 } ]
";

#[tactic(auto, unfolding(crate::specs::Text::low_head))]
fn add_low_head(text: &mut Text) -> Result<(), Memory>
    ensures { Adds result text.old text.new low_head }
{
    text.add(LOW_HEAD)
}

#[tactic(auto, unfolding(crate::specs::Text::high_head))]
fn add_high_head(text: &mut Text) -> Result<(), Memory>
    ensures { Adds result text.old text.new high_head }
{
    text.add(HIGH_HEAD)
}

#[tactic(auto, unfolding(crate::specs::Text::low_text))]
fn add_low(text: &mut Text, input: &Input) -> Result<(), Memory>
    ensures { Adds result text.old text.new (low_text input.now) }
{
    add_low_head(text)?;
    add_list(text, b"member", Column::Member, input.wires.as_slice())?;
    add_list(text, b"link", Column::Link, input.wires.as_slice())
}

#[tactic(auto, unfolding(crate::specs::Text::high_text))]
fn add_high(text: &mut Text, input: &Input) -> Result<(), Memory>
    ensures { Adds result text.old text.new (high_text input.now) }
{
    add_high_head(text)?;
    add_list(text, b"member", Column::Member, input.wires.as_slice())?;
    add_list(text, b"link", Column::Link, input.links.as_slice())?;
    add_list(text, b"flow", Column::Link, input.flows.as_slice())
}

/// Appends the text of a stack.
#[tactic(auto, unfolding(crate::specs::Text::stack_text))]
pub(crate) fn add_stack(text: &mut Text, input: &Input) -> Result<(), Memory>
    ensures { Adds result text.old text.new (stack_text input.now) }
{
    text.add(b"nodes = [")?;
    add_divided(text, Column::Node, input.wires.as_slice())?;
    text.add(b"]\n")?;
    add_wires(text, input.wires.as_slice())?;
    add_low(text, input)?;
    add_high(text, input)
}
