//! Drawing a stack and its schedule.
ghost use Rattle.std.specs.Prelude.{◌≡◌, ◌+◌, ◌%◌, ◌^◌, ◌<◌, ◌≤◌, IfOk};
ghost use Rattle.rina_gen.specs.Several.{several};
ghost use Rattle.rina_gen.specs.Input.{wire_drawn, link_drawn, flow_drawn, send_drawn, read_drawn, tick_drawn, line_drawn, line_count, input_of, input};

use rand_pcg::Lcg64Xsh32;
use rina_base::{Memory, Seq};
use rina_draws::{draw, seeded};
use std::alloc::Global;

/// A wire from a node to the next one.
#[derive(Clone, Copy, Debug, PartialEq, Eq)]
pub struct Wire {
    /// The number of the wire, which is that of its first node.
    pub number: u32,
    /// The second node.
    pub to: u32,
    /// The delay in ticks, 1 to 3.
    pub delay: u32,
    /// The seed of its storm.
    pub seed: u64,
    /// How many of 1,000 frames the storm loses, 0 to 59.
    pub lose: u32,
    /// How many of 1,000 frames that are not lost the storm repeats, 0 to 59.
    pub repeat: u32,
}

/// A link of the upper DIF.
#[derive(Clone, Copy, Debug, PartialEq, Eq)]
pub struct Link {
    /// The first node.
    pub from: u32,
    /// The second node.
    pub to: u32,
    /// The lower cube that carries it, 1 or 2.
    pub cube: u32,
}

/// A flow of the upper DIF.
#[derive(Clone, Copy, Debug, PartialEq, Eq)]
pub struct Flow {
    /// The number of the flow, counted from 0.
    pub number: u32,
    /// The QoS cube, 1 or 2.
    pub cube: u32,
    /// The node that requests the flow.
    pub from: u32,
    /// The node of the other end, which differs from `from`.
    pub to: u32,
}

/// A line of the schedule that is drawn.
#[derive(Clone, Copy, Debug, PartialEq, Eq)]
pub enum Line {
    /// Sends zero bytes on a flow.
    Send {
        /// The flow, 0 to 5.
        flow: u32,
        /// The number of zero bytes, 0 to 1,000.
        zeros: u32,
    },
    /// Reads what a flow delivered.
    Read {
        /// The flow, 0 to 5.
        flow: u32,
    },
    /// Lets ticks pass.
    Tick {
        /// The number of ticks, 1 to 40.
        ticks: u32,
    },
}

/// A stack and a schedule as drawn.
#[derive(Drop)]
pub struct Input {
    /// The 3 to 6 wires of a ring, one from each node.
    pub wires: Seq<Wire>,
    /// The links of the upper DIF, a ring too, one from each node.
    pub links: Seq<Link>,
    /// The six flows of the upper DIF.
    pub flows: Seq<Flow>,
    /// The first 300 lines of the schedule.
    pub lines: Seq<Line>,
}

/// The next node of the ring.
fn next_node(nodes: u32, i: u32) -> u32
    requires { i < nodes }
    ensures { result ≡ (i + 1) % nodes }
{
    (i + 1) % nodes
}

#[tactic(auto, unfolding(crate::specs::Input::wire_drawn))]
fn draw_wire(seed: u32, nodes: u32, i: u32, generator: &mut Lcg64Xsh32) -> Wire
    requires { i < nodes }
    ensures wire { result ≡ (wire_drawn seed nodes i generator.old).0 }
    ensures after { generator.new ≡ (wire_drawn seed nodes i generator.old).1 }
{
    let delay = 1 + draw(generator, 3);
    let lose = draw(generator, 60);
    let repeat = draw(generator, 60);
    Wire {
        number: i,
        to: next_node(nodes, i),
        delay,
        seed: u64::from(seed) + u64::from(i),
        lose,
        repeat,
    }
}

#[tactic(auto, unfolding(crate::specs::Input::link_drawn))]
fn draw_link(nodes: u32, i: u32, generator: &mut Lcg64Xsh32) -> Link
    requires { i < nodes }
    ensures link { result ≡ (link_drawn nodes i generator.old).0 }
    ensures after { generator.new ≡ (link_drawn nodes i generator.old).1 }
{
    let cube = 1 + draw(generator, 2);
    Link {
        from: i,
        to: next_node(nodes, i),
        cube,
    }
}

#[tactic(auto, unfolding(crate::specs::Input::flow_drawn))]
fn draw_flow(nodes: u32, i: u32, generator: &mut Lcg64Xsh32) -> Flow
    requires least { 2 ≤ nodes }
    requires most { nodes < 2 ^ 16 }
    ensures flow { result ≡ (flow_drawn nodes i generator.old).0 }
    ensures after { generator.new ≡ (flow_drawn nodes i generator.old).1 }
{
    let cube = 1 + draw(generator, 2);
    let from = draw(generator, nodes);
    let to = (from + 1 + draw(generator, nodes - 1)) % nodes;
    Flow {
        number: i,
        cube,
        from,
        to,
    }
}

#[tactic(auto, unfolding(crate::specs::Input::send_drawn))]
fn draw_send(generator: &mut Lcg64Xsh32) -> Line
    ensures line { result ≡ (send_drawn generator.old).0 }
    ensures after { generator.new ≡ (send_drawn generator.old).1 }
{
    let flow = draw(generator, 6);
    let zeros = draw(generator, 1001);
    Line::Send { flow, zeros }
}

#[tactic(auto, unfolding(crate::specs::Input::read_drawn))]
fn draw_read(generator: &mut Lcg64Xsh32) -> Line
    ensures line { result ≡ (read_drawn generator.old).0 }
    ensures after { generator.new ≡ (read_drawn generator.old).1 }
{
    let flow = draw(generator, 6);
    Line::Read { flow }
}

#[tactic(auto, unfolding(crate::specs::Input::tick_drawn))]
fn draw_tick(generator: &mut Lcg64Xsh32) -> Line
    ensures line { result ≡ (tick_drawn generator.old).0 }
    ensures after { generator.new ≡ (tick_drawn generator.old).1 }
{
    let ticks = 1 + draw(generator, 40);
    Line::Tick { ticks }
}

#[tactic(auto, unfolding(crate::specs::Input::line_drawn))]
fn draw_line(generator: &mut Lcg64Xsh32) -> Line
    ensures line { result ≡ (line_drawn generator.old).0 }
    ensures after { generator.new ≡ (line_drawn generator.old).1 }
{
    match draw(generator, 10) {
        0..=5 => draw_send(generator),
        6 | 7 => draw_read(generator),
        _ => draw_tick(generator),
    }
}

fn draw_wires(
    alloc: Global,
    seed: u32,
    nodes: u32,
    generator: &mut Lcg64Xsh32,
) -> Result<Seq<Wire>, Memory>
    ensures wires { IfOk result (λ v. v ≡ (several (wire_drawn seed nodes) nodes generator.old).0) }
    ensures after { IfOk result (λ v. generator.new ≡ (several (wire_drawn seed nodes) nodes generator.old).1) }
{
    let mut wires = Seq::new(alloc);
    for i in 0..nodes {
        wires.push(draw_wire(seed, nodes, i, generator))?;
    }
    Ok(wires)
}

fn draw_links(alloc: Global, nodes: u32, generator: &mut Lcg64Xsh32) -> Result<Seq<Link>, Memory>
    ensures links { IfOk result (λ v. v ≡ (several (link_drawn nodes) nodes generator.old).0) }
    ensures after { IfOk result (λ v. generator.new ≡ (several (link_drawn nodes) nodes generator.old).1) }
{
    let mut links = Seq::new(alloc);
    for i in 0..nodes {
        links.push(draw_link(nodes, i, generator))?;
    }
    Ok(links)
}

fn draw_flows(alloc: Global, nodes: u32, generator: &mut Lcg64Xsh32) -> Result<Seq<Flow>, Memory>
    requires least { 2 ≤ nodes }
    requires most { nodes < 2 ^ 16 }
    ensures flows { IfOk result (λ v. v ≡ (several (flow_drawn nodes) 6 generator.old).0) }
    ensures after { IfOk result (λ v. generator.new ≡ (several (flow_drawn nodes) 6 generator.old).1) }
{
    let mut flows = Seq::new(alloc);
    for i in 0..6u32 {
        flows.push(draw_flow(nodes, i, generator))?;
    }
    Ok(flows)
}

/// The number of lines of the schedule that are drawn.
#[tactic(auto, unfolding(crate::specs::Input::line_count))]
fn line_count() -> u32
    ensures { result ≡ line_count }
{
    300
}

fn draw_lines(alloc: Global, count: u32, generator: &mut Lcg64Xsh32) -> Result<Seq<Line>, Memory>
    ensures { IfOk result (λ v. v ≡ (several (λ i. line_drawn) count generator.old).0) }
{
    let mut lines = Seq::new(alloc);
    for _ in 0..count {
        lines.push(draw_line(generator))?;
    }
    Ok(lines)
}

#[tactic(auto, unfolding(crate::specs::Input::input_of))]
fn draw_all(
    alloc: Global,
    seed: u32,
    nodes: u32,
    generator: &mut Lcg64Xsh32,
) -> Result<Input, Memory>
    requires least { 2 ≤ nodes }
    requires most { nodes < 2 ^ 16 }
    ensures { IfOk result (λ i. i ≡ input_of seed nodes generator.old) }
{
    let wires = draw_wires(alloc, seed, nodes, generator)?;
    let links = draw_links(alloc, nodes, generator)?;
    let flows = draw_flows(alloc, nodes, generator)?;
    let lines = draw_lines(alloc, line_count(), generator)?;
    Ok(Input {
        wires,
        links,
        flows,
        lines,
    })
}

/// Draws a stack and its schedule with a generator of this seed. Fails once an allocation fails.
pub fn draw_input(alloc: Global, seed: u32) -> Result<Input, Memory>
    ensures { IfOk result (λ i. i ≡ input seed) }
{
    let mut generator = seeded(u64::from(seed));
    let nodes = 3 + draw(&mut generator, 4);
    draw_all(alloc, seed, nodes, &mut generator)
}
