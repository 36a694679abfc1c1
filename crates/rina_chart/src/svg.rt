//! The text of a picture: an SVG document.
ghost use Rattle.std.specs.Prelude.{◌≡◌};
ghost use Rattle.std.specs.List.{flat_map};
ghost use Rattle.rina_schedule.specs.Spelling.{Adds};
ghost use Rattle.rina_chart.specs.Svg.{attribute, box_attributes, corner, dark_style, document, extent, head, head_at, heading, label_class, label_text, labelled_line, lifeline_text, light_style, line, markers, opened, opening, point_from, point_to, rectangle, root, shape_text, sized, style, tail, text_end, text_opening, tick_text, view_box};

use crate::escape::add_escaped;
use crate::frame::{Frame, picture_height, picture_width, top_of};
use crate::shape::{Label, Point, Shape};
use rina_base::{Memory, Name};
use rina_schedule::Text;
use rina_view::{flow, num};

const LIGHT: &[u8] = b"text{font:12px sans-serif;fill:#1f2328}
.page,.band{fill:#ffffff}
.grid{stroke:#eaeef2}
.tick{font-size:11px;text-anchor:end;dominant-baseline:middle;fill:#59636e}
.life{stroke:#8c959f}
.node{font-weight:bold;text-anchor:middle}
.got{stroke:#0969da;stroke-width:1.5;marker-end:url(#tip)}
.lost{stroke:#cf222e;stroke-width:1.5;marker-end:url(#end)}
.tip{fill:#0969da}
.end{fill:none;stroke:#cf222e;stroke-width:1.5}
.label,.back{font-size:11px;stroke:#ffffff;stroke-width:3px;paint-order:stroke}
.back{text-anchor:end}
";

const DARK: &[u8] = b"@media (prefers-color-scheme: dark){
text{fill:#e6edf3}
.page,.band{fill:#0d1117}
.grid{stroke:#21262d}
.tick{fill:#9198a1}
.life{stroke:#6e7681}
.got{stroke:#4493f8}
.lost{stroke:#f85149}
.tip{fill:#4493f8}
.end{stroke:#f85149}
.label,.back{stroke:#0d1117}
}
";

const MARKERS: &[u8] = b"<defs>
<marker id=\"tip\" markerUnits=\"userSpaceOnUse\" markerWidth=\"9\" markerHeight=\"8\" refX=\"9\" refY=\"4\" orient=\"auto\"><path class=\"tip\" d=\"M0 0L9 4L0 8z\"/></marker>
<marker id=\"end\" markerUnits=\"userSpaceOnUse\" markerWidth=\"10\" markerHeight=\"10\" refX=\"5\" refY=\"5\"><path class=\"end\" d=\"M1 1L9 9M1 9L9 1\"/></marker>
</defs>
";

/// Appends ` NAME="N"`.
#[tactic(auto, unfolding(crate::specs::Svg::attribute))]
fn attribute(text: &mut Text, name: &[u8], n: u64) -> Result<(), Memory>
    ensures { Adds result text.old text.new (attribute name.now n) }
{
    text.field(name)?;
    text.add(b"=\"")?;
    text.number(n)?;
    text.push(b'"')
}

/// Appends `<ELEMENT class="CLASS"`.
#[tactic(auto, unfolding(crate::specs::Svg::opening))]
fn opening(text: &mut Text, element: &[u8], class: &[u8]) -> Result<(), Memory>
    ensures { Adds result text.old text.new (opening element.now class.now) }
{
    text.push(b'<')?;
    text.add(element)?;
    text.add(b" class=\"")?;
    text.add(class)?;
    text.push(b'"')
}

/// Appends the beginning of a line.
#[tactic(auto, unfolding(crate::specs::Svg::point_from))]
fn point_from(text: &mut Text, at: Point) -> Result<(), Memory>
    ensures { Adds result text.old text.new (point_from at) }
{
    attribute(text, b"x1", at.x)?;
    attribute(text, b"y1", at.y)
}

/// Appends the end of a line.
#[tactic(auto, unfolding(crate::specs::Svg::point_to))]
fn point_to(text: &mut Text, at: Point) -> Result<(), Memory>
    ensures { Adds result text.old text.new (point_to at) }
{
    attribute(text, b"x2", at.x)?;
    attribute(text, b"y2", at.y)
}

/// Appends a line.
#[tactic(auto, unfolding(crate::specs::Svg::line))]
fn line(text: &mut Text, class: &[u8], from: Point, to: Point) -> Result<(), Memory>
    ensures { Adds result text.old text.new (line class.now from to) }
{
    opening(text, b"line", class)?;
    point_from(text, from)?;
    point_to(text, to)?;
    text.add(b"/>\n")
}

/// Appends the opening of a text at a point.
#[tactic(auto, unfolding(crate::specs::Svg::text_opening))]
fn text_opening(text: &mut Text, class: &[u8], at: Point) -> Result<(), Memory>
    ensures { Adds result text.old text.new (text_opening class.now at) }
{
    opening(text, b"text", class)?;
    attribute(text, b"x", at.x)?;
    attribute(text, b"y", at.y)?;
    text.push(b'>')
}

/// Appends the end of a text.
#[tactic(auto, unfolding(crate::specs::Svg::text_end))]
fn text_end(text: &mut Text) -> Result<(), Memory>
    ensures { Adds result text.old text.new text_end }
{
    text.add(b"</text>\n")
}

fn label_class(label: &Label) -> &'static [u8]
    ensures { result.now ≡ label_class label.now.leftward }
{
    if label.leftward { b"back" } else { b"label" }
}

/// Appends the flow and the number of an SDU.
#[tactic(auto, unfolding(crate::specs::Svg::label_text))]
fn label_text(text: &mut Text, label: &Label) -> Result<(), Memory>
    ensures { Adds result text.old text.new (label_text label.now) }
{
    text_opening(text, label_class(label), label.at)?;
    flow(text, label.flow)?;
    text.push(b' ')?;
    num(text, label.num)?;
    text_end(text)
}

/// Appends the line of an SDU and its label.
fn labelled_line(
    text: &mut Text,
    class: &[u8],
    from: Point,
    to: Point,
    label: &Label,
) -> Result<(), Memory>
    ensures { Adds result text.old text.new (labelled_line class.now from to label.now) }
{
    line(text, class, from, to)?;
    label_text(text, label)
}

/// Appends a tick at the left, and the line across the picture.
#[tactic(auto, unfolding(crate::specs::Svg::tick_text))]
fn tick_text(text: &mut Text, tick: u32, y: u64, width: u64) -> Result<(), Memory>
    ensures { Adds result text.old text.new (tick_text tick y width) }
{
    line(text, b"grid", Point { x: 60, y }, Point { x: width, y })?;
    text_opening(text, b"tick", Point { x: 52, y })?;
    text.number(u64::from(tick))?;
    text_end(text)
}

/// Appends the place of a box.
#[tactic(auto, unfolding(crate::specs::Svg::box_attributes))]
fn box_attributes(text: &mut Text, y: u64, width: u64, height: u64) -> Result<(), Memory>
    ensures { Adds result text.old text.new (box_attributes y width height) }
{
    attribute(text, b"y", y)?;
    attribute(text, b"width", width)?;
    attribute(text, b"height", height)
}

/// Appends a box that begins at the left.
#[tactic(auto, unfolding(crate::specs::Svg::rectangle))]
fn rectangle(text: &mut Text, class: &[u8], y: u64, width: u64, height: u64) -> Result<(), Memory>
    ensures { Adds result text.old text.new (rectangle class.now y width height) }
{
    opening(text, b"rect", class)?;
    box_attributes(text, y, width, height)?;
    text.add(b"/>\n")
}

/// Appends a lifeline and the name above it.
#[tactic(auto, unfolding(crate::specs::Svg::lifeline_text))]
fn lifeline_text(text: &mut Text, top: Point, bottom: Point, node: &Name) -> Result<(), Memory>
    ensures { Adds result text.old text.new (lifeline_text top bottom node.now) }
{
    line(text, b"life", top, bottom)?;
    let at = Point {
        x: top.x,
        y: top.y.saturating_sub(8),
    };
    text_opening(text, b"node", at)?;
    add_escaped(text, node.as_bytes())?;
    text_end(text)
}

/// Appends a shape.
#[tactic(auto, unfolding(crate::specs::Svg::shape_text))]
fn shape_text(text: &mut Text, shape: &Shape) -> Result<(), Memory>
    ensures { Adds result text.old text.new (shape_text shape.now) }
{
    match shape {
        Shape::Tick { tick, y, width } => tick_text(text, *tick, *y, *width),
        Shape::Arrow { from, to, label } => labelled_line(text, b"got", *from, *to, label),
        Shape::Cross { from, to, label } => labelled_line(text, b"lost", *from, *to, label),
        Shape::Band { y, width } => rectangle(text, b"band", *y, *width, 60),
        Shape::Lifeline { top, bottom, node } => lifeline_text(text, *top, *bottom, node),
    }
}

/// Appends shapes, in their order.
#[tactic(auto, using(std::proofs::lemmas::List::drop_more))]
fn all_shapes(text: &mut Text, shapes: &[Shape]) -> Result<(), Memory>
    ensures { Adds result text.old text.new (flat_map shape_text shapes.now) }
{
    'shapes: for shape in shapes {
        shape_text(text, shape)?;
    }
    Ok(())
}

/// Appends the colours of a light page.
#[tactic(auto, unfolding(crate::specs::Svg::light_style))]
fn light_style(text: &mut Text) -> Result<(), Memory>
    ensures { Adds result text.old text.new light_style }
{
    text.add(LIGHT)
}

/// Appends the colours of a dark page.
#[tactic(auto, unfolding(crate::specs::Svg::dark_style))]
fn dark_style(text: &mut Text) -> Result<(), Memory>
    ensures { Adds result text.old text.new dark_style }
{
    text.add(DARK)
}

/// Appends the tip of an arrow, and the cross at the end of a stub.
#[tactic(auto, unfolding(crate::specs::Svg::markers))]
fn markers(text: &mut Text) -> Result<(), Memory>
    ensures { Adds result text.old text.new markers }
{
    text.add(MARKERS)
}

/// Appends colours and marks.
#[tactic(auto, unfolding(crate::specs::Svg::style))]
fn style(text: &mut Text) -> Result<(), Memory>
    ensures { Adds result text.old text.new style }
{
    text.add(b"<style>\n")?;
    light_style(text)?;
    dark_style(text)?;
    text.add(b"</style>\n")?;
    markers(text)
}

/// Appends that the part of the plane that is shown begins at the left.
#[tactic(auto, unfolding(crate::specs::Svg::view_box))]
fn view_box(text: &mut Text) -> Result<(), Memory>
    ensures { Adds result text.old text.new view_box }
{
    text.add(b" viewBox=\"0")
}

/// Appends where that part begins.
#[tactic(auto, unfolding(crate::specs::Svg::corner))]
fn corner(text: &mut Text, y: u64) -> Result<(), Memory>
    ensures { Adds result text.old text.new (corner y) }
{
    view_box(text)?;
    text.number_field(y)
}

/// Appends how large that part is.
#[tactic(auto, unfolding(crate::specs::Svg::extent))]
fn extent(text: &mut Text, width: u64, height: u64) -> Result<(), Memory>
    ensures { Adds result text.old text.new (extent width height) }
{
    text.number_field(width)?;
    text.number_field(height)
}

/// Appends the size of the document, and which part of the plane it shows.
#[tactic(auto, unfolding(crate::specs::Svg::sized))]
fn sized(text: &mut Text, y: u64, width: u64, height: u64) -> Result<(), Memory>
    ensures { Adds result text.old text.new (sized y width height) }
{
    attribute(text, b"width", width)?;
    attribute(text, b"height", height)?;
    corner(text, y)?;
    extent(text, width, height)?;
    text.add(b"\">\n")
}

/// Appends the name of the root and of its language.
#[tactic(auto, unfolding(crate::specs::Svg::root))]
fn root(text: &mut Text) -> Result<(), Memory>
    ensures { Adds result text.old text.new root }
{
    text.add(b"<svg xmlns=\"http://www.w3.org/2000/svg\"")
}

/// Appends the opening of a document.
#[tactic(auto, unfolding(crate::specs::Svg::opened))]
fn opened(text: &mut Text, y: u64, width: u64, height: u64) -> Result<(), Memory>
    ensures { Adds result text.old text.new (opened y width height) }
{
    root(text)?;
    sized(text, y, width, height)
}

/// Appends the opening, colours and marks, and a page.
#[tactic(auto, unfolding(crate::specs::Svg::head_at))]
fn head_at(text: &mut Text, y: u64, width: u64, height: u64) -> Result<(), Memory>
    ensures { Adds result text.old text.new (head_at y width height) }
{
    opened(text, y, width, height)?;
    style(text)?;
    rectangle(text, b"page", y, width, height)
}

/// Appends what stands before the shapes.
fn head(text: &mut Text, frame: Frame) -> Result<(), Memory>
    ensures { Adds result text.old text.new (head frame) }
{
    let (y, width, height) = (top_of(frame), picture_width(frame), picture_height(frame));
    head_at(text, y, width, height)
}

/// Appends the facility and the ticks that are shown, as a heading.
#[tactic(auto, unfolding(crate::specs::Svg::heading))]
fn heading(text: &mut Text, fac: &[u8], frame: Frame) -> Result<(), Memory>
    ensures { Adds result text.old text.new (heading fac.now frame) }
{
    let at = Point {
        x: 12,
        y: top_of(frame) + 20,
    };
    text_opening(text, b"head", at)?;
    text.add(b"SDUs of ")?;
    add_escaped(text, fac)?;
    text.add(b", ticks ")?;
    text.number(u64::from(frame.window.from))?;
    text.add(b" to ")?;
    text.number(u64::from(frame.window.to))?;
    text_end(text)
}

/// Appends what stands behind the shapes.
#[tactic(auto, unfolding(crate::specs::Svg::tail))]
fn tail(text: &mut Text, fac: &[u8], frame: Frame) -> Result<(), Memory>
    ensures { Adds result text.old text.new (tail fac.now frame) }
{
    heading(text, fac, frame)?;
    text.add(b"</svg>\n")
}

/// Appends a picture as a document.
pub(crate) fn document(
    text: &mut Text,
    fac: &[u8],
    frame: Frame,
    shapes: &[Shape],
) -> Result<(), Memory>
    ensures { Adds result text.old text.new (document fac.now frame shapes.now) }
{
    head(text, frame)?;
    all_shapes(text, shapes)?;
    tail(text, fac, frame)
}
