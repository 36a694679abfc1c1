//! How a table of stacks is written, and what is told of each.
use rina_base::read_decimal;
use rina_stack::{BuiltIn, Plan, StackError, read_stack};
use std::alloc::Global;
use std::process::Abort;

/// Three nodes, two wires and two DIFs; the DIFs are the items 3 and 4.
pub(crate) static WHOLE: &str = "nodes = ['a', 'b', 'c']
wire = [
  { name = 'w', ends = ['a', 'b'], delay = 2, life = 10, largest = 1500 },
  { name = 'v', ends = ['b', 'c'], delay = 2, life = 10, largest = 96, storm = { seed = 1, lose = 2, repeat = 3, spread = 8 } },
]
[[dif]]
name = 'd'
rank = 1
static = true
pdu = 96
widths = { addr = 1, cep = 1, len = 2, seq = 2 }
queue = 5
policy = 'strict'
wait = 500
manage = { mpl = 40, r = 30, a = 2, retry = 10, window = 5 }
cube = [{ id = 1, kind = 'datagram', mpl = 40, window = 16, largest = 80 }]
member = [{ node = 'a', addr = 1 }, { node = 'b', addr = 2 }, { node = 'c', addr = 255 }]
rule = [{ subject = 'x/a', act = 'enrol', allow = true }]
link = [{ on = 'w', a = 'a', b = 'b' }, { on = 'v', a = 'c', b = 'b' }]
flow = [{ cube = 1, from = { node = 'a', app = 's', label = 'p' }, to = { node = 'b', app = 't', label = 'q' } }]
[[dif]]
name = 'e'
rank = 2
static = true
pdu = 80
widths = { addr = 2, cep = 2, len = 1, seq = 2 }
queue = 64
policy = 'weighted'
wait = 501
manage = { mpl = 40, r = 31, a = 3, retry = 31, window = 16 }
cube = [{ id = 2, kind = 'loose', mpl = 40, window = 4, largest = 244 }, { id = 3, kind = 'reliable', mpl = 40, r = 32, a = 4, retry = 11, window = 7, largest = 240 }]
member = [{ node = 'c', addr = 300 }, { node = 'a', addr = 4 }]
link = [{ on = 'd', a = 'a', b = 'c', cube = 1, weight = 9 }]
";

/// Whether a text is a number.
fn is_number(text: &str, number: u64) -> bool {
    read_decimal(u64::MAX, text.as_bytes()) == Some(number)
}

/// Whether a text is two numbers, with a space between them.
fn are_numbers(text: &str, first: u64, second: u64) -> bool {
    match text.split_once(" ") {
        Some((one, other)) => is_number(one, first) && is_number(other, second),
        None => false,
    }
}

/// Whether a text has the numbers of wires and DIFs of a plan.
fn tells_plan(text: &str, plan: &Plan) -> bool {
    match text.strip_prefix("plan ") {
        Some(rest) => are_numbers(rest, plan.wires.len() as u64, plan.difs.len() as u64),
        None => false,
    }
}

/// Whether a text tells what is read: the broken rule and its item, or the numbers of wires and DIFs.
fn tells(text: &str, read: &Result<Plan, StackError>) -> bool {
    match read {
        Ok(plan) => tells_plan(text, plan),
        Err(StackError::StackRule { n, item }) => {
            are_numbers(text, u64::from(*n), u64::from(*item))
        }
        Err(StackError::NotToml) => text == "no TOML",
        Err(StackError::Memory) => false,
    }
}

/// Whether this is told of a stack.
pub(crate) fn is_told(alloc: Global, stack: &[u8], text: &str) -> bool {
    let read = read_stack(alloc, stack, &BuiltIn);
    tells(text, &read)
}

/// Adds a line with these digits for each `#`.
fn add_line(alloc: Global, text: &mut String, line: &str, digits: &str) -> bool {
    match line.replace(alloc, "#", digits) {
        Ok(one) => text.push_str(one.as_str()).is_ok() && text.push_str("\n").is_ok(),
        Err(_) => false,
    }
}

/// Adds a line with a number for each `#`.
fn add_numbered(alloc: Global, text: &mut String, line: &str, number: u64) -> bool {
    match format!(in alloc; "{number}") {
        Ok(digits) => add_line(alloc, text, line, digits.as_str()),
        Err(_) => false,
    }
}

/// Adds a text so many times, on lines of their own, with the number of the time for each `#`.
fn add_times(alloc: Global, text: &mut String, times: &str) -> bool {
    let Some((count, line)) = times.split_once(" ") else {
        return false;
    };
    let Some(count) = read_decimal(65_535, count.as_bytes()) else {
        return false;
    };
    for number in 0..count {
        if !add_numbered(alloc, text, line, number) {
            return false;
        }
    }
    true
}

/// Adds a line of a text, on a line of its own. A line `* N TEXT` is that text N times.
fn add_part(alloc: Global, text: &mut String, part: &str) -> bool {
    if !text.is_empty() && text.push_str("\n").is_err() {
        return false;
    }
    match part.strip_prefix("* ") {
        Some(times) => add_times(alloc, text, times),
        None => text.push_str(part).is_ok(),
    }
}

/// Adds the lines that stand in one line of a table, with ` | ` between them.
fn add_lines(alloc: Global, text: &mut String, row: &str) -> bool {
    for part in row.split(" | ") {
        if !add_part(alloc, text, part) {
            return false;
        }
    }
    true
}

/// A text with another one in place of the first part that is this.
fn replaced(alloc: Global, text: &str, part: &str, instead: &str) -> Option<String> {
    if text.contains(part) {
        text.replacen(alloc, part, instead, 1).ok()
    } else {
        None
    }
}

/// A stack with other lines in place of the first ones that stand there, as in `OLD => NEW`.
fn changed(alloc: Global, stack: &str, change: &str) -> Option<String> {
    let (old, new) = change.split_once(" => ")?;
    let mut part = String::new(alloc);
    let mut instead = String::new(alloc);
    if add_lines(alloc, &mut part, old) && add_lines(alloc, &mut instead, new) {
        replaced(alloc, stack, part.as_str(), instead.as_str())
    } else {
        None
    }
}

/// Makes some changes in a stack, which have ` ;; ` between them.
fn change(alloc: Global, stack: &mut String, changes: &str) -> bool {
    for one in changes.split(" ;; ") {
        match changed(alloc, stack.as_str(), one) {
            Some(next) => *stack = next,
            None => return false,
        }
    }
    true
}

/// Makes the stack that a row says: the whole stack with some changes, or the lines that stand there.
fn make(alloc: Global, stack: &mut String, row: &str) -> bool {
    if row.contains(" => ") {
        stack.push_str(WHOLE).is_ok() && change(alloc, stack, row)
    } else {
        add_lines(alloc, stack, row)
    }
}

/// Whether a row tells what is told of its stack. One with a `#` is a heading.
fn is_so(alloc: Global, row: &str) -> bool {
    if row.starts_with("# ") {
        return true;
    }
    let mut stack = String::new(alloc);
    match row.split_once(": ") {
        Some((text, row)) => {
            make(alloc, &mut stack, row) && is_told(alloc, stack.as_bytes(), text)
        }
        None => false,
    }
}

/// Asserts that each row of a table tells what is told of its stack.
pub(crate) fn rows_are_so(rt: &impl Abort, alloc: Global, rows: &str) {
    for row in rows.lines() {
        assert!(rt; is_so(alloc, row), "{row}");
    }
}
