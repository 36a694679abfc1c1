//! What became of one SDU: when it was got, and which write-offs are of its PDUs.
ghost use Rattle.std.specs.Prelude.{◌≡◌, find, option_map};
ghost use Rattle.std.specs.List.{list_any};
ghost use Rattle.rina_view.specs.Rows.{same_num, same_flow, are_opposite, is_other_end, got_there, is_used_by, is_got, got_at, is_piece, has_address, is_between, is_from, is_off_of};

use crate::shown::{End, Entry, Off};
use rina_base::{FlowName, Key, Num, PduKind, Tick};
use rina_iface::Role;

#[tactic(auto, unfolding(crate::specs::Rows::same_num))]
fn same_num(a: Num, b: Num) -> bool
    ensures { result ≡ same_num a b }
{
    a.cep == b.cep && a.seq == b.seq
}

#[tactic(auto, unfolding(crate::specs::Rows::same_flow))]
fn same_flow(a: FlowName, b: FlowName) -> bool
    ensures { result ≡ same_flow a b }
{
    a.src == b.src && a.tick == b.tick && a.count == b.count
}

#[tactic(auto, unfolding(crate::specs::Rows::are_opposite))]
fn are_opposite(a: Role, b: Role) -> bool
    ensures { result ≡ are_opposite a b }
{
    match a {
        Role::Asker => matches!(b, Role::Far),
        Role::Far => matches!(b, Role::Asker),
    }
}

#[tactic(auto, unfolding(crate::specs::Rows::is_other_end))]
fn is_other_end(end: &End, other: &End) -> bool
    ensures { result ≡ is_other_end end.now other.now }
{
    end.line == other.line
        && end.fac.is(&other.fac)
        && same_flow(end.flow, other.flow)
        && are_opposite(end.role, other.role)
}

/// The other end of a flow, in the same journal.
pub fn other_end<'a>(ends: &'a [End], end: &End) -> Option<&'a End>
    ensures { option_map (λ e. e.now) result ≡ find (is_other_end end.now) ends.now }
{
    ends.iter().find(|other| is_other_end(end, other))
}

/// What the other end of a flow got, in the same journal.
#[tactic(auto, unfolding(crate::specs::Rows::got_there))]
pub(crate) fn got_there<'a>(ends: &'a [End], end: &End) -> &'a [Entry]
    ensures { result.now ≡ got_there ends.now end.now }
{
    match other_end(ends, end) {
        Some(other) => other.got.as_slice(),
        None => &[],
    }
}

#[tactic(auto, unfolding(crate::specs::Rows::is_used_by))]
fn is_used_by(sent: Entry, tick: Tick, other: &Entry) -> bool
    ensures { result ≡ is_used_by sent tick other.now }
{
    same_num(other.num, sent.num) && other.at <= tick
}

/// Whether the number of an SDU was used again by a tick.
fn is_used_again(sent: Entry, tick: Tick, later: &[Entry]) -> bool
    ensures { result ≡ list_any (is_used_by sent tick) later.now }
{
    later.iter().any(|other| is_used_by(sent, tick, other))
}

#[tactic(auto, unfolding(crate::specs::Rows::is_got))]
fn is_got(sent: Entry, later: &[Entry], got: &Entry) -> bool
    ensures { result ≡ is_got sent later.now got.now }
{
    same_num(got.num, sent.num) && sent.at <= got.at && !is_used_again(sent, got.at, later)
}

/// The tick at which an SDU was first got.
#[tactic(auto, unfolding(crate::specs::Rows::got_at))]
pub(crate) fn got_at(sent: Entry, later: &[Entry], got: &[Entry]) -> Option<Tick>
    ensures { result ≡ got_at sent later.now got.now }
{
    let entry = got.iter().find(|entry| is_got(sent, later, entry))?;
    Some(entry.at)
}

#[tactic(auto, unfolding(crate::specs::Rows::is_piece))]
fn is_piece(kind: PduKind) -> bool
    ensures { result ≡ is_piece kind }
{
    matches!(kind, PduKind::Piece)
}

#[tactic(auto, unfolding(crate::specs::Rows::has_address))]
fn has_address(role: Role, flow: FlowName, src: u32) -> bool
    ensures { result ≡ has_address role flow src }
{
    match role {
        Role::Asker => src == flow.src,
        Role::Far => src != flow.src,
    }
}

#[tactic(auto, unfolding(crate::specs::Rows::is_between))]
fn is_between(num: Num, seq: u64, other: &Entry) -> bool
    ensures { result ≡ is_between num seq other.now }
{
    other.num.cep == num.cep && num.seq < other.num.seq && other.num.seq <= seq
}

/// Whether another SDU of the end begins behind this one, up to a number.
fn begins_between(end: &End, num: Num, seq: u64) -> bool
    ensures { result ≡ list_any (is_between num seq) end.now.sent }
{
    end.sent
        .as_slice()
        .iter()
        .any(|other| is_between(num, seq, other))
}

/// Whether data was written off that has the CEP-id and the address of the end.
#[tactic(auto, unfolding(crate::specs::Rows::is_from))]
fn is_from(end: &End, num: Num, key: Key) -> bool
    ensures { result ≡ is_from end.now num key }
{
    is_piece(key.kind)
        && 0 < num.cep
        && key.scep == num.cep
        && has_address(end.role, end.flow, key.src)
}

/// Whether what was written off is a PDU of the SDU of this number, which the end sent.
#[tactic(auto, unfolding(crate::specs::Rows::is_off_of))]
pub(crate) fn is_off_of(end: &End, num: Num, off: &Off) -> bool
    ensures { result ≡ is_off_of end.now num off.now }
{
    let seq = u64::from(off.key.seq);
    is_from(end, num, off.key) && num.seq <= seq && !begins_between(end, num, seq)
}
