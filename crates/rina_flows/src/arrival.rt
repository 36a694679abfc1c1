//! A piece that comes to a connection. All memory is found before.
ghost use Rattle.std.specs.Prelude.{◌≡◌, ◌+◌, ◌≤◌, ◌^◌, List, [], ◌∷◌, ◌++◌, length, OnOk};
ghost use Rattle.std.specs.Vec.{vec_capacity};
ghost use Rattle.rina_base.specs.Pdus.{pdu_of};
ghost use Rattle.rina_dif_law.specs.Incoming.{lines_for};
ghost use Rattle.rina_dtp.specs.Joins.{bytes_of};
ghost use Rattle.rina_flows.specs.Arriving.{cause_of};
ghost use Rattle.rina_flows.specs.Delivering.{Delivers, Receives, WritesOff, next_num, with_fetched};
ghost use Rattle.rina_flows.specs.Tied.{ids_of};
ghost use Rattle.rina_law.specs.Pieces.{Sdu};

use rina_account::Off;
use rina_base::{Bytes, Cause, Memory, Num, PduView, Tick};
use rina_conn::Conn;
use rina_dtp::{Rx, Verdict};
use rina_iface::Entry;

/// The lists that a piece may add to: what its end got, and the lines of a ledger, each with room for all.
#[derive(Drop)]
pub struct Notes {
    pub got: Vec<Entry>,
    pub lines: Vec<Off>,
}

impl Notes {
    /// Finds room for so many SDUs more, and for the lines of so many pieces and of one more.
    pub fn make_room(&mut self, whole: usize, kept: u64) -> Result<(), Memory>
        requires { kept ≤ 2 ^ 34 }
        ensures got { self.new.got.items ≡ self.old.got.items }
        ensures lines { self.new.lines.items ≡ self.old.lines.items }
        ensures room_got { OnOk result (length self.old.got.items + whole ≤ vec_capacity self.new.got) }
        ensures room_lines { OnOk result (length self.old.lines.items + (kept + 1) ≤ vec_capacity self.new.lines) }
    {
        self.got.reserve(whole)?;
        self.lines.reserve(kept as usize + 1)?;
        Ok(())
    }

    /// Writes the line of a piece that came, where it is written off.
    pub fn write(&mut self, pdu: &PduView<'_>, cause: Option<Cause>)
        ensures got { self.new.got ≡ self.old.got }
        ensures lines { length self.old.lines.items + 1 ≤ vec_capacity self.old.lines → self.new.lines.items ≡ self.old.lines.items ++ lines_for (pdu_of pdu.now) cause }
    {
        if let Some(cause) = cause {
            let key = pdu.key();
            let _ = self.lines.push(Off { key, cause });
        }
    }
}

/// Why a piece is written off that came.
pub fn cause_of(verdict: Verdict) -> Option<Cause>
    ensures { result ≡ cause_of verdict }
{
    match verdict {
        Verdict::Accept { .. } | Verdict::Hold => None,
        Verdict::Off(cause) => Some(cause),
    }
}

/// Writes a line for each piece that a receiver gave up. A line for which there is no room is left out.
pub fn write_off(rx: &mut Rx, now: Tick, lines: &mut Vec<Off>)
    ensures writes { WritesOff now rx.old lines.old.items (vec_capacity lines.old) rx.new lines.new.items }
    ensures capacity { vec_capacity lines.old ≤ vec_capacity lines.new }
{
    while let Some((key, cause)) = rx.dropped(now) {
        let _ = lines.push(Off { key, cause });
    }
}

/// Fetches the next SDU that is whole, and tells its number.
fn fetch(conn: &mut Conn) -> Option<Num>
    ensures num { result ≡ next_num (ids_of conn.old) conn.old.rx.join.whole }
    ensures rest { (w : Sdu) (ws : List Sdu) → conn.old.rx.join.whole ≡ w ∷ ws → conn.new ≡ with_fetched (w ∷ []) ws conn.old }
{
    let cep = conn.sending.form.peer.dcep;
    let sdu = conn.next_whole()?;
    let seq = u64::from(sdu.first);
    Some(Num { cep, seq })
}

/// Delivers the SDUs that became whole, with these bytes. One for which there is no room is left out.
fn deliver(conn: &mut Conn, now: Tick, bodies: Vec<Bytes>, got: &mut Vec<Entry>)
    ensures { bodies.items ≡ bytes_of conn.old.rx.join.whole → Delivers now conn.old got.old.items (vec_capacity got.old) conn.new got.new.items }
{
    for bytes in bodies {
        let Some(num) = fetch(conn) else { return };
        let _ = got.push(Entry {
            tick: now,
            num,
            bytes,
        });
    }
}

/// Lets a connection receive a piece, while `unpassed` SDUs wait to be passed. `bodies` are the bytes of the SDUs that
/// it makes whole.
pub fn receive(
    conn: &mut Conn,
    now: Tick,
    pdu: &PduView<'_>,
    unpassed: u32,
    bodies: Vec<Bytes>,
    notes: &mut Notes,
) -> Verdict
    requires { now ≤ 10000000 }
    ensures capacity { vec_capacity notes.old.lines ≤ vec_capacity notes.new.lines }
    ensures receives { Receives now (pdu_of pdu.now) unpassed conn.old bodies.items notes.old.got.items (vec_capacity notes.old.got) notes.old.lines.items (vec_capacity notes.old.lines) result conn.new notes.new.got.items notes.new.lines.items }
{
    write_off(&mut conn.rx, now, &mut notes.lines);
    let verdict = conn.on_data(now, pdu, unpassed);
    deliver(conn, now, bodies, &mut notes.got);
    write_off(&mut conn.rx, now, &mut notes.lines);
    verdict
}
