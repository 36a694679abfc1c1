//! Flows are asked for over two wires whose storms lose, repeat and delay frames.
use crate::running::{strictly, times_got, times_told};
use rina_run::Status;
use std::alloc::Global;
use std::test::Fail;

/// The system at which a flow is asked for, the one of the application, and the one between them.
const NODES: &str = "nodes = [\"a\", \"b\", \"c\"]\n";

/// One DIF over both wires, whose links send a message again for 60 ticks.
const DIF: &str = "[[dif]]
name = \"d\"
rank = 1
static = true
pdu = 400
widths = { addr = 1, cep = 1, len = 2, seq = 2 }
queue = 64
policy = \"strict\"
manage = { mpl = 40, r = 60, a = 2, retry = 10, window = 8 }
cube = [ { id = 1, kind = \"reliable\", mpl = 40, r = 60, a = 2, retry = 10, window = 4, largest = 240 } ]
member = [ { node = \"a\", addr = 1 }, { node = \"b\", addr = 2 }, { node = \"c\", addr = 3 } ]
link = [ { on = \"w\", a = \"a\", b = \"b\" }, { on = \"v\", a = \"b\", b = \"c\" } ]
";

/// The flow is asked for, is sent on where it was allocated by then, and is freed.
const LINES: &str = "%%
register d c echo
tick 60
alloc p d a ping echo
tick 80
accept q d c echo
send p 'one
tick 80
read q
free p
tick 100
journal d
";

/// What is written where each wire draws from its own seed, and an asker waits for so many ticks; None where the run is not done.
fn written_of(alloc: Global, seed: u32, wait: u32) -> Result<Option<Vec<u8>>, Fail> {
    let other = seed.wrapping_add(1000);
    let wire =
        "delay = 2\nlife = 10\nlargest = 1500\nstorm = { lose = 200, repeat = 200, spread = 8, seed = ";
    let first = format!(in alloc;
        "[[wire]]\nname = \"w\"\nends = [\"a\", \"b\"]\n{wire}{seed} }}\n"
    )?;
    let second = format!(in alloc;
        "[[wire]]\nname = \"v\"\nends = [\"b\", \"c\"]\n{wire}{other} }}\n"
    )?;
    let input = format!(in alloc; "{NODES}{first}{second}{DIF}wait = {wait}\n{LINES}")?;
    let ended = strictly(alloc, input.as_bytes())?;
    Ok(if ended.status == Status::Done {
        Some(ended.written)
    } else {
        None
    })
}

#[test]
fn a_flow_is_made_once_used_and_closed_at_both_ends(rt: HostRuntime) -> Result<(), Fail> {
    for seed in 0..6 {
        let written = written_of(rt.alloc(), seed, 200)?.ok_or("not done")?;
        let written = written.as_slice();
        assert_eq!(rt; times_told(written, b" state p allocated"), 1, "{seed}");
        assert_eq!(rt; times_got(written, b"'one"), 1, "{seed}");
        assert_eq!(rt; times_told(written, b" far "), 1, "{seed}");
        assert_eq!(rt; times_told(written, b" 1 closed"), 1, "{seed}");
    }
    Ok(())
}

#[test]
fn a_far_end_whose_asker_gave_up_is_closed(rt: HostRuntime) -> Result<(), Fail> {
    for seed in 0..6 {
        // No answer comes within one tick, and each ask comes to its member later.
        let written = written_of(rt.alloc(), seed, 1)?.ok_or("not done")?;
        let written = written.as_slice();
        assert_eq!(rt;
            times_told(written, b" state p refused Timeout 60 61"),
            1,
            "{seed}"
        );
        assert_eq!(rt; times_got(written, b"'one"), 0, "{seed}");
        assert_eq!(rt; times_told(written, b" far "), 1, "{seed}");
        assert_eq!(rt; times_told(written, b" 0 closed"), 1, "{seed}");
    }
    Ok(())
}
