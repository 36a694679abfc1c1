//! Applications at the wires of a tower.
ghost use Rattle.std.specs.Prelude.{IfOk};
ghost use Rattle.rina_tower.specs.Stands.{IsTower};

use rina_base::{AppName, Name, Num, Port, Seq};
use rina_cube::Want;
use rina_iface::{Ask, Facility, PortState, RegisterError};
use rina_stack::{Plan, Rounds, WirePlan};
use rina_tower::{AppError, Tower};
use rina_wire::Wires;
use std::alloc::Global;
use std::test::Fail;

const ASKER: Port = Port {
    fac: 0,
    node: 0,
    n: 1,
};

const FAR: Port = Port {
    fac: 0,
    node: 1,
    n: 1,
};

/// A wire between two systems, on which a frame arrives 2 ticks after it was sent.
fn tower(alloc: Global) -> Result<Tower, Fail>
    ensures { IfOk result (λ t. IsTower t) }
{
    let mut wires = Seq::new(alloc);
    wires.push(WirePlan {
        name: Name::read(alloc, b"w")?,
        a: 0,
        b: 1,
        delay: 2,
        life: 10,
        largest: 1500,
        storm: None,
    })?;
    let mut nodes = Seq::new(alloc);
    nodes.push(Name::read(alloc, b"a")?)?;
    nodes.push(Name::read(alloc, b"b")?)?;
    let plan = Plan {
        nodes,
        rounds: Rounds::Auto,
        wires,
        difs: Seq::new(alloc),
    };
    Ok(Tower::Wires(Wires::new(alloc, &plan)?))
}

fn ask(alloc: Global, app: &[u8], to: &[u8]) -> Result<Ask, Fail> {
    Ok(Ask {
        fac: 0,
        node: 0,
        app: AppName::read(alloc, app)?,
        to: AppName::read(alloc, to)?,
        want: Want {
            ordered: false,
            reliable: false,
            within: 1000,
            size: 0,
        },
    })
}

/// What is answered to a name that is registered at rank `r`.
type Registered = (u16, &'static [u8], Result<(), AppError<RegisterError>>);

#[test]
fn a_name_is_registered_at_the_wires(rt: HostRuntime) -> Result<(), Fail> {
    let alloc = rt.alloc();
    let mut tower = tower(alloc)?;
    let rows: [Registered; 4] = [
        (1, b"echo", Err(AppError::NoRank)),
        (0, b"net/b", Err(AppError::NotYours)),
        (0, b"echo", Ok(())),
        (0, b"echo", Err(AppError::Call(RegisterError::Already))),
    ];
    for (r, name, want) in rows {
        let app = AppName::read(alloc, name)?;
        assert_eq!(rt; tower.app_register(alloc, r, 0, 1, &app), want);
    }
    let echo = AppName::read(alloc, b"echo")?;
    assert_eq!(rt; tower.app_unregister(alloc, 0, 0, 1, &echo), Ok(()));
    assert!(rt; tower.in_step(alloc, 1, 0, 0, 0).is_err());
    assert!(rt; tower.clock_step(alloc, 1, 0, 0).is_err());
    Ok(())
}

#[test]
fn an_sdu_sent_at_0_is_read_at_2(rt: HostRuntime) -> Result<(), Fail> {
    let alloc = rt.alloc();
    let mut tower = tower(alloc)?;
    let echo = AppName::read(alloc, b"echo")?;
    assert_eq!(rt; tower.app_register(alloc, 0, 0, 1, &echo), Ok(()));
    let ours = ask(alloc, b"ping", b"echo")?;
    assert_eq!(rt; tower.app_allocate(alloc, 1, &ours), Err(AppError::NoRank));
    assert_eq!(rt;
        tower.app_allocate(alloc, 0, &ask(alloc, b"ping", b"net/b")?),
        Err(AppError::NotYours)
    );
    assert_eq!(rt; tower.app_allocate(alloc, 0, &ours), Ok(ASKER));
    assert_eq!(rt; tower.app_incoming(1, 0, 1, &echo), None);
    assert_eq!(rt; tower.app_incoming(0, 0, 1, &echo), Some(FAR));
    assert_eq!(rt;
        tower.app_send(alloc, 1, ASKER, b"hello"),
        Err(AppError::NoRank)
    );
    assert_eq!(rt;
        tower.app_send(alloc, 0, ASKER, b"hello"),
        Ok(Num { cep: 0, seq: 0 })
    );
    assert_eq!(rt; tower.repeat(alloc, 0, 0, 5), Ok(()));
    for now in 0..2 {
        assert!(rt; tower.peek(FAR).is_none(), "at {now}");
        assert_eq!(rt; tower.tick(alloc), Ok(()));
    }
    let Some(lent) = tower.peek(FAR) else {
        return Err("nothing came".into());
    };
    assert_eq!(rt; (lent.at, lent.bytes), (2, b"hello".as_slice()));
    tower.pass(FAR);
    assert!(rt; tower.peek(FAR).is_none());
    assert!(rt; tower.ledger(1, 0, 0).is_none());
    assert_eq!(rt; tower.app_free(alloc, 1, FAR), Err(AppError::NoRank));
    assert_eq!(rt; tower.app_free(alloc, 0, FAR), Ok(()));
    assert_eq!(rt; tower.state(ASKER), Some(PortState::Closed));
    Ok(())
}
