//! IPC processes that ask to enrol.
use crate::members::tower;
use crate::ranks::NoPolicies;
use rina_agent::MemberState;
use rina_base::Node;
use rina_dif::EnrolError;
use rina_iface::AllocateError;
use std::test::Fail;

/// What is answered where the IPC process at a node of a DIF of a rank asks to enrol, over a facility of the rank below, at the one at
/// another node.
type Asked = (u16, u16, Node, u16, Node, Result<(), EnrolError>);

const ROWS: [Asked; 8] = [
    (0, 0, 1, 0, 0, Err(EnrolError::NoIpc)),
    (3, 0, 1, 0, 0, Err(EnrolError::NoIpc)),
    (1, 1, 1, 0, 0, Err(EnrolError::NoIpc)),
    (1, 0, 2, 0, 0, Err(EnrolError::NoIpc)),
    (1, 0, 1, 0, 2, Err(EnrolError::NoIpc)),
    (
        1,
        0,
        1,
        1,
        0,
        Err(EnrolError::Lower(AllocateError::NoMember)),
    ),
    (
        1,
        0,
        1,
        0,
        0,
        Err(EnrolError::Lower(AllocateError::NoSuchApp)),
    ),
    (
        2,
        0,
        0,
        0,
        1,
        Err(EnrolError::Lower(AllocateError::NoSuchApp)),
    ),
];

#[test]
fn an_enrolment_is_refused(rt: HostRuntime) -> Result<(), Fail> {
    let alloc = rt.alloc();
    let mut tower = tower(alloc)?;
    for (r, dif, node, fac, peer, want) in ROWS {
        assert_eq!(rt; tower.enrol(alloc, r, dif, node, fac, peer), want);
    }
    Ok(())
}

#[test]
fn an_ipc_process_enrols_over_a_wire(rt: HostRuntime) -> Result<(), Fail> {
    let alloc = rt.alloc();
    let mut tower = tower(alloc)?;
    let mut shelf = NoPolicies;
    let runs = Err(EnrolError::Enrolling { link: 0 });
    let joins = Some(MemberState::Joining { link: 0 });
    assert_eq!(rt; tower.publish(alloc, 1, 0, 0, 0), Ok(()));
    assert_eq!(rt; tower.enrol(alloc, 1, 0, 1, 0, 0), Ok(()));
    assert_eq!(rt; tower.enrol(alloc, 1, 0, 1, 0, 0), runs);
    // CONNECT, CONNECT_R, START, and all up to STOP take the wire's one tick each.
    for _ in 0..4 {
        assert_eq!(rt; tower.round(alloc, &mut shelf), Ok(()));
        assert_eq!(rt; tower.member(1, 0, 1), joins);
        assert_eq!(rt; tower.tick(alloc), Ok(()));
    }
    assert_eq!(rt; tower.round(alloc, &mut shelf), Ok(()));
    assert_eq!(rt; tower.member(1, 0, 1), Some(MemberState::Enrolled));
    Ok(())
}
