//! What never changes in a connection.
ghost use Rattle.std.specs.Prelude.{◌≡◌, ◌+◌, ◌≤◌};
ghost use Rattle.rina_cube.specs.Cubes.{IsCube, delta_of};

use rina_base::{Addr, Cep};
use rina_cube::Cube;

/// The two ends of a connection: the addresses, and the CEP-ids, of this end and of the far one.
#[derive(Clone, Copy, Debug, PartialEq, Eq)]
pub struct Peer {
    pub own: Addr,
    pub far: Addr,
    /// The CEP-id of this end.
    pub scep: Cep,
    /// The CEP-id of the far end.
    pub dcep: Cep,
}

/// The cube of a connection, the greatest number of bytes of a piece, and the two ends.
#[derive(Clone, Copy)]
pub struct Form {
    pub cube: Cube,
    pub piece: u32,
    pub peer: Peer,
    pub ghost least_piece: { 1 ≤ piece },
    pub ghost times: { cube.mpl + cube.r + cube.a ≤ 3000000 },
    pub ghost largest: { cube.largest ≤ 65535 },
}

impl Form {
    /// Of a cube, for pieces of at most `piece` bytes.
    pub fn new(cube: &Cube, piece: u32, peer: Peer) -> Form
        requires cube { IsCube cube.now }
        requires piece { 1 ≤ piece }
        ensures cube { result.cube ≡ cube.now }
        ensures piece { result.piece ≡ piece }
        ensures peer { result.peer ≡ peer }
    {
        Form {
            cube: *cube,
            piece,
            peer,
        }
    }

    /// Delta-t of its cube.
    pub fn delta(&self) -> u32
        ensures delta { result ≡ delta_of self.now.cube }
        ensures most { result ≤ 3000000 }
    {
        self.cube.mpl + self.cube.r + self.cube.a
    }
}
