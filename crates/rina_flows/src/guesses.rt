//! Where the connection that a PDU names may stand.
use rina_base::{Addr, Cep};
use rina_conn::Peer;
use std::alloc::{AllocError, Global};
use std::collections::BTreeMap;

/// For the address and the CEP-id of an end the place at which its connection was added last. What is told is a guess: whoever
/// asks looks whether the connection stands there, so no contract says more.
#[derive(Drop)]
pub struct Guesses {
    places: BTreeMap<(Addr, Cep), usize>,
}

impl Guesses {
    /// No guesses yet.
    pub fn new(alloc: Global) -> Guesses {
        Guesses {
            places: BTreeMap::new(alloc),
        }
    }

    /// The connection with these ends is added at a place.
    pub fn add(&mut self, peer: Peer, place: usize) -> Result<(), AllocError> {
        match self.places.insert((peer.own, peer.scep), place) {
            Ok(_) => Ok(()),
            Err(_) => Err(AllocError),
        }
    }

    /// Where the connection of an end with this address and this CEP-id may stand.
    pub fn place(&self, own: Addr, cep: Cep) -> Option<usize> {
        self.places.get(&(own, cep)).copied()
    }
}
