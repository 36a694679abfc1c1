//! The labels that a schedule gave to ports.
ghost use Rattle.std.specs.Prelude.{◌≡◌, ◌<◌, [], ◌∷◌, ◌++◌, length, slice_get, slice_set, option_map, is_some, OnOk, OnErr};
ghost use Rattle.rina_notes.specs.Sites.{label_in, port_in};

use rina_base::{Name, Port};
use rina_iface::PortState;
use std::alloc::{AllocError, Global};
use std::marker::Model;

/// A label of a port.
#[derive(Drop)]
pub struct Label {
    pub name: Name,
    /// The rank of the port's facility, 0 for a wire.
    pub rank: u16,
    pub port: Port,
    /// The state that was told last; None where the port was never drawn.
    pub shown: Option<PortState>,
}

/// Labels in the order in which they were given. A contract sees the list of them.
#[derive(Drop)]
pub struct Labels {
    items: Vec<Label>,
    /// For each label where the end of its port may stand in its journal. Who uses such a place looks at the end
    /// there first.
    places: Vec<usize>,
}

impl Model for Labels {
    ghost use Rattle.std.specs.Prelude.{List};
    ghost use Rattle.rina_notes.specs.declared.label.Label.{Label};

    ghost Value = { List Label };

    ghost view = { λ l. l.items.items };
}

impl Labels {
    ghost use Rattle.rina_notes.specs.declared.label.Label.{Label};

    /// No labels yet.
    pub fn new(alloc: Global) -> Labels
        ensures { result ≡ [] }
    {
        Labels {
            items: Vec::new(alloc),
            places: Vec::new(alloc),
        }
    }

    /// All labels.
    pub fn as_slice(&self) -> &[Label]
        ensures { result.now ≡ self.now }
    {
        self.items.as_slice()
    }

    /// How many labels there are.
    pub fn len(&self) -> usize
        ensures { result ≡ length self.now }
    {
        self.items.len()
    }

    /// Adds a label.
    pub fn push(&mut self, label: Label) -> Result<(), AllocError>
        ensures ok { OnOk result (self.new ≡ self.old ++ label ∷ []) }
        ensures err { OnErr result (self.new ≡ self.old) }
    {
        self.places.push(0)?;
        self.items.push(label)?;
        Ok(())
    }

    /// Where the end of the port of the label at this place may stand in its journal.
    pub(crate) fn likely_place(&self, at: usize) -> usize {
        self.places.get(at).copied().unwrap_or(0)
    }

    /// Notes where the end of the port of the label at this place stands in its journal.
    pub(crate) fn note_place(&mut self, at: usize, place: usize)
        ensures { self.new ≡ self.old }
    {
        if let Some(kept) = self.places.get_mut(at) {
            *kept = place;
        }
    }

    /// Notes the state of the label at this place that was told.
    pub fn show(&mut self, at: usize, state: Option<PortState>)
        requires { at < length self.old }
        ensures { (l : Label) → slice_get self.old at ≡ Some l → self.new ≡ slice_set self.old at (record l { shown = state }) }
    {
        let label = &mut self.items[at];
        label.shown = state;
    }

    /// The label of that name.
    pub fn find(&self, name: &Name) -> Option<&Label>
        ensures { option_map (λ l. l.now) result ≡ label_in self.now name.now }
    {
        self.items.iter().find(|label| label.name.is(name))
    }

    /// Whether there is a label of that name.
    pub fn has(&self, name: &Name) -> bool
        ensures { result ≡ is_some (label_in self.now name.now) }
    {
        self.find(name).is_some()
    }

    /// The port of the label of that name, and its rank before it.
    pub fn port(&self, name: &Name) -> Option<(u16, Port)>
        ensures { result ≡ port_in self.now name.now }
    {
        let label = self.find(name)?;
        Some((label.rank, label.port))
    }
}
