//! Classes of the objects of a RIB (resource information base).
ghost use Rattle.std.specs.Prelude.{◌≡◌};
ghost use Rattle.rina_base.specs.Classes.{class_text, class_of, same_class};

/// What an object is.
#[derive(Clone, Copy, Debug, PartialEq, Eq)]
pub enum Class {
    /// Objects may stand under it.
    Folder,
    Value,
    /// A QoS cube.
    Cube,
    /// A flow of the member.
    Flow,
    /// What can be started and stopped.
    Service,
}

impl Class {
    /// The class that has this name. None where there is no such class.
    #[tactic(auto, unfolding(crate::specs::Classes::class_of))]
    pub fn read(name: &[u8]) -> Option<Class>
        ensures { result ≡ class_of name.now }
    {
        if name == b"folder".as_slice() {
            Some(Class::Folder)
        } else if name == b"value".as_slice() {
            Some(Class::Value)
        } else if name == b"cube".as_slice() {
            Some(Class::Cube)
        } else if name == b"flow".as_slice() {
            Some(Class::Flow)
        } else if name == b"service".as_slice() {
            Some(Class::Service)
        } else {
            None
        }
    }

    /// Its name.
    pub fn name(self) -> &'static [u8]
        ensures { result.now ≡ class_text self }
    {
        match self {
            Class::Folder => b"folder".as_slice(),
            Class::Value => b"value".as_slice(),
            Class::Cube => b"cube".as_slice(),
            Class::Flow => b"flow".as_slice(),
            Class::Service => b"service".as_slice(),
        }
    }

    /// Whether two classes are the same.
    pub fn is(self, other: Class) -> bool
        ensures { result ≡ same_class self other }
    {
        match self {
            Class::Folder => matches!(other, Class::Folder),
            Class::Value => matches!(other, Class::Value),
            Class::Cube => matches!(other, Class::Cube),
            Class::Flow => matches!(other, Class::Flow),
            Class::Service => matches!(other, Class::Service),
        }
    }
}
