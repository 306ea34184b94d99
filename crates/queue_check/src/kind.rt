// The abstraction that a set's header names.
ghost use Rattle.std.specs.Prelude.{◌≡◌};
ghost use Rattle.queue_check.specs.Layers.{layers_of, of_kind};

#[derive(Clone, Copy, Debug, PartialEq, Eq)]
pub(crate) enum Kind {
    List,
    Set,
    Blank,
}

// A number above 2 is refused under each of them.
impl From<u16> for Kind {
    ghost from_gives = { λ number kind. layers_of kind ≡ of_kind number };

    fn from(number: u16) -> Kind {
        match number {
            0 => Kind::List,
            1 => Kind::Set,
            _ => Kind::Blank,
        }
    }
}
