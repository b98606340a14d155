//! The entities.

ghost use Rattle.std.specs.Prelude.{◌≡◌};
ghost use Rattle.fnl_markup.specs.Entities.{longer, meaning};

/// What was read of an entity: `&` and so many of its letters.
#[derive(Clone, Copy)]
pub(crate) enum Entity {
    Ampersand,
    L,
    Lt,
    G,
    Gt,
    Q,
    Qu,
    Quo,
    Quot,
    A,
    Am,
    Amp,
    Ap,
    Apo,
    Apos,
}

impl Entity {
    /// The entity with one more letter, if one begins so.
    pub(crate) fn longer(self, letter: u8) -> Option<Entity>
        ensures { result ≡ longer self letter }
    {
        match (self, letter) {
            (Entity::Ampersand, b'l') => Some(Entity::L),
            (Entity::L, b't') => Some(Entity::Lt),
            (Entity::Ampersand, b'g') => Some(Entity::G),
            (Entity::G, b't') => Some(Entity::Gt),
            (Entity::Ampersand, b'q') => Some(Entity::Q),
            (Entity::Q, b'u') => Some(Entity::Qu),
            (Entity::Qu, b'o') => Some(Entity::Quo),
            (Entity::Quo, b't') => Some(Entity::Quot),
            (Entity::Ampersand, b'a') => Some(Entity::A),
            (Entity::A, b'm') => Some(Entity::Am),
            (Entity::Am, b'p') => Some(Entity::Amp),
            (Entity::A, b'p') => Some(Entity::Ap),
            (Entity::Ap, b'o') => Some(Entity::Apo),
            (Entity::Apo, b's') => Some(Entity::Apos),
            _ => None,
        }
    }

    /// The character that an entity stands for, if all of its letters were read.
    pub(crate) fn meaning(self) -> Option<u8>
        ensures { result ≡ meaning self }
    {
        match self {
            Entity::Lt => Some(b'<'),
            Entity::Gt => Some(b'>'),
            Entity::Quot => Some(b'"'),
            Entity::Amp => Some(b'&'),
            Entity::Apos => Some(b'\''),
            _ => None,
        }
    }
}
