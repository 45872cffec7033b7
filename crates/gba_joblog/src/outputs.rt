//! The kinds of output of a console, and one of something for each of them.

ghost use Rattle.std.specs.Prelude.{◌≡◌};
ghost use Rattle.gba_joblog.specs.Outputs.{at_kind, kind_named, out_name, per_kind, with_kind};

/// The kinds of output that a console may be asked for.
#[derive(Clone, Copy, Debug, PartialEq, Eq)]
pub enum OutKind {
    Frames,
    Samples,
    Words,
    State,
    Save,
}

/// All kinds of output, in the order of the language's table: files and lines of logs stand in it.
pub const KINDS: [OutKind; 5] = [
    OutKind::Frames,
    OutKind::Samples,
    OutKind::Words,
    OutKind::State,
    OutKind::Save,
];

/// One for each kind of output.
#[derive(Clone, Copy, Debug, PartialEq, Eq)]
pub struct PerKind<T> {
    pub frames: T,
    pub samples: T,
    pub words: T,
    pub state: T,
    pub save: T,
}

impl OutKind {
    /// The kind's name in jobs and at the end of its file's name, as `frames`.
    pub fn name(self) -> &'static str
        ensures { result.now ≡ out_name self }
    {
        match self {
            OutKind::Frames => "frames",
            OutKind::Samples => "samples",
            OutKind::Words => "words",
            OutKind::State => "state",
            OutKind::Save => "save",
        }
    }

    /// The kind of this name.
    pub(crate) fn named(word: &[u8]) -> Option<OutKind>
        ensures { result ≡ kind_named word.now }
    {
        for kind in KINDS {
            if word == kind.name().as_bytes() {
                return Some(kind);
            }
        }
        None
    }
}

impl<T: Copy> PerKind<T> {
    /// The same for each kind.
    pub fn all(one: T) -> PerKind<T>
        ensures { result ≡ per_kind (λ _. one) }
    {
        PerKind {
            frames: one,
            samples: one,
            words: one,
            state: one,
            save: one,
        }
    }
}

impl<T> PerKind<T> {
    /// That of a kind.
    pub fn at(&self, kind: OutKind) -> &T
        ensures { result.now ≡ at_kind self.now kind }
    {
        match kind {
            OutKind::Frames => &self.frames,
            OutKind::Samples => &self.samples,
            OutKind::Words => &self.words,
            OutKind::State => &self.state,
            OutKind::Save => &self.save,
        }
    }
}

impl<T: Drop> PerKind<T> {
    /// Puts this in place of that of a kind.
    pub fn put(&mut self, kind: OutKind, one: T)
        ensures { self.new ≡ with_kind kind one self.old }
    {
        match kind {
            OutKind::Frames => self.frames = one,
            OutKind::Samples => self.samples = one,
            OutKind::Words => self.words = one,
            OutKind::State => self.state = one,
            OutKind::Save => self.save = one,
        }
    }
}
