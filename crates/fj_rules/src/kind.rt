use crate::ids::Serial;

/// What a task is.
#[derive(Clone, Copy, Debug, PartialEq)]
pub enum Kind {
    /// A task with a result, as a `RecursiveTask`.
    Plain,
    /// A task with a completion action, as a `CountedCompleter`. Fields are laid out in this order: so an event has 48 bytes.
    Completer {
        /// Whether its fault code is passed on to its parent.
        relay: bool,
        /// The initial pending count, 0 to [`MAX_PENDING`](crate::MAX_PENDING).
        count: u32,
        /// The completer at which it arrives once its completion action has ended, and to which a climb goes on.
        parent: Option<Serial>,
    },
}

impl Kind {
    ghost use Rattle.std.specs.Prelude.{◌≡◌, Some};
    ghost use Rattle.fj_rules.specs.Tasks.{parent_in, count_in, relay_in, is_completer_kind};

    /// Whether this is the kind of a completer.
    pub fn is_completer(&self) -> bool
        ensures { result ≡ is_completer_kind (Some self.now) }
    {
        match self {
            Kind::Plain => false,
            Kind::Completer { .. } => true,
        }
    }

    /// The parent in this kind, if there is one.
    pub fn parent(&self) -> Option<Serial>
        ensures { result ≡ parent_in (Some self.now) }
    {
        match self {
            Kind::Plain => None,
            Kind::Completer { parent, .. } => *parent,
        }
    }

    /// The initial pending count: 0 for a plain task.
    pub fn count(&self) -> u32
        ensures { result ≡ count_in (Some self.now) }
    {
        match self {
            Kind::Plain => 0,
            Kind::Completer { count, .. } => *count,
        }
    }

    /// Whether a task of this kind passes its fault code on to its parent: false for a plain one.
    pub fn relays(&self) -> bool
        ensures { result ≡ relay_in (Some self.now) }
    {
        match self {
            Kind::Plain => false,
            Kind::Completer { relay, .. } => *relay,
        }
    }
}

/// What a submitted task is: as [`Kind`], but without a parent, since a submitter completes nothing inside the pool.
#[derive(Clone, Copy, Debug, PartialEq)]
pub enum SubmittedKind {
    /// A task with a result.
    Plain,
    /// A task with a completion action, which is the root of its tree.
    Completer {
        /// The relay word, which a root never uses.
        relay: bool,
        /// The initial pending count, 0 to [`MAX_PENDING`](crate::MAX_PENDING).
        count: u32,
    },
}

impl SubmittedKind {
    ghost use Rattle.std.specs.Prelude.{◌≡◌};
    ghost use Rattle.fj_rules.specs.Tasks.{submitted_kind};

    /// The same kind, with no parent.
    pub fn to_kind(&self) -> Kind
        ensures { result ≡ submitted_kind self.now }
    {
        match *self {
            SubmittedKind::Plain => Kind::Plain,
            SubmittedKind::Completer { relay, count } => Kind::Completer {
                relay,
                count,
                parent: None,
            },
        }
    }
}
