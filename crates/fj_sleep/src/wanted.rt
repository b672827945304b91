ghost use Rattle.std.specs.Prelude.{◌≡◌, true};
ghost use Rattle.fj_sleep.specs.Sought.{KeepsSought, is_unwanted, may_want};

/// What threads sleep for. It may be more than that, since a thread that wakes up takes nothing back, but never less.
#[derive(Clone, Copy)]
pub enum Wanted<T> {
    /// Nobody sleeps.
    Nothing,
    /// All that sleep do so for this.
    One(T),
    /// They may sleep for anything.
    Several,
}

impl<T: Copy + PartialEq> Wanted<T> {
    /// Whether nobody sleeps.
    pub fn is_nothing(&self) -> bool
        ensures { result ≡ is_unwanted self.now }
    {
        matches!(self, Wanted::Nothing)
    }

    /// Whether somebody may sleep for this.
    pub fn may_be(&self, wanted: T) -> bool
        ensures { result ≡ may_want T.eq self.now wanted }
    {
        match self {
            Wanted::Nothing => false,
            Wanted::One(other) => *other == wanted,
            Wanted::Several => true,
        }
    }

    /// The same, with one more thread that sleeps for this.
    pub fn and(self, wanted: T) -> Wanted<T>
        ensures kept { KeepsSought T.eq self result }
        ensures added { T.eq wanted wanted ≡ true → may_want T.eq result wanted ≡ true }
    {
        match self {
            Wanted::Nothing => Wanted::One(wanted),
            Wanted::One(other) => both(other, wanted),
            Wanted::Several => Wanted::Several,
        }
    }
}

/// What threads sleep for, where one sleeps for `one` and another for `other`.
fn both<T: Copy + PartialEq>(one: T, other: T) -> Wanted<T>
    ensures one { (t : T) → T.eq one t ≡ true → may_want T.eq result t ≡ true }
    ensures other { T.eq other other ≡ true → may_want T.eq result other ≡ true }
{
    if one == other {
        Wanted::One(one)
    } else {
        Wanted::Several
    }
}
