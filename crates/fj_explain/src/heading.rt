use fj_rules::{MAX_EVENTS, MAX_SUBMITTERS, MAX_TASKS, MAX_WORKERS};
use std::fmt::{self, Display, Formatter, Write};

/// A limit out of its range.
#[derive(Clone, Copy, Debug, PartialEq)]
pub struct LimitFlaw {
    /// What there are so many of.
    pub what: &'static str,
    /// How many the heading has.
    pub count: u32,
    /// How many there are at most; one is the least.
    pub most: u32,
}

impl Display for LimitFlaw {
    fn fmt<W: Write>(&self, f: &mut Formatter<W>) -> fmt::Result {
        write!(
            f,
            "{} {}, and there are 1 to {}",
            self.count, self.what, self.most
        )
    }
}

/// The four limits of a heading, in its order, with the most of each.
const LIMITS: [(&str, u32); 4] = [
    ("workers", MAX_WORKERS),
    ("submitters", MAX_SUBMITTERS),
    ("tasks", MAX_TASKS),
    ("events", MAX_EVENTS),
];

/// The first limit of a heading that is out of its range.
pub fn limit_flaw(heading: &str) -> Option<LimitFlaw> {
    let mut words = heading.split(' ').skip(1);
    for (what, most) in LIMITS {
        let count = words.next()?.parse::<u32>().unwrap_or(0);
        if count == 0 || count > most {
            return Some(LimitFlaw { what, count, most });
        }
    }
    None
}
