use std::marker::Brand;

/// The items of a search, and what is wanted of them: a type that names both for its parts.
pub trait Search<T> {
    ghost use Rattle.std.specs.Prelude.{List, Bool};

    ghost items: { List T };

    ghost wants: { T → Bool };
}

impl<T> Search<T> for Brand {
    ghost use Rattle.std.specs.Prelude.{[], false};

    ghost items = { [] };

    ghost wants = { λ x. false };
}
