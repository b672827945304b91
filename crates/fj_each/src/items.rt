use std::marker::Brand;

/// The items of a loop: a type that names them for its parts, so that two places determine a part.
pub trait Items<T> {
    ghost use Rattle.std.specs.Prelude.{List};

    ghost items: { List T };
}

impl<T> Items<T> for Brand {
    ghost use Rattle.std.specs.Prelude.{[]};

    ghost items = { [] };
}
