ghost use Rattle.std.specs.Prelude.{◌≡◌, ◌++◌, []};

use crate::calls::view::CoreView;
use fj_body::Body;
use fj_rules::Sealed;
use std::alloc::Global;

/// The sealed parts that a core keeps.
pub trait CoreParts<B: Body>: CoreView<B> {
    /// The sealed parts that are kept, which count as handed out from then on.
    fn take_parts(&mut self, alloc: Global) -> Vec<Sealed>
        ensures parts { result.items ≡ (Self.state self.old).parts }
        ensures handed { Self.state self.new ≡ record (Self.state self.old) { handed = (Self.state self.old).handed ++ (Self.state self.old).parts; parts = [] } };
}
