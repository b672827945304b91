//! The path from a record to its root.
ghost use Rattle.std.specs.Prelude.{◌≡◌, ◌<◌, IfSome};
ghost use Rattle.fj_tree.specs.Records.{IsCompleter, IsGood};
ghost use Rattle.fj_tree.specs.Paths.{above, root_of};

use crate::handle::Handle;
use crate::tree::Tree;

impl Tree {
    /// The root of a record: the end of the path to its parent, the parent's parent and so on. `CountedCompleter.getRoot`. Precondition:
    /// a good handle.
    pub fn root(&self, h: Handle) -> Handle
        requires { IsGood self.now h }
        ensures root { result ≡ root_of self.now h }
        ensures good { IsGood self.now result }
    {
        let mut at = h;
        while let Some(up) = self.above(at) {
            at = up;
        }
        at
    }

    /// The parent of a record, if it has one that is kept: `CountedCompleter.getCompleter`. Precondition: a good handle.
    pub fn above(&self, h: Handle) -> Option<Handle>
        requires { IsGood self.now h }
        ensures parent { result ≡ above self.now h }
        ensures good { IfSome result (IsGood self.now) }
        ensures completer { IfSome result (IsCompleter self.now) }
        ensures smaller { IfSome result (λ up. up.serial < h.serial) }
    {
        // For the proof: the records are sound.
        let _ = self.len();
        let record = self.get(h)?;
        let serial = record.kind.parent()?;
        self.find(serial)
    }
}
