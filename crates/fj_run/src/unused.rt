ghost use Rattle.std.specs.Prelude.{◌≡◌, []};
ghost use Rattle.fj_parts.specs.Winding.{tickets_of};

use fj_body::Body;
use fj_guarded::Naming;
use fj_submitter::Submitters;

/// All submitters of a pool, before they have submitted anything.
#[derive(Drop)]
pub struct Unused<B: Body, N: Naming> {
    pub submitters: Submitters<B, N>,
    ghost unused: { tickets_of submitters.all.items ≡ [] },
}
