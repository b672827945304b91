ghost use Rattle.std.specs.Prelude.{◌≡◌};
ghost use Rattle.fj_body.specs.Endings.{ending_in};

use fj_rules::Ending;

/// An ending that gives no result: any but `Ok`.
#[derive(Clone, Copy)]
pub enum BareEnding {
    Quiet,
    Try,
    Pass,
    Complete,
    /// The body failed, with this code.
    Fail(u32),
}

/// It as the machine knows it.
#[inline(always)]
pub fn as_ending(bare: BareEnding) -> Ending
    ensures { result ≡ ending_in bare }
{
    match bare {
        BareEnding::Quiet => Ending::Quiet,
        BareEnding::Try => Ending::Try,
        BareEnding::Pass => Ending::Pass,
        BareEnding::Complete => Ending::Complete,
        BareEnding::Fail(code) => Ending::Fail(code),
    }
}
