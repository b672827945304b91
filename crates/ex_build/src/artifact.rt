ghost use Rattle.std.specs.Prelude.{◌≡◌, ◌+◌, ◌^◌, ◌≤◌, IfNone, IfSome, sum};

/// The result of a target.
#[derive(Drop)]
pub struct Artifact {
    /// Its bytes: those of its own objects and of its parts.
    pub size: u64,
    /// The sizes of its parts, those of the inputs of its target, in order.
    pub parts: Vec<u64>,
}

/// Links objects of so many bytes with parts of these sizes. None where the artifact would have 2^64 bytes or more.
pub fn link(own: u32, parts: Vec<u64>) -> Option<Artifact>
    ensures parts { IfSome result (λ a. a.parts.items ≡ parts.items) }
    ensures size { IfSome result (λ a. a.size ≡ own + sum parts.items) }
    ensures too_large { IfNone result (2 ^ 64 ≤ own + sum parts.items) }
{
    let size = size_of(own, parts.as_slice())?;
    Some(Artifact { size, parts })
}

/// The bytes of both together. None where they are 2^64 or more.
fn size_of(own: u32, parts: &[u64]) -> Option<u64>
    ensures size { IfSome result (λ size. size ≡ own + sum parts.now) }
    ensures too_large { IfNone result (2 ^ 64 ≤ own + sum parts.now) }
{
    let mut size = u64::from(own);
    for part in parts {
        size = size.checked_add(*part)?;
    }
    Some(size)
}
