//! How the version of a word goes on.
ghost use Rattle.std.specs.Prelude.{◌≡◌, ◌≤◌, ◌+◌, ◌↔◌, IsNone, IfSome};

use crate::layout::LAST_VERSION;

/// The version after this one; `None` at the last version (and at a number that is no version).
pub fn next_version(version: u32) -> Option<u32>
    ensures spent { IsNone result ↔ (LAST_VERSION ≤ version) }
    ensures next { IfSome result (λ n. n ≡ version + 1) }
{
    if version < LAST_VERSION {
        Some(version + 1)
    } else {
        None
    }
}
