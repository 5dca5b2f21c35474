//! Which calls of a fake fail, by their numbers.

ghost use Rattle.std.specs.Prelude.{◌≡◌};
ghost use Rattle.kmn_outside.specs.Memory.{is_due};

/// Returns whether the call after the first `made` calls has its number in the list.
pub(crate) fn is_due(fails: &[u32], made: usize) -> bool
    ensures { result ≡ is_due fails.now made }
{
    let number = u32::try_from(made).unwrap_or(u32::MAX).saturating_add(1);
    fails.contains(&number)
}
