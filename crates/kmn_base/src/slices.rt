//! Parts of slices. A count past the end is allowed.

ghost use Rattle.std.specs.Prelude.{◌≡◌, take, drop};

/// Returns the items after the first `count`, or an empty slice if there are not more.
pub fn behind<T>(items: &[T], count: usize) -> &[T]
    ensures { result.now ≡ drop count items.now }
{
    items.get(count..).unwrap_or(&[])
}

/// Returns the first `count` items, or all if there are fewer.
pub fn before<T>(items: &[T], count: usize) -> &[T]
    ensures { result.now ≡ take count items.now }
{
    items.get(..count).unwrap_or(items)
}
