//! The cache of the last items on the heap, so that an event moves a pointer instead of 64 items.

ghost use Rattle.std.specs.Prelude.{◌≡◌, ◌≤◌, [], IfOk, length};
ghost use Rattle.kmn_base.specs.declared.limits.TheConstants.{WINDOW_ITEMS};
ghost use Rattle.kmn_base.specs.Lists.{window, read_again};

use context_cache::Cache;
use kmn_base::{Item, Memory};
use std::alloc::Global;
use std::marker::Model;

/// A cache on the heap, or no cache. The cache is allocated once, so an event moves it as a pointer. A box without a cache replaces one
/// whose cache is moved.
#[derive(Drop)]
pub struct CacheBox {
    cache: Option<Box<Cache>>,
}

impl Model for CacheBox {
    ghost use Rattle.std.specs.Prelude.{option_map};
    ghost use Rattle.event_text.specs.Boxed.{CacheValue, value_in};

    ghost Value = { CacheValue };

    ghost view = { λ boxed. value_in (option_map (λ held. held.value) boxed.cache) };
}

impl CacheBox {
    /// Creates an empty cache.
    pub fn with_capacity(alloc: Global) -> Result<CacheBox, Memory>
        ensures { IfOk result (λ cache. cache ≡ record { items = []; room = WINDOW_ITEMS }) }
    {
        Ok(CacheBox::of(Box::new(alloc, Cache::new())?))
    }

    /// Returns a box without a cache.
    pub fn without_capacity() -> CacheBox
        ensures { result ≡ record { items = []; room = 0 } }
    {
        CacheBox { cache: None }
    }

    /// Returns a box with this cache.
    pub fn of(cache: Box<Cache>) -> CacheBox
        ensures { result ≡ record { items = cache.value; room = WINDOW_ITEMS } }
    {
        CacheBox { cache: Some(cache) }
    }

    /// Returns the cache, which must be present.
    pub fn into_box(self) -> Box<Cache>
        requires { self.room ≡ WINDOW_ITEMS }
        ensures { result.value ≡ self.items }
    {
        match self.cache {
            Some(cache) => cache,
            None => unreachable!(),
        }
    }

    /// Returns the items. The last item is the one directly before the caret.
    pub fn items(&self) -> &[Item]
        ensures value { result.now ≡ self.now.items }
        ensures few { length result.now ≤ WINDOW_ITEMS }
    {
        match &self.cache {
            Some(cache) => cache.items(),
            None => &[],
        }
    }

    /// Reads the text before the caret again. If the items are still its last items (`is_still_suffix`), they stay. Otherwise the last
    /// characters of the text replace them.
    pub fn sync(&mut self, left: &[char])
        requires { self.old.room ≡ WINDOW_ITEMS }
        ensures { self.new ≡ record self.old { items = window (read_again self.old.items left.now) } }
    {
        if let Some(cache) = &mut self.cache {
            cache.sync(left);
        }
    }

    /// Copies the cache, or creates an empty cache if there is none.
    pub fn copy(&self, alloc: Global) -> Result<CacheBox, Memory>
        ensures { IfOk result (λ cache. cache ≡ record { items = self.now.items; room = WINDOW_ITEMS }) }
    {
        let cache = match &self.cache {
            Some(cache) => cache.copy(),
            None => Cache::new(),
        };
        Ok(CacheBox::of(Box::new(alloc, cache)?))
    }
}
