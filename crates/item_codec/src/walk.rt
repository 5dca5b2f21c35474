//! Iterates over the items that bytes spell, in place.

ghost use Rattle.std.specs.Prelude.{◌≡◌, ◌≤◌, length};
ghost use Rattle.kmn_base.specs.declared.limits.TheConstants.{FILE_BYTES};
ghost use Rattle.item_codec.specs.Walk.{results_of};

use crate::codes::first_item;
use kmn_base::{BadUnits, UnitItem};
use std::marker::Model;

/// An iterator over the items that bytes spell, read in place, and the fault at the first position at which no item is spelled,
/// after which it ends. Contracts model it as the list of its remaining results.
#[derive(Drop)]
pub struct Items<'a> {
    rest: &'a [u8],
    at: u32,
}

impl<'a> Model for Items<'a> {
    ghost use Rattle.std.specs.Prelude.{◌+◌, ◌≤◌, List, length, Result};
    ghost use Rattle.kmn_base.specs.declared.limits.TheConstants.{FILE_BYTES};
    ghost use Rattle.kmn_base.specs.declared.units.UnitItem.{UnitItem};
    ghost use Rattle.kmn_base.specs.declared.units.BadUnits.{BadUnits};
    ghost use Rattle.item_codec.specs.Walk.{results_from};

    ghost Value = { List (Result UnitItem BadUnits) };

    ghost view = { λ items. results_from 0 items.at items.rest.now };

    ghost invariant = { λ items. items.at + length items.rest.now ≤ FILE_BYTES };
}

impl<'a> Iterator for Items<'a> {
    ghost use Rattle.std.specs.Iterator.{YieldsFirst, item_count};

    type Item = Result<UnitItem, BadUnits>;

    ghost next_gives = { YieldsFirst (λ results. results) };

    ghost remaining = { item_count (λ results. results) };

    fn next(&mut self) -> Option<Result<UnitItem, BadUnits>> {
        if self.rest.is_empty() {
            return None;
        }
        match first_item(self.rest) {
            Ok((item, behind)) => {
                self.at += (self.rest.len() - behind.len()) as u32;
                self.rest = behind;
                Some(Ok(item))
            }
            Err(bad) => {
                let at = self.at;
                self.rest = &[];
                Some(Err(BadUnits {
                    kind: bad.kind,
                    at,
                    code: bad.code,
                }))
            }
        }
    }
}

/// Iterates over the items that bytes spell. There may be at most 67,108,864 bytes. A fault has the position, in bytes, of the
/// first unit of its item, and `code` is the unlisted code of `U2`, else 0. If an item has several faults, the first of U6, U2,
/// U3, U4, U5 and U1 is returned.
#[tactic(auto, unfolding(crate::specs::Walk::results_of))]
pub fn items_of(bytes: &[u8]) -> Items<'_>
    requires { length bytes.now ≤ FILE_BYTES }
    ensures { result ≡ results_of bytes.now }
{
    Items { rest: bytes, at: 0 }
}
