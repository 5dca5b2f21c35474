//! Stores by their lines.

ghost use Rattle.std.specs.Prelude.{◌≡◌, ◌≤◌, length, nat_lt};
ghost use Rattle.std.specs.List.{prefix_len};
ghost use Rattle.rule_model.specs.declared.program.StoreDef.{StoreDef};
ghost use Rattle.rule_model.specs.Naming.{stores_after, stores_before};

use rule_model::StoreDef;

/// Returns the stores that precede a line, and the others.
pub fn parted_by_line(stores: &[StoreDef], line: u32) -> (&[StoreDef], &[StoreDef])
    ensures before { result.0.now ≡ stores_before line stores.now }
    ensures others { result.1.now ≡ stores_after line stores.now }
{
    stores.split_at(count_before(stores, line))
}

/// Returns the number of stores that precede a line.
fn count_before(stores: &[StoreDef], line: u32) -> usize
    ensures is { result ≡ prefix_len (λ (store : StoreDef). nat_lt store.line line) stores.now }
    ensures within { result ≤ length stores.now }
{
    for (count, store) in stores.iter().enumerate() {
        if store.line >= line {
            return count;
        }
    }
    stores.len()
}
