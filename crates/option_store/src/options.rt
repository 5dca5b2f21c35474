//! The values of a keyboard's stores. A value is the number of a store or a text of the host, so `set`, `save` and `reset` copy
//! no elements.

ghost use Rattle.std.specs.Prelude.{◌≡◌, ◌<◌, [], length, IfOk, MatchResult};
ghost use Rattle.option_store.specs.Cells.{first_cells, cell_at, changed, set_cell, save_cell, reset_cell, host_cell};

use kmn_base::{Memory, Seq};
use std::alloc::Global;
use std::marker::Model;

/// The value of a store: the elements of a store of the file, by its number, or the text that the host set.
#[derive(Clone, Copy, PartialEq, Eq)]
pub enum Held {
    Store(u32),
    Host,
}

/// A store: its current value, its saved value if present, and the last text that the host set. The text stays when another value is
/// set, since the saved value can still denote it.
#[derive(Drop)]
pub struct Cell {
    pub current: Held,
    pub saved: Option<Held>,
    pub text: Seq<char>,
}

impl Cell {
    /// Copies the cell.
    fn copy(&self, alloc: Global) -> Result<Cell, Memory>
        ensures { IfOk result (λ cell. cell ≡ self.now) }
    {
        Ok(Cell {
            current: self.current,
            saved: self.saved,
            text: self.text.copy(alloc)?,
        })
    }
}

/// The cell of each store of a file, by store number from 0. A store that is not an option has a cell too, which no rule reads.
#[derive(Drop)]
pub struct Options {
    cells: Vec<Cell>,
}

impl Model for Options {
    ghost use Rattle.std.specs.Prelude.{List};
    ghost use Rattle.option_store.specs.declared.options.Cell.{Cell};

    ghost Value = { List Cell };

    ghost view = { λ options. options.cells.items };
}

impl Options {
    /// Creates the cells of `stores` stores. Each store holds its own elements, with nothing saved.
    #[tactic(auto, using(crate::proofs::FirstCells::pushed_cell))]
    pub fn new(alloc: Global, stores: u32) -> Result<Options, Memory>
        ensures cells { IfOk result (λ options. options ≡ first_cells 0 stores) }
        ensures count { IfOk result (λ options. length options ≡ stores) }
    {
        let mut cells = Vec::new(alloc);
        for store in 0..stores {
            cells.push(Cell {
                current: Held::Store(store),
                saved: None,
                text: Seq::new(alloc),
            })?;
        }
        Ok(Options { cells })
    }

    /// Returns the cells of no stores. Does not allocate.
    pub fn none(alloc: Global) -> Options
        ensures { result ≡ [] }
    {
        Options {
            cells: Vec::new(alloc),
        }
    }

    /// Copies the cells of all stores.
    pub fn copy(&self, alloc: Global) -> Result<Options, Memory>
        ensures { IfOk result (λ options. options ≡ self.now) }
    {
        let mut cells = Vec::with_capacity(alloc, self.cells.len())?;
        for cell in self.cells.as_slice() {
            cells.push(cell.copy(alloc)?)?;
        }
        Ok(Options { cells })
    }

    /// Returns the current value of a store.
    pub fn current(&self, store: u32) -> Held
        requires { store < length self.now }
        ensures { result ≡ (cell_at self.now store).current }
    {
        self.cells[store as usize].current
    }

    /// Returns the saved value of a store, if present.
    pub fn saved(&self, store: u32) -> Option<Held>
        requires { store < length self.now }
        ensures { result ≡ (cell_at self.now store).saved }
    {
        self.cells[store as usize].saved
    }

    /// Returns the last text that the host set for a store, or an empty text if it set none. `Held::Host` denotes this text.
    pub fn host_text(&self, store: u32) -> &[char]
        requires { store < length self.now }
        ensures { result.now ≡ (cell_at self.now store).text }
    {
        self.cells[store as usize].text.as_slice()
    }

    /// Performs `set`: the current value becomes the elements of the store with the number `value`.
    pub fn set(&mut self, store: u32, value: u32)
        requires { store < length self.old }
        ensures { self.new ≡ changed store (set_cell value) self.old }
    {
        self.cells[store as usize].current = Held::Store(value);
    }

    /// Performs `save`: the current value becomes the saved value, too.
    pub fn save(&mut self, store: u32)
        requires { store < length self.old }
        ensures { self.new ≡ changed store save_cell self.old }
    {
        let cell = &mut self.cells[store as usize];
        cell.saved = Some(cell.current);
    }

    /// Performs `reset`: the current value becomes the saved value, or the store's own elements if nothing is saved.
    pub fn reset(&mut self, store: u32)
        requires { store < length self.old }
        ensures { self.new ≡ changed store (reset_cell store) self.old }
    {
        let cell = &mut self.cells[store as usize];
        cell.current = cell.saved.unwrap_or(Held::Store(store));
    }

    /// Sets the current and the saved value of a store to a text of the host.
    ///
    /// Errors: `Memory` if an allocation fails. The store is then unchanged.
    pub fn host_set(&mut self, alloc: Global, store: u32, text: &[char]) -> Result<(), Memory>
        requires { store < length self.old }
        ensures { MatchResult result
            (λ _. self.new ≡ changed store (host_cell text.now) self.old)
            (λ _. self.new ≡ self.old) }
    {
        let text = Seq::from_slice(alloc, text)?;
        self.cells[store as usize] = Cell {
            current: Held::Host,
            saved: Some(Held::Host),
            text,
        };
        Ok(())
    }
}
