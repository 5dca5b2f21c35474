//! What an event works on, with all the space that it needs. The engine passes it to an event and gets it back, so no event
//! allocates.

ghost use Rattle.std.specs.Prelude.{◌≡◌, ◌≤◌, ◌<◌, ◌+◌, [], length, vec_capacity, IfOk, MatchResult, is_some, true};
ghost use Rattle.kmn_base.specs.declared.limits.TheConstants.{EVENT_ENTRIES, EVENT_PUTS, STORES, WINDOW_ITEMS};
ghost use Rattle.option_store.specs.Cells.{changed, first_cells, host_cell, save_cell, set_cell};
ghost use Rattle.rule_model.specs.Content.{option_number};
ghost use Rattle.rule_model.specs.Keyboard.{Numbered};
ghost use Rattle.rule_model.specs.Tab.{tab};
ghost use Rattle.rule_matching.specs.MatchState.{truths_at};
ghost use Rattle.rule_matching.specs.PlaceMemory.{rooms};
ghost use Rattle.rule_engine.specs.Event.{HoldTheSame, OthersHoldThemselves, match_state_with};

use event_text::{CacheBox, Inserted};
use kmn_base::Memory;
use kmn_base::limits::EVENT_ENTRIES;
use option_store::Options;
use rule_index::IndexedKeyboard;
use rule_matching::{PlaceMemory, StoreValue};
use std::alloc::Global;

/// What an event works on and leaves to the next one: the last items before the caret, what the stores hold, whether the platform
/// has the words of each store's elements, what the last press inserted and the lines of the rules that it selected, and space for
/// the positions that are found while a record is selected.
#[derive(Drop)]
pub struct Workspace {
    pub cache: CacheBox,
    pub options: Options,
    /// By store number, with the layer and the platform after the stores of the file.
    pub truths: Vec<bool>,
    pub inserted: Inserted,
    /// In the order in which their groups were entered.
    pub chosen: Vec<u32>,
    pub places: PlaceMemory,
}

/// Copies the lines, with space for those of an event.
fn copied(alloc: Global, lines: &[u32]) -> Result<Vec<u32>, Memory>
    requires { length lines.now ≤ EVENT_ENTRIES }
    ensures lines { IfOk result (λ copy. copy.items ≡ lines.now) }
    ensures room { IfOk result (λ copy. vec_capacity copy ≡ EVENT_ENTRIES) }
{
    let mut copy = Vec::with_capacity(alloc, EVENT_ENTRIES as usize)?;
    for line in lines {
        copy.push_reserved(*line);
    }
    Ok(copy)
}

impl Workspace {
    /// Creates a workspace for a keyboard with `stores` stores, before the truths of the platform are found. Errors: `Memory` if an
    /// allocation fails.
    pub fn new(alloc: Global, stores: u32) -> Result<Workspace, Memory>
        requires { stores ≤ STORES + 2 }
        ensures cache { IfOk result (λ workspace. workspace.cache ≡ record { items = []; room = WINDOW_ITEMS }) }
        ensures options { IfOk result (λ workspace. workspace.options ≡ first_cells 0 stores) }
        ensures truths { IfOk result (λ workspace. length workspace.truths.items ≡ stores) }
        ensures inserted { IfOk result (λ workspace. workspace.inserted ≡ record { text = []; room = EVENT_PUTS }) }
        ensures chosen { IfOk result (λ workspace. workspace.chosen.items ≡ []) }
        ensures lines { IfOk result (λ workspace. vec_capacity workspace.chosen ≡ EVENT_ENTRIES) }
        ensures places { IfOk result (λ workspace. rooms workspace.places ≡ (stores, stores)) }
    {
        let options = Options::new(alloc, stores)?;
        let truths = vec![in alloc; false; stores as usize]?;
        let places = PlaceMemory::new(alloc, stores as usize)?;
        let inserted = Inserted::with_capacity(alloc)?;
        let cache = CacheBox::with_capacity(alloc)?;
        let chosen = Vec::with_capacity(alloc, EVENT_ENTRIES as usize)?;
        Ok(Workspace {
            cache,
            options,
            truths,
            inserted,
            chosen,
            places,
        })
    }

    /// Prepares the first event. The platform is the one that the keyboard states.
    #[tactic(auto, using(crate::proofs::Truths::truths_at_first))]
    pub fn begin(&mut self, indexed: &IndexedKeyboard<'_>)
        requires cells { self.old.options ≡ first_cells 0 (length (tab indexed.now).stores) }
        requires truths { length self.old.truths.items ≡ length (tab indexed.now).stores }
        ensures truths { self.new.truths.items ≡ truths_at (match_state_with indexed.now self.new.options) }
        ensures cache { self.new.cache ≡ self.old.cache }
        ensures options { self.new.options ≡ self.old.options }
        ensures inserted { self.new.inserted ≡ self.old.inserted }
        ensures chosen { self.new.chosen ≡ self.old.chosen }
        ensures places { self.new.places ≡ self.old.places }
    {
        let stated = indexed.stated(indexed.platform());
        indexed.find_truths(self.truths.as_mut_slice(), stated);
    }

    /// Creates a placeholder for the time in which an event owns the workspace. It has no space and does not allocate.
    pub fn without_capacity(alloc: Global) -> Workspace
        ensures cache { result.cache ≡ record { items = []; room = 0 } }
        ensures options { result.options ≡ [] }
        ensures truths { result.truths.items ≡ [] }
        ensures inserted { result.inserted ≡ record { text = []; room = 0 } }
        ensures chosen { result.chosen.items ≡ [] }
        ensures places { rooms result.places ≡ (0, 0) }
    {
        Workspace {
            cache: CacheBox::without_capacity(),
            options: Options::none(alloc),
            truths: Vec::new(alloc),
            inserted: Inserted::without_capacity(alloc),
            chosen: Vec::new(alloc),
            places: PlaceMemory::without_capacity(alloc),
        }
    }

    /// Copies the workspace, for a keyboard with `stores` stores. The copy has its own space. Errors: `Memory` if an allocation
    /// fails.
    pub fn copy(&self, alloc: Global, stores: u32) -> Result<Workspace, Memory>
        requires stores { stores ≤ STORES + 2 }
        requires lines { vec_capacity self.now.chosen ≡ EVENT_ENTRIES }
        ensures cache { IfOk result (λ workspace. workspace.cache ≡ record { items = self.now.cache.items; room = WINDOW_ITEMS }) }
        ensures options { IfOk result (λ workspace. workspace.options ≡ self.now.options) }
        ensures truths { IfOk result (λ workspace. workspace.truths.items ≡ self.now.truths.items) }
        ensures inserted { IfOk result (λ workspace. workspace.inserted ≡ self.now.inserted) }
        ensures chosen { IfOk result (λ workspace. workspace.chosen.items ≡ self.now.chosen.items) }
        ensures lines { IfOk result (λ workspace. vec_capacity workspace.chosen ≡ EVENT_ENTRIES) }
        ensures places { IfOk result (λ workspace. rooms workspace.places ≡ (stores, stores)) }
    {
        let options = self.options.copy(alloc)?;
        let mut truths = Vec::with_capacity(alloc, self.truths.len())?;
        truths.extend_from_slice(self.truths.as_slice())?;
        let places = PlaceMemory::new(alloc, stores as usize)?;
        let inserted = self.inserted.copy(alloc)?;
        let cache = self.cache.copy(alloc)?;
        let chosen = copied(alloc, self.chosen.as_slice())?;
        Ok(Workspace {
            cache,
            options,
            truths,
            inserted,
            chosen,
            places,
        })
    }

    /// Sets the current and the saved value of a store to a text of the host. If the store is the platform, the truths are found in
    /// place. Errors: `Memory` if an allocation fails, and then the workspace is unchanged.
    #[tactic(auto, using(crate::proofs::Truths::truths_given))]
    pub fn host_set(
        &mut self,
        alloc: Global,
        indexed: &IndexedKeyboard<'_>,
        store: u32,
        text: &[char],
    ) -> Result<(), Memory>
        requires store { store < length (tab indexed.now).stores }
        requires cells { length self.old.options ≡ length (tab indexed.now).stores }
        requires truths { self.old.truths.items ≡ truths_at (match_state_with indexed.now self.old.options) }
        ensures options { MatchResult result (λ _. self.new.options ≡ changed store (host_cell text.now) self.old.options) (λ _. self.new.options ≡ self.old.options) }
        ensures truths { self.new.truths.items ≡ truths_at (match_state_with indexed.now self.new.options) }
        ensures cache { self.new.cache ≡ self.old.cache }
        ensures inserted { self.new.inserted ≡ self.old.inserted }
        ensures chosen { self.new.chosen ≡ self.old.chosen }
        ensures places { self.new.places ≡ self.old.places }
    {
        if store != indexed.platform() {
            return self.options.host_set(alloc, store, text);
        }
        let content = StoreValue::Text(text).copy(alloc)?;
        self.options.host_set(alloc, store, text)?;
        indexed.find_truths(self.truths.as_mut_slice(), content.as_slice());
        Ok(())
    }

    /// Sets the current and the saved value of a store to the elements that the store with the number `value` is stated with. If the
    /// store is the platform, the truths are found in place.
    pub fn hold_store(&mut self, indexed: &IndexedKeyboard<'_>, store: u32, value: u32)
        requires store { store < length (tab indexed.now).stores }
        requires cells { length self.old.options ≡ length (tab indexed.now).stores }
        requires truths { self.old.truths.items ≡ truths_at (match_state_with indexed.now self.old.options) }
        ensures options { self.new.options ≡ changed store save_cell (changed store (set_cell value) self.old.options) }
        ensures truths { self.new.truths.items ≡ truths_at (match_state_with indexed.now self.new.options) }
        ensures cache { self.new.cache ≡ self.old.cache }
        ensures inserted { self.new.inserted ≡ self.old.inserted }
        ensures chosen { self.new.chosen ≡ self.old.chosen }
        ensures places { self.new.places ≡ self.old.places }
    {
        self.options.set(store, value);
        self.options.save(store);
        if store == indexed.platform() {
            let stated = indexed.stated(value);
            indexed.find_truths(self.truths.as_mut_slice(), stated);
        }
    }

    /// Sets an option to a text of the host, as its current and as its saved value. If a store is stated with the text, the option
    /// holds that store, so that a condition compares two stores by their numbers. Errors: `Memory` if an allocation fails, and then
    /// the workspace is unchanged.
    pub fn set_option(
        &mut self,
        alloc: Global,
        indexed: &IndexedKeyboard<'_>,
        store: u32,
        text: &[char],
    ) -> Result<(), Memory>
        requires store { store < length (tab indexed.now).stores }
        requires cells { length self.old.options ≡ length (tab indexed.now).stores }
        requires truths { self.old.truths.items ≡ truths_at (match_state_with indexed.now self.old.options) }
        requires option { is_some (option_number (tab indexed.now).stores (Numbered store)) ≡ true }
        requires others { OthersHoldThemselves indexed.now self.old.options }
        ensures options { MatchResult result (λ _. HoldTheSame (tab indexed.now).stores self.new.options (changed store (host_cell text.now) self.old.options)) (λ _. self.new.options ≡ self.old.options) }
        ensures others { OthersHoldThemselves indexed.now self.new.options }
        ensures truths { self.new.truths.items ≡ truths_at (match_state_with indexed.now self.new.options) }
        ensures cache { self.new.cache ≡ self.old.cache }
        ensures inserted { self.new.inserted ≡ self.old.inserted }
        ensures chosen { self.new.chosen ≡ self.old.chosen }
        ensures places { self.new.places ≡ self.old.places }
    {
        match indexed.stated_with(text) {
            Some(value) => {
                self.hold_store(indexed, store, value);
                Ok(())
            }
            None => self.host_set(alloc, indexed, store, text),
        }
    }
}
