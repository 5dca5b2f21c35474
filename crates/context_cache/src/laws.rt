//! Laws of the effect of a cache's calls on the whole left list.

ghost use Rattle.context_cache.specs.CacheLaws.{PutsAreOfTheList, TakesAreOfTheList, FillingKeepsTheList, TheListIsItsTextAndWindow};

/// A put into the cache is a put into the list.
pub fn puts_are_of_the_list()
    ensures { PutsAreOfTheList }
{}

/// Taking items from the cache takes them from the list, and their characters from its text.
pub fn takes_are_of_the_list()
    ensures { TakesAreOfTheList }
{}

/// Filling the cache does not change the list.
pub fn filling_keeps_the_list()
    ensures { FillingKeepsTheList }
{}

/// If the marks of a list are in its window, the list is its text with the window at the end.
#[tactic(auto, using(crate::proofs::Cached::the_list_is_its_text_and_window))]
pub fn the_list_is_its_text_and_window()
    ensures { TheListIsItsTextAndWindow }
{}
