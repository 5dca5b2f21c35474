//! Laws of a keyboard's steps, each the contract of a function with an empty body. They are true for every keyboard.

ghost use Rattle.rule_model.specs.StepLaws.{BeforeIsTransitive, BestGoesBeforeOthers, BestIsBest, BestIsNone, DefaultKeepsSound, EachEventHasItsStep, EditGivesTheText, EditIsShort, EventKeepsSound, EventKeepsTextInBounds, FirstIsFirst, FirstIsNone, GroupKeepsSound, GroupsKeepSound, ItemKeepsSound, NoMoreStepsThanEvents, NoneBeforeItself, OneGoesBefore, OneIsBest, OnlyKeysAct, OutputKeepsSound, PressAddsWhatItPuts, PressEditsTheText, PressInsertsAtMostWhatItPuts, PressIsWithinBudget, PressKeepsSound, RefusalFollowsTheSteps, StepsAreNumbered, StepsAreSound, StepsAreWithinBudget, StepsKeepTextInBounds};
ghost use Rattle.rule_model.specs.Choose.{goes_before};
ghost use Rattle.std.specs.Cmp.{IsStrictWeakOrder};
ghost use Rattle.rule_model.specs.CasedKeys.{CasedKeysFitByHalves, CasedRulesHoldByHalves};
ghost use Rattle.rule_model.specs.WorkedTraces.{AreWorkedTraces};

/// `goes_before` is an order of rules. If two rules have different lines, one of them precedes the other.
#[tactic(auto, using(crate::proofs::Choosing::goes_before_is_weak_order, crate::proofs::Choosing::none_before_itself, crate::proofs::Choosing::before_is_transitive, crate::proofs::Choosing::one_goes_before))]
pub fn going_before_is_an_order()
    ensures weak_order { IsStrictWeakOrder goes_before }
    ensures irreflexive { NoneBeforeItself }
    ensures transitive { BeforeIsTransitive }
    ensures total { OneGoesBefore }
{}

/// A file's choice is the first rule of a list that holds.
#[tactic(auto, using(crate::proofs::Choosing::first_is_none))]
pub fn first_holds_first()
    ensures none { FirstIsNone }
    ensures some { FirstIsFirst }
{}

/// A source's choice is, of the rules that hold, one that no other precedes, and if lines differ the only one.
#[tactic(auto, using(crate::proofs::Choosing::best_is_none, crate::proofs::Choosing::best_goes_before_others))]
pub fn best_goes_before_others()
    ensures none { BestIsNone }
    ensures some { BestIsBest }
    ensures only { OneIsBest }
    ensures before_others { BestGoesBeforeOthers }
{}

/// No key event enters more than 50 groups or puts more than 4,096 items, and other events do neither.
#[tactic(auto, using(crate::proofs::Budget::press_is_within_budget, crate::proofs::Budget::steps_are_within_budget, crate::proofs::Budget::only_keys_act))]
pub fn events_are_within_budget()
    ensures press { PressIsWithinBudget }
    ensures steps { StepsAreWithinBudget }
    ensures others { OnlyKeysAct }
{}

/// The steps of a trace count from 1, one for each event up to the end or the refused one.
#[tactic(auto, using(crate::proofs::Steps::steps_are_numbered, crate::proofs::Steps::no_more_steps_than_events, crate::proofs::Steps::each_event_has_its_step, crate::proofs::Steps::refusal_follows_the_steps))]
pub fn steps_count_events()
    ensures numbers { StepsAreNumbered }
    ensures at_most { NoMoreStepsThanEvents }
    ensures each { EachEventHasItsStep }
    ensures refused { RefusalFollowsTheSteps }
{}

/// Each action in a key event keeps each mark of a sound list among the last 64 items.
#[tactic(auto, using(crate::proofs::Soundness::item_keeps_sound, crate::proofs::Soundness::output_keeps_sound, crate::proofs::Soundness::default_keeps_sound, crate::proofs::Soundness::group_keeps_sound, crate::proofs::Soundness::groups_keep_sound, crate::proofs::Soundness::press_keeps_sound))]
pub fn acting_keeps_sound()
    ensures item { ItemKeepsSound }
    ensures output { OutputKeepsSound }
    ensures default { DefaultKeepsSound }
    ensures group { GroupKeepsSound }
    ensures groups { GroupsKeepSound }
    ensures press { PressKeepsSound }
{}

/// Each event keeps the left list sound, so each state of a trace has a sound left list.
#[tactic(auto, using(crate::proofs::Soundness::event_keeps_sound, crate::proofs::Soundness::steps_are_sound))]
pub fn events_keep_sound()
    ensures event { EventKeepsSound }
    ensures steps { StepsAreSound }
{}

/// The edit that a key event reports turns the old text into the new one, and does not repeat what both begin with.
#[tactic(auto, using(crate::proofs::Edits::edit_gives_the_text, crate::proofs::Edits::edit_is_short, crate::proofs::Insertions::press_inserts_at_most_what_it_puts))]
pub fn edits_give_the_text()
    ensures text { EditGivesTheText }
    ensures short { EditIsShort }
    ensures press { PressEditsTheText }
    ensures inserted { PressInsertsAtMostWhatItPuts }
{}

/// The whole text of a trace has at most 1,000,000 characters: a press adds at most as many characters as it puts items, and is
/// refused before the limit is exceeded.
#[tactic(auto, using(crate::proofs::Bounds::press_adds_what_it_puts, crate::proofs::Bounds::event_keeps_text_in_bounds, crate::proofs::Bounds::steps_keep_text_in_bounds))]
pub fn text_stays_in_bounds()
    ensures press { PressAddsWhatItPuts }
    ensures event { EventKeepsTextInBounds }
    ensures steps { StepsKeepTextInBounds }
{}

/// A key that exchanges shift and caps lock fits exactly when one of two keys fits. Each of these names one state of caps lock.
pub fn cased_keys_fit_by_halves()
    ensures { CasedKeysFitByHalves }
{}

/// So a rule with such a key holds exactly when one of two rules with these keys holds.
pub fn cased_rules_hold_by_halves()
    ensures { CasedRulesHoldByHalves }
{}

/// The definitions have the results that were worked out by hand for nine small keyboards.
#[tactic(auto, using(crate::proofs::WorkedTraces::worked_traces))]
pub fn worked_traces()
    ensures { AreWorkedTraces }
{}
