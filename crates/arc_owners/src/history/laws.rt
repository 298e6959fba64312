//! The law of every interleaving.
ghost use Rattle.std.specs.Prelude.{◌≡◌, ℕ, ◌≤◌, IsTrue, List, [], ◌∷◌, ◌++◌, length};
ghost use Rattle.arc_owners.specs.declared.history.entry.Entry.{Entry as AnyEntry};
ghost use Rattle.arc_owners.specs.declared.history.entry.Entry.TheVariants.{Down};
ghost use Rattle.arc_owners.specs.declared.history.event.Event.{Event as AnyEvent};
ghost use Rattle.arc_owners.specs.history.Histories.{Beginning, Counted, live_owners, IsLegal};
ghost use Rattle.arc_owners.specs.history.Machine.{after_events, run};
ghost use Rattle.arc_owners.specs.history.Agreement.{RunAgrees, ended_by};
ghost use Rattle.arc_owners.specs.history.Laws.{PromotedOnce, LosersAfterWinner, NothingAfterLast};
ghost use Rattle.arc_owners.specs.history.Laws.{ReleasedByLast, AloneIsExact, OneIsLast};

use super::entry::Entry;
use super::event::Event;

/// The law of every interleaving. Whatever these events are, and whichever threads make them, the
/// run of the word machine agrees with a legal history of owners: on a block that begins with a
/// count, and on one that begins as a lone vector. `MAX` is the greatest count.
///
/// Does nothing: its contract is the law, in the words of `Histories`, `Machine`, `Agreement` and
/// `Laws` in specs/.
pub fn keeps<const MAX: u64>(events: &[Event])
    requires { 2 ≤ MAX }
    // The run agrees with the history of its entries.
    ensures agrees { (began : Beginning) →
        RunAgrees MAX began events.now (after_events MAX began events.now).entries }
    // Each history with which the run agrees is legal.
    ensures legal { (began : Beginning) (history : List AnyEntry) →
        RunAgrees MAX began events.now history → IsLegal MAX began history }
    // On a word that has a count, it is the number of live owners.
    ensures counts_owners { (began : Beginning) → let m = after_events MAX began events.now in
        IsTrue m.counted → m.count ≡ length (live_owners m.entries) }
    ensures within { (began : Beginning) → (after_events MAX began events.now).count ≤ MAX }
    ensures promoted_once { (began : Beginning) (history : List AnyEntry) →
        RunAgrees MAX began events.now history → PromotedOnce history }
    ensures losers_after_winner { (began : Beginning) (history : List AnyEntry) →
        RunAgrees MAX began events.now history → LosersAfterWinner history }
    ensures nothing_after_last { (began : Beginning) (history : List AnyEntry) →
        RunAgrees MAX began events.now history → NothingAfterLast history }
    ensures released_by_last { (began : Beginning) (history : List AnyEntry) →
        RunAgrees MAX began events.now history → ReleasedByLast MAX history }
    ensures alone_is_exact { (began : Beginning) (history : List AnyEntry) →
        RunAgrees MAX began events.now history → AloneIsExact MAX history }
    // Once no owner lives no event does anything.
    ensures no_event_after_last { (began : Beginning) (later : List AnyEvent) →
        let m = after_events MAX began events.now in
        m.live ≡ [] → run MAX m later ≡ m }
    // A sole owner may end the block without an atomic step: the history with its Down agrees, and
    // no owner lives after it.
    ensures sole_owner_ends { (began : Beginning) (owner : ℕ) →
        let m = after_events MAX began events.now in
        let history = m.entries ++ Down owner ∷ [] in
        m.live ≡ owner ∷ [] → RunAgrees MAX began events.now history × (live_owners history ≡ []) }
    // After such an end no event does anything.
    ensures no_event_after_end { (began : Beginning) (owner : ℕ) (later : List AnyEvent) →
        let m = after_events MAX began events.now in
        m.live ≡ owner ∷ [] → run MAX (ended_by owner m) later ≡ ended_by owner m }
{}

/// The converse for a word that begins with a count: each legal history is that of a run. So the
/// entries that a count adds with its steps are those of some events. Does nothing: its contract is
/// the law.
pub fn is_run<const MAX: u64>(history: &[Entry])
    requires { IsLegal MAX Counted history.now }
    ensures { (events : List AnyEvent) × RunAgrees MAX Counted events history.now }
{}

/// Of a block's owners that have all ended exactly one was the last. So where each of them ends by
/// a call that gives the last one what the block kept, one of them gets it. Does nothing: its
/// contract is the law.
pub fn one_is_last<const MAX: u64>(history: &[Entry])
    requires legal { (began : Beginning) × IsLegal MAX began history.now }
    requires ended { live_owners history.now ≡ [] }
    ensures { OneIsLast MAX history.now }
{}
