//! Machines that make steps: how a run ends, what is reached after so many steps, when two machines behave alike, and walks
//! of one that answer a step of another. Its theorem: a machine that follows another one step by step behaves as it does.
#![tactic(auto)]

ghost use Rattle.std.specs.Prelude.{◌≡◌, ◌⊎◌, ◌<◌, ◌≤◌, ◌++◌, ℕ, ℤ, suc, List, []};
ghost use Rattle.std.specs.List.{flat_map};
ghost use Rattle.machine_steps.specs.declared.End.{End};
ghost use Rattle.machine_steps.specs.declared.End.TheVariants.{Value};
ghost use Rattle.machine_steps.specs.Steps.{Turn, Went, Going, Over, reached};
ghost use Rattle.machine_steps.specs.Agreement.{seen, Alike};
ghost use Rattle.machine_steps.specs.Ending.{BothEnd};
ghost use Rattle.machine_steps.specs.Simulations.{Follows, Throughout, Answered, Keeps, Answers, Stops, Ends};
ghost use Rattle.machine_steps.specs.Walks.{Walk, OnTheWay, AtEnd};

/// Why a run stops without a value; this project's own.
#[derive(Clone, Copy, Debug, PartialEq, Eq)]
pub enum Trap {
    DivideByZero,
    Overflow,
    Index,
    Unreachable,
    Exhausted,
    MemoryBounds,
    TableBounds,
    Uninitialised,
    Signature,
}

/// How a run ends; this project's own.
#[derive(Clone, Copy, Debug, PartialEq, Eq)]
pub enum End {
    Value(i64),
    Trap(Trap),
}

/// Two machines, by their steps, and how the target follows the source.
pub trait Simulation {
    ghost use Rattle.std.specs.Prelude.{List, ℕ};
    ghost use Rattle.machine_steps.specs.Steps.{Turn};

    /// What the source says.
    type Said;
    /// What the target says.
    type Answer;
    /// The source's state.
    type Source;
    /// The target's state.
    type Target;

    ghost fits: { List Self.Said → List Self.Answer → Type 0 };

    ghost meets: { List Self.Said → List Self.Answer → Type 0 };

    ghost holds: { List Self.Answer → Self.Target → Type 0 };

    ghost source: { Self.Source → Turn Self.Said Self.Source };

    ghost target: { Self.Target → Turn Self.Answer Self.Target };

    ghost related: { List Self.Said → Self.Source → List Self.Answer → Self.Target → Type 0 };

    ghost size: { Self.Source → ℕ };
}

/// A law: where each step of the source is answered by steps of the target, the histories fit after any number of
/// steps of either, and what holds of the target's state holds after each of its steps.
pub fn follows_throughout<S: Simulation>()
    ensures { Follows S.fits S.meets S.holds S.source S.target S.related S.size → (a : S.Source) (b : S.Target) → S.related [] a [] b
        → Throughout S.fits S.meets S.holds S.source S.target S.related S.size [] [] a b }
{}

/// A law: where histories that fit print the same, such a target prints and ends as its source does, both ways, unless
/// it is exhausted.
pub fn follows_alike<S: Simulation>()
    ensures { (source : S.Said → List ℕ) (target : S.Answer → List ℕ)
        → ((ds : List S.Said) (es : List S.Answer) → S.fits ds es → flat_map target es ≡ flat_map source ds)
        → Follows S.fits S.meets S.holds S.source S.target S.related S.size → (a : S.Source) (b : S.Target) → S.related [] a [] b
        → Alike (λ n. seen source (reached S.source n a)) (λ m. seen target (reached S.target m b)) }
{}

/// A law: where each step of the source is answered, and the target is never exhausted instead, for any number of steps of the
/// source there is a number of steps of the target after which the histories fit and both stand alike.
pub fn answered_throughout<S: Simulation>()
    ensures { Answered S.fits S.meets S.holds S.source S.target S.related S.size → (a : S.Source) (b : S.Target) → S.related [] a [] b → (n : ℕ)
        → (m : ℕ) × Keeps S.fits S.meets S.holds S.source S.target S.related S.size [] [] (reached S.source n a) (reached S.target m b) }
{}

/// A law: where each step of the source is so answered, histories that fit print the same, and the source ends with a value,
/// neither is ever stuck or exhausted, and both end with the same numbers printed and that value.
pub fn answered_both_end<S: Simulation>()
    ensures { (source : S.Said → List ℕ) (target : S.Answer → List ℕ)
        → ((ds : List S.Said) (es : List S.Answer) → S.fits ds es → flat_map target es ≡ flat_map source ds)
        → Answered S.fits S.meets S.holds S.source S.target S.related S.size → (a : S.Source) (b : S.Target) → S.related [] a [] b
        → (n : ℕ) (v : ℤ) → (reached S.source n a).stand ≡ Over (Value v)
        → BothEnd (λ n. seen source (reached S.source n a)) (λ m. seen target (reached S.target m b)) }
{}

/// A law: a run that has ended after some number of steps is after any number of steps on its way, or as it is there.
pub fn ends_once<E, A>()
    ensures { (step : A → Turn E A) (n m : ℕ) (a : A) (e : End) → (reached step n a).stand ≡ Over e
        → ((reached step m a).stand ≡ Going) ⊎ (reached step m a ≡ reached step n a) }
{}

/// A law: what has ended stays as it is.
pub fn ended_stays<E, A>()
    ensures { (step : A → Turn E A) (n : ℕ) (a : A) (e : End) → (reached step n a).stand ≡ Over e → reached step (suc n) a ≡ reached step n a }
{}

/// A law: while a run is on its way, as many steps were made as were to be, and never more.
pub fn steps_are_counted<E, A>()
    ensures going { (step : A → Turn E A) (n : ℕ) (a : A) → (reached step n a).stand ≡ Going → (reached step n a).steps ≡ n }
    ensures most { (step : A → Turn E A) (n : ℕ) (a : A) → (reached step n a).steps ≤ n }
{}

/// A law: a walk of the target to what is related to the source's next state, with what has to hold on the way, answers the
/// source's step; one to an end stops the target within that step; and where the histories meet there, it ends as the
/// source does.
pub fn walks_answer<S: Simulation>()
    ensures goes { (ds ds' : List S.Said) (es : List S.Answer) (a a' : S.Source) (b : S.Target) → S.source a ≡ Went ds' a'
        → (w : Walk S.target (OnTheWay S.fits S.holds ds ds') (S.related (ds ++ ds') a') es b) → (w.steps ≡ 0 → S.size a' < S.size a)
        → Answers S.fits S.meets S.holds S.source S.target S.related S.size ds es (S.source a) (S.size a) b }
    ensures stops { (ds ds' after : List S.Said) (last es : List S.Answer) (e : End) (b : S.Target)
        → Walk S.target (OnTheWay S.fits S.holds ds ds') (λ l c. AtEnd S.fits S.holds S.target after last e l c × OnTheWay S.fits S.holds ds ds' l c) es b
        → Stops S.fits S.meets S.holds S.source S.target S.related S.size ds ds' after es e b }
    ensures ends { (ds ds' : List S.Said) (last es : List S.Answer) (e : End) (b : S.Target)
        → Walk S.target (OnTheWay S.fits S.holds ds ds')
        (λ l c. (AtEnd S.fits S.holds S.target (ds ++ ds') last e l c × OnTheWay S.fits S.holds ds ds' l c) × S.meets (ds ++ ds') (l ++ last)) es b
        → Ends S.fits S.meets S.holds S.source S.target S.related S.size ds ds' es e b }
{}
