//! What the model means, as sentences about the prefixes of a history.
//!
//! A history is the list of its steps in their natural order. A prefix of it has its first n steps,
//! for some n. Each function here does nothing: its contract is the law that the step function and
//! a sentence are equal, for each limit and history. No function here has a precondition.

ghost use Rattle.std.specs.Prelude.{◌≡◌, ◌≢◌, ◌↔◌, ◌<◌, ◌⊎◌, IsTrue, Some, Contains, []};
ghost use Rattle.std.specs.List.Sorted.{IsStrictlyIncreasing};
ghost use Rattle.arcstr_count.specs.declared.steps.HandleState.TheVariants.{Dropping, Owing};
ghost use Rattle.arcstr_count.specs.Model.{makes_after, marked_after, living_after, dropping_after, owing_after, given_after, answer_after};
ghost use Rattle.arcstr_world.specs.Worlds.{is_birth};
ghost use Rattle.arcstr_world.specs.Sentences.{is_make, accepted_after, births_after, block_after, state_after, accepted_count, given_count};
ghost use Rattle.arcstr_world.specs.Sentences.{AcceptedSentence, BornSentence, MarkedSentence, StateSentence, OwesSentence, LivingSentence};
ghost use Rattle.arcstr_world.specs.Sentences.{UnderWaySentence, AnswerSentence};

use arcstr_count::{HandleState, Reply, Step};

/// States which steps are accepted: `Make` always, and any other step whose handle's state has 'ok'
/// in the table of refusals. `Look`, `Clone`, `Begin`, `Leak` and `IntoRaw` need a free handle,
/// `Sub` a dropping one, `Back` an owing one and `FromRaw` a raw one.
///
/// ```
/// use arcstr_count::Step;
/// sentences::accepted_is(2, &[Step::Make], Step::Look(0));
/// ```
#[tactic(auto, using(crate::proofs::SentencesState::accepted_sentence))]
pub fn accepted_is(limit: u64, history: &[Step], step: Step)
    ensures { IsTrue (accepted_after limit history.now step)
        ↔ AcceptedSentence limit history.now step }
{}

/// States how many handles were born and how many blocks were made: one handle for each accepted
/// `Make` or `Clone`, and one block for each accepted `Make`.
///
/// ```
/// use arcstr_count::Step;
/// sentences::births_are(2, &[Step::Make, Step::Clone(0)]);
/// ```
#[tactic(auto, using(crate::proofs::SentencesHandles::births_sentence, crate::proofs::SentencesHandles::makes_sentence))]
pub fn births_are(limit: u64, history: &[Step])
    ensures handles { births_after limit history.now
        ≡ accepted_count limit history.now (λ prefix s. is_birth s) }
    ensures blocks { makes_after limit history.now
        ≡ accepted_count limit history.now (λ prefix s. is_make s) }
{}

/// States where a handle is born, and on which block. Handle h is born at the accepted `Make` or
/// `Clone` with h births before it. The handle of a `Make` stands on a new block, numbered by the
/// `Make`s before it. The handle of a `Clone` stands on the block of the handle that the step
/// names.
///
/// ```
/// use arcstr_count::Step;
/// let (handle, block) = (1, 0);
/// sentences::born_is(2, &[Step::Make, Step::Clone(0)], handle, block);
/// ```
pub fn born_is(limit: u64, history: &[Step], handle: u64, block: u64)
    ensures { ((handle < births_after limit history.now)
        × (block_after limit history.now handle ≡ block))
        ↔ BornSentence limit history.now handle block }
{}

/// States when a block is marked: exactly after a history with an accepted `Leak` on it, or with an
/// accepted `Clone` on it after a prefix that leaves it unmarked, with more than `limit` handles
/// living on it.
///
/// ```
/// use arcstr_count::Step;
/// let block = 0;
/// sentences::marked_is(2, &[Step::Make, Step::Leak(0)], block);
/// ```
#[tactic(auto, using(crate::proofs::SentencesBlocks::marked_sentence))]
pub fn marked_is(limit: u64, history: &[Step], block: u64)
    ensures { IsTrue (marked_after limit history.now block)
        ↔ MarkedSentence limit history.now block }
{}

/// States the state of a handle that was born: raw, if the last accepted step among its `IntoRaw`
/// and `FromRaw` is `IntoRaw`; else free, if it has no accepted `Begin`; else dropping, if that
/// `Begin` came while its block was unmarked and it has no accepted `Sub`; else owing, if it owes;
/// else gone.
///
/// ```
/// use arcstr_count::{HandleState, Step};
/// let handle = 0;
/// let history = [Step::Make, Step::IntoRaw(0)];
/// sentences::state_is(2, &history, handle, HandleState::Raw);
/// ```
pub fn state_is(limit: u64, history: &[Step], handle: u64, state: HandleState)
    ensures { (state_after limit history.now handle ≡ Some state)
        ↔ ((handle < births_after limit history.now) × StateSentence limit history.now handle state) }
{}

/// States which handles owe their block: those with no accepted `Back` and with an accepted `Sub`
/// after a prefix that leaves the block unmarked and no other handle living on it.
///
/// ```
/// use arcstr_count::Step;
/// let handle = 0;
/// let history = [Step::Make, Step::Begin(0), Step::Sub(0)];
/// sentences::owes_is(2, &history, handle);
/// ```
#[tactic(auto, using(crate::proofs::SentencesState::owes_sentence))]
pub fn owes_is(limit: u64, history: &[Step], handle: u64)
    ensures { (state_after limit history.now handle ≡ Some Owing)
        ↔ OwesSentence limit history.now handle }
{}

/// States which handles live on a block: those that stand on it and are free, raw or dropping. The
/// list has each of them once, in rising order, so its length is their number.
///
/// ```
/// use arcstr_count::Step;
/// let (block, handle) = (0, 1);
/// sentences::living_is(2, &[Step::Make, Step::Clone(0)], block, handle);
/// ```
pub fn living_is(limit: u64, history: &[Step], block: u64, handle: u64)
    ensures members { Contains (living_after limit history.now block) handle
        ↔ LivingSentence limit history.now block handle }
    ensures once { IsStrictlyIncreasing (living_after limit history.now block) }
{}

/// States when a drop is under way on a block: when some handle on it is dropping or owing. The two
/// lists contain exactly these handles.
///
/// ```
/// use arcstr_count::Step;
/// let (block, handle) = (0, 1);
/// let history = [Step::Make, Step::Clone(0), Step::Begin(1)];
/// sentences::under_way_is(2, &history, block, handle);
/// ```
pub fn under_way_is(limit: u64, history: &[Step], block: u64, handle: u64)
    ensures dropping { Contains (dropping_after limit history.now block) handle
        ↔ ((block_after limit history.now handle ≡ block) × (state_after limit history.now handle ≡ Some Dropping)) }
    ensures owing { Contains (owing_after limit history.now block) handle
        ↔ ((block_after limit history.now handle ≡ block) × (state_after limit history.now handle ≡ Some Owing)) }
    ensures some { ((dropping_after limit history.now block ≢ [])
        ⊎ (owing_after limit history.now block ≢ []))
        ↔ UnderWaySentence limit history.now block }
{}

/// States how often a block was freed: once for each accepted `Back` of a handle on it.
///
/// ```
/// use arcstr_count::Step;
/// let block = 0;
/// let history = [Step::Make, Step::Begin(0), Step::Sub(0), Step::Back(0)];
/// sentences::given_is(2, &history, block);
/// ```
#[tactic(auto, using(crate::proofs::SentencesHandles::given_count_sentence))]
pub fn given_is(limit: u64, history: &[Step], block: u64)
    ensures { given_after limit history.now block ≡ given_count limit history.now block }
{}

/// States what a step answers. A refused step answers the fault that the table of refusals has for
/// the state of its handle. `Make` and `Clone` answer the number of births before them. `Look`
/// answers `Static` at a marked block, else how many handles live on it. `Begin` answers `Ended` on
/// a marked block, else `Looked`. `Sub` answers `Owes` if its block is unmarked and no other handle
/// lives on it, else `Left`. Any other step has one reply.
///
/// ```
/// use arcstr_count::{Reply, Step};
/// sentences::answer_is(2, &[Step::Make], Step::Look(0), Reply::Count(1));
/// ```
#[tactic(auto, using(crate::proofs::SentencesState::answer_sentence))]
pub fn answer_is(limit: u64, history: &[Step], step: Step, reply: Reply)
    ensures { (answer_after limit history.now step ≡ reply)
        ↔ AnswerSentence limit history.now step reply }
{}
