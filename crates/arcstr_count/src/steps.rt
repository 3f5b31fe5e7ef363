//! What handles do, what each act answers, and what it leaves of the handle and its block. Each
//! type is plain data: it may be copied, sent and shared, and its drop does nothing.

use crate::faults::StepFault;
use crate::words::Word;

/// One act of one handle. The number is that of the handle that acts.
///
/// Handles are numbered from 0 in order of birth over all blocks: `Make` and `Clone` give birth.
///
/// Takes 16 bytes.
///
/// ```
/// let steps = [Step::Make, Step::Begin(0), Step::Sub(0)];
/// every_interleaving(RC_MAX, &steps);
/// ```
#[derive(Clone, Copy, Debug, PartialEq, Eq)]
pub enum Step {
    /// A new block with one free handle.
    Make,
    /// Asks how many handles live on the handle's block.
    Look(u64),
    /// A second handle on the same block.
    Clone(u64),
    /// The handle's drop begins, with a look at the block.
    Begin(u64),
    /// A drop that found its block unmarked takes its handle out of the count.
    Sub(u64),
    /// The handle that was subtracted last frees the block.
    Back(u64),
    /// Marks the block static, permanently.
    Leak(u64),
    /// The free handle becomes a raw value, which still lives.
    IntoRaw(u64),
    /// The raw value becomes a free handle again.
    FromRaw(u64),
}

/// What an accepted step answers, or why a step is refused.
///
/// Takes 16 bytes.
///
/// ```
/// let replies = [Reply::Made(0), Reply::Refused(StepFault::NotInDrop)];
/// let refused = replies.iter().filter(|reply| matches!(reply, Reply::Refused(_)));
/// assert_eq!(rt; refused.count(), 1);
/// ```
#[derive(Clone, Copy, Debug, PartialEq, Eq)]
pub enum Reply {
    /// To `Make`: the handle that was born.
    Made(u64),
    /// To `Look` at an unmarked block: how many handles live on it.
    Count(u64),
    /// To `Look` at a marked block.
    Static,
    /// To `Clone`: the handle that was born.
    Handle(u64),
    /// To `Begin` on an unmarked block: the handle is dropping.
    Looked,
    /// To `Begin` on a marked block: the handle is gone.
    Ended,
    /// To `Sub`: other handles live, or the block is marked.
    Left,
    /// To `Sub` of the last living handle of an unmarked block.
    Owes,
    /// To `Back`: the block is freed.
    Given,
    /// To `Leak`.
    Marked,
    /// To `IntoRaw`.
    Raw,
    /// To `FromRaw`.
    Unraw,
    /// The step is not accepted, and changes nothing.
    Refused(StepFault),
}

/// The state of a handle that was born. The handle lives while it is free, raw or dropping.
///
/// Takes 1 byte.
///
/// ```
/// let history = [Step::Make, Step::Clone(0), Step::IntoRaw(1)];
/// let seats = [HandleState::Free, HandleState::Raw];
/// seats_are_counted(2, &history, Word::from_bits(4), &seats);
/// ```
#[derive(Clone, Copy, Debug, PartialEq, Eq)]
pub enum HandleState {
    /// A handle in use.
    Free,
    /// A raw value that stands for the handle.
    Raw,
    /// Its drop began, found the block unmarked, and has not subtracted yet.
    Dropping,
    /// It was subtracted last, and has to free the block.
    Owing,
    /// It has ended.
    Gone,
}

/// What a state of the model keeps of a handle that was born. Contracts use it; no call returns
/// one.
///
/// Takes 16 bytes.
///
/// ```
/// let state = HandleState::Free;
/// let first = HandleSummary { block: 0, state };
/// assert_eq!(rt; first.block, 0);
/// ```
#[derive(Clone, Copy, Debug, PartialEq, Eq)]
pub struct HandleSummary {
    /// The number of the block that the handle stands on.
    pub block: u64,
    /// The state of the handle.
    pub state: HandleState,
}

/// What a state of the model keeps of a block that was made. Contracts use it; no call returns one.
///
/// Takes 16 bytes.
///
/// ```
/// let first = BlockSummary { word: Word::one(), given: 0 };
/// assert_eq!(rt; first.word.count(), 1);
/// ```
#[derive(Clone, Copy, Debug, PartialEq, Eq)]
pub struct BlockSummary {
    /// The count word of the block.
    pub word: Word,
    /// How often the block was freed.
    pub given: u64,
}
