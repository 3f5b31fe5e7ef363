//! The world of counted blocks, which answers one step at a time as the model's step function says.

ghost use Rattle.std.specs.Prelude.{◌≡◌, ◌<◌, ◌≤◌, ◌↔◌, ◌+◌, ◌++◌, if◌then◌else◌, [], ◌∷◌, List, length};
ghost use Rattle.std.specs.Prelude.{IsTrue, IfOk, IfErr, OnErr, IsOk, IsNone, IsSome, None, slice_get, slice_index_or, vec_len, vec_capacity};
ghost use Rattle.arcstr_count.specs.declared.steps.Step.{Step};
ghost use Rattle.arcstr_count.specs.Model.{State, step, after, start, refusal_in, state_in};
ghost use Rattle.arcstr_count.specs.Model.{block_on, blocks_with_word, given_in, no_block, state_of_tables, word_in};
ghost use Rattle.arcstr_world.specs.Worlds.{WorldView, is_birth, HasHistory, IsSound};
ghost use Rattle.arcstr_count.specs.Answer.{refusal_unless};
ghost use Rattle.arcstr_count.specs.declared.words.TheConstants.{RC_MAX};
ghost use Rattle.arcstr_count.specs.Laws.{HoldsInEveryInterleaving};

use crate::faults::RunFault;
use arcstr_count::{
    BlockSummary, HandleState, HandleSummary, RC_MAX, Reply, Step, StepFault, Word,
};
use std::alloc::Allocator;
use std::marker::Model;

/// Counted blocks and their handles, which answer one step at a time.
///
/// A world keeps a table of states by the number of the handle, a table of count words by the
/// number of the block, and the limit on the count of a block. A step takes constant time, except
/// when a table grows. The tables take memory from the allocator, and the drop of the world frees
/// it. A world can be sent and shared where its allocator can, and has 56 bytes where the allocator
/// has none.
///
/// ```
/// use arcstr_count::{Reply, Step};
/// let mut world = World::new(rt.alloc(), 2)?;
/// assert_eq!(rt; world.step(Step::Make)?, Reply::Made(0));
/// assert_eq!(rt; world.step(Step::Clone(0))?, Reply::Handle(1));
/// assert_eq!(rt; world.step(Step::Look(0))?, Reply::Count(2));
/// ```
#[derive(Drop)]
pub struct World<A: Allocator> {
    limit: u64,
    tables: Tables<A>,
}

impl<A: Allocator> Model for World<A> {
    ghost use Rattle.arcstr_world.specs.Worlds.{WorldView, IsWorld};

    ghost Value = { WorldView };

    ghost view = { λ w. record { limit = w.limit; state = w.tables } };

    ghost invariant = { λ w. IsWorld w.limit w.tables };
}

/// The states of the handles and the count words of the blocks, by their numbers. A contract sees
/// the model's state.
#[derive(Drop)]
struct Tables<A: Allocator> {
    handles: Vec<HandleSummary, A>,
    blocks: Vec<BlockSummary, A>,
}

impl<A: Allocator> Model for Tables<A> {
    ghost use Rattle.arcstr_count.specs.Model.{State, state_of_tables};

    ghost Value = { State };

    ghost view = { λ t. state_of_tables t.handles.items t.blocks.items };
}

impl<A: Allocator + Copy> World<A> {
    /// Makes a world of the empty history, whose clones count up to the limit, in handles. The call
    /// does not allocate. It fails only with `LimitTooLarge`, for a limit above `RC_MAX`.
    ///
    /// ```
    /// use arcstr_count::RC_MAX;
    /// assert!(rt; World::new(rt.alloc(), RC_MAX).is_ok());
    /// let refused = World::new(rt.alloc(), RC_MAX + 1);
    /// assert!(rt; matches!(refused, Err(RunFault::LimitTooLarge)));
    /// ```
    pub fn new(alloc: A, limit: u64) -> Result<World<A>, RunFault>
        // Promise: It fails exactly if the limit is above `RC_MAX`.
        ensures too_large { (result ≡ Err RunFault.LimitTooLarge) ↔ (RC_MAX < limit) }
        ensures made { limit ≤ RC_MAX → IsOk result }
        // Promise: A new world has this limit, and has taken no step.
        ensures fresh { IfOk result (λ world. world ≡ record { limit = limit; state = start }) }
    {
        if limit > RC_MAX {
            return Err(RunFault::LimitTooLarge);
        }
        Ok(World {
            limit,
            tables: Tables {
                handles: Vec::new(alloc),
                blocks: Vec::new(alloc),
            },
        })
    }

    /// Answers a step, and takes it if it is accepted. A refused step has an answer too, and
    /// changes nothing.
    ///
    /// Only an accepted `Make` or `Clone` allocates. If that fails, the call fails with `Memory`,
    /// its only fault, and the world is unchanged.
    ///
    /// ```
    /// use arcstr_count::{Reply, Step, StepFault};
    /// let mut world = World::new(rt.alloc(), 2)?;
    /// assert_eq!(rt; world.step(Step::Make)?, Reply::Made(0));
    /// let refused = Reply::Refused(StepFault::NotInDrop);
    /// assert_eq!(rt; world.step(Step::Sub(0))?, refused);
    /// ```
    #[tactic(auto, using(crate::proofs::LawsOfWorlds::sound_world))]
    pub fn step(&mut self, act: Step) -> Result<Reply, RunFault>
        // Promise: Its reply and the new state are those of the model's step function.
        ensures stepped { IfOk result
            (λ reply. step self.old.limit self.old.state act ≡ (self.new.state, reply)) }

        // Promise: Only an accepted `Make` or `Clone` runs out of memory, which changes nothing.
        ensures memory { IfErr result (λ fault. (fault ≡ RunFault.Memory) × (self.new ≡ self.old)) }
        ensures memory_only_to_births { OnErr result
            (IsTrue (is_birth act) × (refusal_in self.old.state act ≡ None)) }

        // Promise: The limit stays the same.
        ensures limit { self.new.limit ≡ self.old.limit }
    {
        self.tables.take(self.limit, act)
    }

    /// Returns how often the block with this number was freed: 0 or 1 times, and 0 for a block that
    /// was never made. The call does not allocate.
    ///
    /// ```
    /// use arcstr_count::Step;
    /// let mut world = World::new(rt.alloc(), 2)?;
    /// for step in [Step::Make, Step::Begin(0), Step::Sub(0), Step::Back(0)] {
    ///     let _ = world.step(step)?;
    /// }
    /// assert_eq!(rt; world.given(0), 1);
    /// ```
    #[tactic(auto, using(crate::proofs::LawsOfWorlds::sound_world))]
    pub fn given(&self, block: u64) -> u64
        ensures value { result ≡ given_in self.now.state block }
        ensures at_most_once { result ≤ 1 }
    {
        given_at(&self.tables.blocks, block)
    }

    /// Proves that the state of each world is that after at least one history, and the laws of
    /// every interleaving for each such history: what holds after every prefix of it, for every
    /// block made in it. It does nothing when it runs: its clauses are its purpose.
    ///
    /// ```
    /// use arcstr_count::{Reply, Step};
    /// let mut world = World::new(rt.alloc(), 2)?;
    /// assert_eq!(rt; world.step(Step::Make)?, Reply::Made(0));
    /// world.stands_for_a_history();
    /// ```
    pub fn stands_for_a_history(&self)
        ensures some { HasHistory self.now }
        ensures laws { (history : List Step) → self.now.state ≡ after self.now.limit history
            → HoldsInEveryInterleaving self.now.limit history }
    {
        // A clause knows the invariant of a value behind a `&` once the body reads the value.
        // Without this read nothing is known of the world.
        let _limit = self.limit;
    }
}

impl<A: Allocator> Tables<A> {
    /// Answers a step, and takes it if it is accepted.
    fn take(&mut self, limit: u64, act: Step) -> Result<Reply, RunFault>
        requires sound { IsSound self.old }
        requires limited { limit ≤ RC_MAX }
        ensures stepped { IfOk result (λ reply. step limit self.old act ≡ (self.new, reply)) }
        ensures memory { IfErr result (λ fault. (fault ≡ RunFault.Memory) × (self.new ≡ self.old)) }
        ensures memory_only_to_births { OnErr result
            (IsTrue (is_birth act) × (refusal_in self.old act ≡ None)) }
    {
        match act {
            Step::Make => self.make(),
            Step::Look(handle) => Ok(self.look(handle)),
            Step::Clone(handle) => self.clone(limit, handle),
            Step::Begin(handle) => Ok(self.begin(handle)),
            Step::Sub(handle) => Ok(self.sub(handle)),
            Step::Back(handle) => Ok(self.back(handle)),
            Step::Leak(handle) => Ok(self.leak(handle)),
            Step::IntoRaw(handle) => Ok(self.into_raw(handle)),
            Step::FromRaw(handle) => Ok(self.from_raw(handle)),
        }
    }

    /// Returns the block of a handle in the needed state, or why a step that needs this state is
    /// refused.
    #[tactic(auto, using(std::proofs::lemmas::Option::slice_get_within, std::proofs::lemmas::Option::get_or_from_slice_get))]
    fn block_of(&self, needed: HandleState, handle: u64) -> Result<u64, StepFault>
        requires { IsSound self.now }
        ensures refused { IfErr result
            (λ fault. refusal_unless needed (state_in self.now handle) ≡ Some fault) }
        ensures found { IfOk result (λ block. slice_get self.now.handles handle
            ≡ Some (record { block = block; state = needed })) }
        ensures block { IfOk result (λ block. block_on self.now handle ≡ block) }
        ensures born { IfOk result (λ _. handle < length self.now.handles) }
        ensures made { IfOk result (λ block. block < length self.now.blocks) }
    {
        match entry_at(&self.handles, handle) {
            None => Err(StepFault::NoHandle),
            Some(found) => match refusal(needed, found.state) {
                None => Ok(found.block),
                Some(fault) => Err(fault),
            },
        }
    }

    /// Returns the count word of a block.
    fn word(&self, block: u64) -> Word
        requires { block < length self.now.blocks }
        ensures { result ≡ word_in self.now block }
    {
        self.blocks[block as usize].word
    }

    /// Sets the count word of a block.
    fn set_word(&mut self, block: u64, word: Word)
        requires { block < length self.old.blocks }
        ensures { self.new
            ≡ state_of_tables self.old.handles (blocks_with_word self.old.blocks block word) }
    {
        self.blocks[block as usize].word = word;
    }

    /// Answers `Make`. Of the nine steps only a clone asks for the limit: the clauses of the others
    /// give the step function 0.
    fn make(&mut self) -> Result<Reply, RunFault>
        ensures stepped { IfOk result (λ reply. step 0 self.old Step.Make ≡ (self.new, reply)) }
        ensures memory { IfErr result (λ fault. (fault ≡ RunFault.Memory) × (self.new ≡ self.old)) }
    {
        if self.handles.reserve(1).is_err() || self.blocks.reserve(1).is_err() {
            return Err(RunFault::Memory);
        }
        let block = self.blocks.len() as u64;
        let handle = push_handle(&mut self.handles, block);
        push_entry(
            &mut self.blocks,
            BlockSummary {
                word: Word::one(),
                given: 0,
            },
        );
        Ok(Reply::Made(handle))
    }

    fn clone(&mut self, limit: u64, handle: u64) -> Result<Reply, RunFault>
        requires sound { IsSound self.old }
        requires limited { limit ≤ RC_MAX }
        ensures stepped { IfOk result
            (λ reply. step limit self.old (Step.Clone handle) ≡ (self.new, reply)) }
        ensures memory { IfErr result (λ fault. (fault ≡ RunFault.Memory) × (self.new ≡ self.old)) }
        ensures accepted { OnErr result (refusal_in self.old (Step.Clone handle) ≡ None) }
    {
        let block = match self.block_of(HandleState::Free, handle) {
            Ok(block) => block,
            Err(fault) => return Ok(Reply::Refused(fault)),
        };
        if self.handles.reserve(1).is_err() {
            return Err(RunFault::Memory);
        }
        self.blocks[block as usize].word = self.word(block).cloned(limit);
        Ok(Reply::Handle(push_handle(&mut self.handles, block)))
    }

    fn look(&self, handle: u64) -> Reply
        requires { IsSound self.now }
        ensures { step 0 self.now (Step.Look handle) ≡ (self.now, result) }
    {
        let block = match self.block_of(HandleState::Free, handle) {
            Ok(block) => block,
            Err(fault) => return Reply::Refused(fault),
        };
        match self.word(block).looked() {
            None => Reply::Static,
            Some(count) => Reply::Count(count),
        }
    }

    fn begin(&mut self, handle: u64) -> Reply
        requires { IsSound self.old }
        ensures { step 0 self.old (Step.Begin handle) ≡ (self.new, result) }
    {
        let block = match self.block_of(HandleState::Free, handle) {
            Ok(block) => block,
            Err(fault) => return Reply::Refused(fault),
        };
        let (state, reply) = after_begin(self.word(block));
        self.handles[handle as usize].state = state;
        reply
    }

    fn sub(&mut self, handle: u64) -> Reply
        requires { IsSound self.old }
        ensures { step 0 self.old (Step.Sub handle) ≡ (self.new, result) }
    {
        let block = match self.block_of(HandleState::Dropping, handle) {
            Ok(block) => block,
            Err(fault) => return Reply::Refused(fault),
        };
        let (word, last) = self.word(block).dropped();
        let (state, reply) = after_sub(last);
        self.set_word(block, word);
        self.handles[handle as usize].state = state;
        reply
    }

    fn back(&mut self, handle: u64) -> Reply
        requires { IsSound self.old }
        ensures { step 0 self.old (Step.Back handle) ≡ (self.new, result) }
    {
        let block = match self.block_of(HandleState::Owing, handle) {
            Ok(block) => block,
            Err(fault) => return Reply::Refused(fault),
        };
        self.blocks[block as usize].given += 1;
        self.handles[handle as usize].state = HandleState::Gone;
        Reply::Given
    }

    fn leak(&mut self, handle: u64) -> Reply
        requires { IsSound self.old }
        ensures { step 0 self.old (Step.Leak handle) ≡ (self.new, result) }
    {
        let block = match self.block_of(HandleState::Free, handle) {
            Ok(block) => block,
            Err(fault) => return Reply::Refused(fault),
        };
        self.blocks[block as usize].word = self.word(block).with_mark();
        Reply::Marked
    }

    fn into_raw(&mut self, handle: u64) -> Reply
        requires { IsSound self.old }
        ensures { step 0 self.old (Step.IntoRaw handle) ≡ (self.new, result) }
    {
        let _block = match self.block_of(HandleState::Free, handle) {
            Ok(block) => block,
            Err(fault) => return Reply::Refused(fault),
        };
        self.handles[handle as usize].state = HandleState::Raw;
        Reply::Raw
    }

    fn from_raw(&mut self, handle: u64) -> Reply
        requires { IsSound self.old }
        ensures { step 0 self.old (Step.FromRaw handle) ≡ (self.new, result) }
    {
        let _block = match self.block_of(HandleState::Raw, handle) {
            Ok(block) => block,
            Err(fault) => return Reply::Refused(fault),
        };
        self.handles[handle as usize].state = HandleState::Free;
        Reply::Unraw
    }
}

/// Returns why a step that needs a handle in one state is refused for a handle in another: the
/// table of refusals.
fn refusal(needed: HandleState, state: HandleState) -> Option<StepFault>
    ensures { result ≡ refusal_unless needed (Some state) }
{
    match (needed, state) {
        (HandleState::Free, HandleState::Free)
        | (HandleState::Raw, HandleState::Raw)
        | (HandleState::Dropping, HandleState::Dropping)
        | (HandleState::Owing, HandleState::Owing)
        | (HandleState::Gone, HandleState::Gone) => None,
        (HandleState::Free, HandleState::Raw) => Some(StepFault::IsRaw),
        (HandleState::Raw, HandleState::Free) => Some(StepFault::NotRaw),
        (HandleState::Free | HandleState::Raw, HandleState::Dropping) => Some(StepFault::InDrop),
        (HandleState::Dropping, HandleState::Free | HandleState::Raw) => Some(StepFault::NotInDrop),
        (HandleState::Owing, _) => Some(StepFault::NotOwing),
        _ => Some(StepFault::NoHandle),
    }
}

/// Returns the next state of a free handle whose drop looks at this count word, and the reply. At a
/// marked count word it ends.
fn after_begin(word: Word) -> (HandleState, Reply)
    ensures state { result.0 ≡ (if word.flag then HandleState.Gone else HandleState.Dropping) }
    ensures reply { result.1 ≡ (if word.flag then Reply.Ended else Reply.Looked) }
{
    if word.marked() {
        (HandleState::Gone, Reply::Ended)
    } else {
        (HandleState::Dropping, Reply::Looked)
    }
}

/// Returns the next state of a dropping handle that subtracts, and the reply. The handle owes its
/// block if its subtraction was the last one.
fn after_sub(last: bool) -> (HandleState, Reply)
    ensures state { result.0 ≡ (if last then HandleState.Owing else HandleState.Gone) }
    ensures reply { result.1 ≡ (if last then Reply.Owes else Reply.Left) }
{
    if last {
        (HandleState::Owing, Reply::Owes)
    } else {
        (HandleState::Gone, Reply::Left)
    }
}

/// Appends a free handle on this block to the table, and returns its number.
fn push_handle<A: Allocator>(handles: &mut Vec<HandleSummary, A>, block: u64) -> u64
    requires { vec_len handles.old < vec_capacity handles.old }
    ensures number { result ≡ length handles.old.items }
    ensures born { handles.new.items
        ≡ handles.old.items ++ record { block = block; state = HandleState.Free } ∷ [] }
{
    let number = handles.len() as u64;
    push_entry(
        handles,
        HandleSummary {
            block,
            state: HandleState::Free,
        },
    );
    number
}

/// Returns the entry of a table at a number; `None` past the end of the table.
fn entry_at<T: Copy>(table: &[T], number: u64) -> Option<T>
    ensures { result ≡ slice_get table.now number }
{
    table.get(number as usize).copied()
}

/// Returns how often the block with this number was freed; 0 past the end of the table.
#[tactic(auto, using(std::proofs::lemmas::Option::slice_get_cases, std::proofs::lemmas::Option::get_or_from_slice_get, std::proofs::lemmas::List::get_or_past))]
fn given_at(blocks: &[BlockSummary], block: u64) -> u64
    ensures { result ≡ (slice_index_or blocks.now block no_block).given }
{
    match entry_at(blocks, block) {
        None => 0,
        Some(entry) => entry.given,
    }
}

/// Appends an entry to a table that has room for it.
fn push_entry<T: Drop, A: Allocator>(table: &mut Vec<T, A>, entry: T)
    requires { vec_len table.old < vec_capacity table.old }
    ensures { table.new.items ≡ table.old.items ++ entry ∷ [] }
{
    let _ = table.push(entry);
}
