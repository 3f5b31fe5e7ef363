//! The pointer to a block. This module has every atomic step, and every pointer through which a
//! block is read or stepped on. `word.rt` says what the number in the count word means.
//!
//! A `Pointer` is one address when it runs. Its right, seat and history are ghost, and the proof of
//! each function (`proofs/pointer/Pointer/NAME/Proof.antt`) moves them, so a body shows only the
//! machine's step. Each step gets the word offset, `offset`: how many bytes past the address the
//! count word lies. `make` begins the history with `Make`, and `back` ends it with `Back`;
//! `IntoRaw` and `FromRaw` never occur in it.
ghost use Rattle.std.specs.Prelude.{◌≡◌, ℕ, Bool, List, length, IsUtf8};
ghost use Rattle.std.specs.Coded.{coded_list};
ghost use Rattle.arcstr_count.specs.declared.steps.Step.{Step};
ghost use Rattle.arcstr_count.specs.contracts.steps.Step.{the_row as step_row};
ghost use Rattle.arcstr_count.specs.Word.{bits_of, fresh_word};
ghost use Rattle.arcstr_block.specs.Word.{IsLimit, IsCountWord, IsClone};
ghost use Rattle.arcstr_block.specs.Rights.{Right, right_code, nothing, counted, fixed, dropping, owed};
ghost use Rattle.arcstr_block.specs.Rights.{IsFree, MaySee, IsIdle, Loads, Gains, Begins, Leaves};
ghost use Rattle.arcstr_block.specs.Handle.{IsBornIn, SawBack};
ghost use Rattle.arcstr_block.specs.Memory.{Fits, word_offset};
ghost use Rattle.arcstr_block.specs.Book.{BlockName, IsLater, name_code};
ghost use Rattle.arcstr_block.specs.Ledger.{pointer_owns, pointer_shares};

use crate::block::{Sole, Tail};
use crate::seen::Seen;
use crate::word::{MARK, ONE};
use atomic_table::exchange;
use std::alloc::Allocator;
use std::marker::{Brand, Model, PhantomData};
use std::slice;
use std::sync::atomic::Ordering::SeqCst;
use std::sync::atomic::raw;

/// A pointer to a block, with a right, which `specs/Rights.antt` lists, and with a prefix of the
/// block's history. `seat` is the number of its handle in that history, and `block` names the
/// history and its seats.
pub(crate) struct Pointer<A: Allocator> {
    at: *const u8,
    marker: PhantomData<A>,
    pub ghost home: { A } by { A.code },
    pub ghost text: { List ℕ },
    pub ghost limit: { ℕ },
    pub ghost right: { Right } by { right_code },
    pub ghost seat: { ℕ },
    pub ghost block: { BlockName } by { name_code },
    pub ghost history: { List Step } by { coded_list step_row.coded },
}

impl<A: Allocator> Model for Pointer<A> {
    ghost also_owns = { λ h. pointer_owns (A.dealloc_token h.home) h.limit h.at h.text h.right h.seat h.block h.history };

    ghost also_shares = { λ h _ κ. pointer_shares (A.dealloc_token h.home) h.limit h.at h.text h.right h.seat h.block h.history κ };
}

impl<A: Allocator> Pointer<A> {
    ghost use Rattle.arcstr_block.specs.Steps.{IsSameBlock, LoadedAs, ClonedAs, LeakedAs, BegunAs, SubtractedAs};

    /// The first pointer to a block, whose count word counts only this pointer.
    pub(crate) fn make(block: Sole<A>) -> Pointer<A>
        ghost limit: { ℕ }
        requires word { block.word ≡ bits_of fresh_word }
        requires text { IsUtf8 block.text }
        requires limit { IsLimit limit }
        ensures home { result.home ≡ block.home }
        ensures text { result.text ≡ block.text }
        ensures born { IsBornIn limit result.history result.seat }
        ensures limit { result.limit ≡ limit }
        ensures right { result.right ≡ counted }
        ensures first { result.seat ≡ 0 }
    {
        let Sole { at, marker } = block;
        Pointer { at, marker }
    }

    /// The `len` bytes of the text. They lie at the address, and nothing is loaded.
    fn bytes(&self, len: usize) -> &[u8]
        requires right { MaySee self.now.right }
        requires length { len ≡ length self.now.text }
        ensures text { result.now ≡ self.now.text }
        ensures utf8 { IsUtf8 result.now }
    {
        unsafe { slice::from_raw_parts(self.at, len) }
    }

    /// The text, of `len` bytes. It stands apart from `bytes`, which alone has a whole proof by
    /// hand.
    pub(crate) fn text(&self, len: usize) -> &str
        requires right { MaySee self.now.right }
        requires length { len ≡ length self.now.text }
        ensures { result.now ≡ self.now.text }
    {
        let bytes = self.bytes(len);
        unsafe { str::from_utf8_unchecked(bytes) }
    }

    /// Loads the count word, for a clone or for a look. A clone that finds the block marked
    /// succeeds. What a look or a clone that succeeds has seen is later than `before`.
    pub(crate) fn load(&self, offset: usize, before: &Seen) -> (u64, Pointer<A>)
        ghost clones: { Bool }
        requires right { IsFree self.now.right }
        requires offset { offset ≡ word_offset (length self.now.text) }
        requires before { before.now.block ≡ self.now.block }
        ensures word { IsCountWord self.now.limit result.0 }
        ensures right { Loads clones result.0 result.1.right }
        ensures history { LoadedAs clones self.now before.now.history result.0 result.1 }
        ensures same { IsSameBlock result.1 self.now }
    {
        let at = self.at;
        let found = unsafe {
            let tail = at.add(offset) as *const Tail;
            raw::load::<Brand>(&raw const (*tail).word, SeqCst)
        };
        (
            found,
            Pointer {
                at,
                marker: PhantomData,
            },
        )
    }

    /// One compare-exchange, from `old` to its clone `new`: if it finds `old` or a marked count
    /// word, the clone succeeds. What a clone that succeeds has seen is later than `before`.
    pub(crate) fn clone_exchange(
        &self,
        offset: usize,
        old: u64,
        new: u64,
        before: &Seen,
    ) -> (u64, Pointer<A>)
        requires right { IsFree self.now.right }
        requires offset { offset ≡ word_offset (length self.now.text) }
        requires clone { IsClone self.now.limit old new }
        requires before { before.now.block ≡ self.now.block }
        ensures word { IsCountWord self.now.limit result.0 }
        ensures right { Gains old new result.0 result.1.right }
        ensures history { ClonedAs self.now before.now.history old result.0 result.1 }
        ensures same { IsSameBlock result.1 self.now }
    {
        let at = self.at;
        let found = unsafe {
            let tail = at.add(offset) as *const Tail;
            exchange::<Brand>(&raw const (*tail).word, old, new)
        };
        (
            found,
            Pointer {
                at,
                marker: PhantomData,
            },
        )
    }

    /// One fetch-or, which sets the static flag. What it has seen is later than `before`.
    pub(crate) fn leak(&self, offset: usize, before: &Seen) -> Pointer<A>
        requires right { IsFree self.now.right }
        requires offset { offset ≡ word_offset (length self.now.text) }
        requires before { before.now.block ≡ self.now.block }
        ensures right { result.right ≡ fixed }
        ensures history { LeakedAs self.now before.now.history result }
        ensures same { IsSameBlock result self.now }
    {
        let at = self.at;
        unsafe {
            let tail = at.add(offset) as *const Tail;
            raw::fetch_or::<Brand>(&raw const (*tail).word, MARK, SeqCst);
        }
        Pointer {
            at,
            marker: PhantomData,
        }
    }

    /// The look of a drop: one load. What it has seen is later than `before`.
    pub(crate) fn begin(self, offset: usize, before: &Seen) -> (u64, Pointer<A>)
        requires right { IsFree self.right }
        requires offset { offset ≡ word_offset (length self.text) }
        requires before { before.now.block ≡ self.block }
        ensures right { Begins result.0 result.1.right }
        ensures history { BegunAs self before.now.history result.0 result.1 }
        ensures same { IsSameBlock result.1 self }
    {
        let Pointer { at, marker } = self;
        let found = unsafe {
            let tail = at.add(offset) as *const Tail;
            raw::load::<Brand>(&raw const (*tail).word, SeqCst)
        };
        (found, Pointer { at, marker })
    }

    /// One fetch-sub, which lowers the count by one.
    pub(crate) fn sub(self, offset: usize) -> (u64, Pointer<A>)
        requires right { self.right ≡ dropping }
        requires offset { offset ≡ word_offset (length self.text) }
        ensures right { Leaves result.0 result.1.right }
        ensures history { SubtractedAs self result.0 result.1 }
        ensures same { IsSameBlock result.1 self }
    {
        let Pointer { at, marker } = self;
        let found = unsafe {
            let tail = at.add(offset) as *const Tail;
            raw::fetch_sub::<Brand>(&raw const (*tail).word, ONE, SeqCst)
        };
        (found, Pointer { at, marker })
    }

    /// Another pointer to a permanent block. No atomic step.
    pub(crate) fn again(&self) -> Pointer<A>
        requires { self.now.right ≡ fixed }
        ensures right { result.right ≡ fixed }
        ensures history { result.history ≡ self.now.history }
        ensures same { IsSameBlock result self.now }
    {
        let at = self.at;
        Pointer {
            at,
            marker: PhantomData,
        }
    }

    /// The block, the length of its text and the history of the block, which ends here, for whoever
    /// subtracted last and frees it.
    pub(crate) fn back(self, offset: usize) -> (Sole<A>, usize, Seen)
        requires right { self.right ≡ owed }
        requires offset { offset ≡ word_offset (length self.text) }
        ensures home { result.0.home ≡ self.home }
        ensures text { result.0.text ≡ self.text }
        ensures length { result.1 ≡ length self.text }
        ensures fits { Fits result.1 }
        ensures history { SawBack self.limit result.2.history self.seat }
        ensures after { IsLater self.history result.2.history }
        ensures block { result.2.block ≡ self.block }
    {
        let Pointer { at, marker } = self;
        let len = unsafe {
            let tail = at.add(offset) as *const Tail;
            (*tail).length
        };
        let at = at.cast_mut();
        let seen = Seen {
            marker: PhantomData,
        };
        (Sole { at, marker }, len, seen)
    }

    /// What the pointer has seen of the block's history.
    pub(crate) fn seen(&self) -> Seen
        ensures history { result.history ≡ self.now.history }
        ensures block { result.block ≡ self.now.block }
    {
        Seen {
            marker: PhantomData,
        }
    }

    /// Drops a pointer without a seat. The block's history stays as it is, and no clause can name
    /// the pointer any more.
    pub(crate) fn forget(self)
        requires { IsIdle self.right }
    {
        let Pointer { at: _, marker: _ } = self;
    }
}

// The content is read, and the memory is taken, in whichever thread the pointer is.
unsafe impl<A: Allocator + Send + Sync> Send for Pointer<A> {}

unsafe impl<A: Allocator + Send + Sync> Sync for Pointer<A> {}
