//! What was seen of a block's history.
ghost use mathlib.Core.List.{IsPrefix};
ghost use Rattle.std.specs.Prelude.{◌≡◌, ◌≤◌, List, length};
ghost use Rattle.std.specs.Coded.{coded_list};
ghost use Rattle.arcstr_count.specs.declared.steps.Step.{Step};
ghost use Rattle.arcstr_count.specs.contracts.steps.Step.{the_row as step_row};
ghost use Rattle.arcstr_block.specs.Book.{reached, BlockName, name_code};

use std::marker::{Model, PhantomData};

/// A prefix of a block's history, which stays one. A `Seen` has no bytes, can be sent and shared,
/// and its drop does nothing. Its functions are laws: they do nothing when they run.
///
/// `history` lists the steps in their order, and `block` names the block: its history, and the
/// seats of its handles.
///
/// ```
/// use std::mem::size_of_val;
/// let text = Shared::<5, _>::from_text(rt.alloc(), "aé")?;
/// let (count, seen) = text.look();
/// assert_eq!(rt; (count, size_of_val(&seen)), (Some(1), 0));
/// ```
#[derive(Drop)]
pub struct Seen {
    pub(crate) marker: PhantomData<()>,
    pub ghost block: { BlockName } by { name_code },
    pub ghost history: { List Step } by { coded_list step_row.coded },
}

impl Model for Seen {
    ghost also_owns = { λ s. reached s.block.history s.history };

    ghost also_shares = { λ s _ κ. reached s.block.history s.history };
}

impl Seen {
    /// The law that a block has one history: of two prefixes of it, the longer extends the other.
    ///
    /// ```
    /// let text = Shared::<5, _>::from_text(rt.alloc(), "aé")?;
    /// let (_, first) = text.look();
    /// let (_, second) = text.look();
    /// first.a_block_has_one_history(&second);
    /// ```
    pub fn a_block_has_one_history(&self, other: &Seen)
        ensures prefix { self.now.block ≡ other.now.block
            → length self.now.history ≤ length other.now.history
            → IsPrefix self.now.history other.now.history }
        ensures longer { self.now.block ≡ other.now.block
            → length other.now.history ≤ length self.now.history
            → IsPrefix other.now.history self.now.history }
    {}
}

unsafe impl Send for Seen {}

unsafe impl Sync for Seen {}
