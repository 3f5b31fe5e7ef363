//! Makes a block that holds texts one after another, with a separator between each two.
ghost use Rattle.std.specs.Prelude.{◌≡◌, ◌↔◌, ◌≤◌, ◌<◌, ◌+◌, ◌^◌, [], ◌++◌, length, take, SomeIff, IfOk, IfErr, IsErrOf, IsUtf8};
ghost use Rattle.std.specs.List.{join_by};
ghost use Rattle.arcstr_block.specs.Making.{IsTooLong, IsFaultOfMaking};

use crate::building::Draft;
use crate::fault::TextFault;
use crate::shared::Shared;
use arcstr_count::RC_MAX;
use std::alloc::Allocator;
use std::convert::AsStr;

impl<const LIMIT: u64, A: Allocator + Copy> Shared<LIMIT, A> {
    /// Returns the first handle on a new block with these texts, joined by the separator. The call
    /// makes one allocation, and makes a block even if nothing is joined. Errors, in this order:
    /// `Length`, for `2^63 - 25` bytes or more; `Memory`, for an allocation failure. The caller has
    /// to ensure that `len` is the length of the joined text (`joined_len`), and that `LIMIT` is at
    /// most `RC_MAX`.
    ///
    /// ```
    /// let text = Shared::<5, _>::join(rt.alloc(), &["a", "b"], ", ", 4)?;
    /// assert_eq!(rt; text.as_str(), "a, b");
    /// ```
    pub fn join<S: AsStr>(
        alloc: A,
        texts: &[S],
        separator: &str,
        len: usize,
    ) -> Result<Shared<LIMIT, A>, TextFault>
        requires limit { LIMIT ≤ RC_MAX }
        requires length { len ≡ length (join_by S.text separator.now texts.now) }
        ensures made { IfOk result (λ made. made.text ≡ join_by S.text separator.now texts.now) }
        ensures limit { IfOk result (λ made. made.limit ≡ LIMIT) }
        // Promise: The handle is the first of its block.
        ensures first { IfOk result (λ made. made.seat ≡ 0) }
        // Promise: It fails with `Length` exactly if the text is too long, and otherwise only with
        // `Memory`.
        ensures too_long { IsErrOf result TextFault.Length ↔ IsTooLong len }
        ensures refused { IfErr result (IsFaultOfMaking len) }
    {
        let mut draft = Draft::new(alloc, len)?;
        append_joined(&mut draft, texts, separator);
        Ok(draft.close())
    }
}

/// Appends these texts, joined by the separator, to an empty text.
#[tactic(auto, using(crate::proofs::Texts::joins, std::proofs::lemmas::List::take_all))]
fn append_joined<S: AsStr, A: Allocator + Copy>(draft: &mut Draft<A>, texts: &[S], separator: &str)
    requires empty { draft.old.text ≡ [] }
    requires room { length (join_by S.text separator.now texts.now) ≤ draft.old.capacity }
    ensures text { draft.new.text ≡ join_by S.text separator.now texts.now }
    ensures capacity { draft.new.capacity ≡ draft.old.capacity }
{
    for i in 0..texts.len() {
        let text = texts[i].as_str();
        draft.append(gap_before(i, separator));
        draft.append(text);
    }
}

/// Returns the length in bytes of these texts, joined by the separator; `None` if it is past
/// `usize`. The call does not allocate.
///
/// ```
/// assert_eq!(rt; joined_len(&["a", "b"], ", "), Some(4));
/// assert_eq!(rt; joined_len(&["a"], ", "), Some(1));
/// ```
#[tactic(auto, using(crate::proofs::Texts::joined_room, std::proofs::lemmas::List::take_all))]
pub fn joined_len<S: AsStr>(texts: &[S], separator: &str) -> Option<usize>
    ensures { SomeIff result (length (join_by S.text separator.now texts.now) < 2 ^ 64)
        (length (join_by S.text separator.now texts.now)) }
{
    let mut len: usize = 0;
    for i in 0..texts.len() {
        let text = texts[i].as_str();
        len = len.checked_add(gap_before(i, separator).len())?;
        len = len.checked_add(text.len())?;
    }
    Some(len)
}

/// Returns what is written before the text with this index: nothing before the first, else the
/// separator.
fn gap_before(i: usize, separator: &str) -> &str
    ensures first { i ≡ 0 → result.now ≡ [] }
    ensures later { 0 < i → result.now ≡ separator.now }
{
    if i == 0 { "" } else { separator }
}
