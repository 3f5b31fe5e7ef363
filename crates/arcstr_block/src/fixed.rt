//! Permanent blocks: blocks that are known to be marked static. No call here allocates, waits or
//! takes an atomic step.
ghost use Rattle.std.specs.Prelude.{◌≡◌, length};
ghost use Rattle.arcstr_block.specs.Rights.{fixed};
ghost use Rattle.arcstr_block.specs.Handle.{Kept, IsMarkedIn};

use crate::pointer::Pointer;
use crate::seen::Seen;
use std::alloc::Allocator;
use std::marker::Model;

/// A permanent block. It is marked static, and its text can be read as long as its allocator lasts.
/// Contracts see the bytes of its text, its block's name, the limit on its count, and the prefix of
/// its history in which it was marked.
///
/// It has 16 bytes where its allocator has none, and can be sent and shared where its allocator
/// can. Its drop does nothing: the block stays.
///
/// ```
/// use std::alloc::Global;
/// let text = Shared::<5, _>::from_text(rt.alloc(), "aé")?;
/// let fixed: Fixed<Global> = text.mark();
/// drop(text);
/// assert_eq!(rt; fixed.as_str(), "aé");
/// ```
pub struct Fixed<A: Allocator + Copy> {
    pub(crate) pointer: Pointer<A>,
    /// The length of the text in bytes, so that reading the text takes no load from the block.
    pub(crate) len: usize,
    pub(crate) alloc: A,
    ghost right: { pointer.right ≡ fixed },
    ghost measured: { len ≡ length pointer.text },
    ghost marked: { IsMarkedIn pointer.limit pointer.history },
}

impl<A: Allocator + Copy> Model for Fixed<A> {
    ghost Value = { Kept };

    ghost view = { λ f. record { text = f.pointer.text; block = f.pointer.block; limit = f.pointer.limit; history = f.pointer.history } };
}

impl<A: Allocator + Copy> Fixed<A> {
    /// Returns the text. Loads nothing from the block.
    ///
    /// ```
    /// let fixed = Shared::<5, _>::from_text(rt.alloc(), "aé")?.mark();
    /// assert_eq!(rt; fixed.as_str(), "aé");
    /// ```
    pub fn as_str(&self) -> &str
        ensures { result.now ≡ self.now.text }
    {
        self.pointer.text(self.len)
    }

    /// Returns the length of the text, in bytes.
    ///
    /// ```
    /// let fixed = Shared::<5, _>::from_text(rt.alloc(), "aé")?.mark();
    /// assert_eq!(rt; fixed.len(), 3);
    /// ```
    pub fn len(&self) -> usize
        ensures { result ≡ length self.now.text }
    {
        self.len
    }

    /// Returns another `Fixed` for the same block.
    ///
    /// ```
    /// let fixed = Shared::<5, _>::from_text(rt.alloc(), "aé")?.mark();
    /// let again = fixed.again();
    /// drop(fixed);
    /// assert_eq!(rt; again.as_str(), "aé");
    /// ```
    pub fn again(&self) -> Fixed<A>
        ensures { result ≡ self.now }
    {
        Fixed {
            pointer: self.pointer.again(),
            len: self.len,
            alloc: self.alloc,
        }
    }

    /// Returns the history that was seen when the block was marked or found marked; it includes the
    /// mark.
    ///
    /// ```
    /// let text = Shared::<5, _>::from_text(rt.alloc(), "aé")?;
    /// let fixed = text.mark();
    /// let (_, later) = text.look();
    /// fixed.seen().a_block_has_one_history(&later);
    /// ```
    pub fn seen(&self) -> Seen
        ensures block { result.block ≡ self.now.block }
        ensures history { result.history ≡ self.now.history }
        ensures marked { IsMarkedIn self.now.limit result.history }
    {
        self.pointer.seen()
    }
}

impl<A: Allocator + Copy> Drop for Fixed<A> {
    fn drop(self) {
        let Fixed {
            pointer,
            len: _,
            alloc: _,
        } = self;
        pointer.forget();
    }
}
