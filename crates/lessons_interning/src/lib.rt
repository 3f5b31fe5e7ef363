//! Uses of `arcintern`, as a caller writes them. Each has a contract of its own, and none has a
//! proof file.
#![tactic(auto)]

ghost use Rattle.std.specs.Prelude.{[], ◌≡◌, ◌≢◌, IfOk, OnOk, length, slice_get};
ghost use Rattle.arcstr_block.specs.declared.ending.End.TheVariants.{Freed};
ghost use Rattle.arcintern.specs.Texts.{HasWord, IsWordAt};

use arcintern::{InternFault, Interner, Symbol};
use arcstr::ArcStr;
use arcstr::block::End;
use std::sync::Wait;

/// Interns both names of a link. Each symbol then has its name.
///
/// ```
/// let mut names = arcintern::Interner::new(rt.alloc());
/// let (from, to) = link(&mut names, "a", "b")?;
/// assert_eq!(rt; (names[from].as_str(), names[to].as_str()), ("a", "b"));
/// ```
pub fn link(names: &mut Interner, from: &str, to: &str) -> Result<(Symbol, Symbol), InternFault>
    ensures from { IfOk result (λ link. IsWordAt names.new link.0 from.now) }
    ensures to { IfOk result (λ link. IsWordAt names.new link.1 to.now) }
{
    let from = names.intern(from)?;
    let to = names.intern(to)?;
    Ok((from, to))
}

/// Interns the name. A new name becomes a clone of it, in the same block.
///
/// ```
/// let mut names = arcintern::Interner::new(rt.alloc());
/// let name = ArcStr::from_str(rt.alloc(), "foo")?;
/// let symbol = register(&rt, &mut names, &name)?;
/// assert_eq!(rt; names[symbol].as_str(), "foo");
/// assert_eq!(rt; ArcStr::strong_count(&name), Some(2));
/// ```
pub fn register(rt: &impl Wait, names: &mut Interner, name: &ArcStr) -> Result<Symbol, InternFault>
    ensures shared { (¬ HasWord names.old name.now.text)
        → OnOk result (slice_get names.new (length names.old) ≡ Some name.now) }
{
    names.intern_arc(rt, name)
}

/// Interns a text as the first one of an interner, and drops the handle. The interner keeps a clone
/// of it.
///
/// ```
/// let mut interner = arcintern::Interner::new(rt.alloc());
/// let text = ArcStr::from_str(rt.alloc(), "foo")?;
/// assert_eq!(rt; intern_and_end(&rt, &mut interner, text)?, End::Left);
/// ```
pub fn intern_and_end(
    rt: &impl Wait,
    interner: &mut Interner,
    text: ArcStr,
) -> Result<End, InternFault>
    requires new { interner.old ≡ [] }
    // Promise: The drop does not free the block.
    ensures stays { IfOk result (λ end. end ≢ Freed) }
{
    let symbol = interner.intern_arc(rt, &text)?;
    let (end, seen) = text.end();
    if let Some(held) = interner.resolve(symbol) {
        held.lives(&seen);
    }
    Ok(end)
}
