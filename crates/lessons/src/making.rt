//! Texts that macros and a builder make, each with the text that it must have.
ghost use Rattle.std.specs.Prelude.{◌≡◌, ◌++◌, IfOk, IfSome, codes};
ghost use Rattle.std.specs.Fmt.{decimal};
ghost use Rattle.arcstr.specs.Making.{AnswersPrinted};
ghost use Rattle.arcstr.specs.Substr.{whole_of};
ghost use Rattle.arcstr.specs.TextView.{literal_of};

use arcstr::{ArcStr, ArcStrBuilder, Substr, TextFault, format_arcstr, literal, literal_substr};
use std::alloc::Global;
use std::fmt;

/// Makes a text of the program by `literal!`.
///
/// ```
/// assert!(rt; ArcStr::is_static(&literal_text("foo")));
/// ```
pub fn literal_text(text: &'static str) -> ArcStr
    ensures { result ≡ literal_of text.now }
{
    literal!(text)
}

/// Makes a slice of a text of the program by `literal_substr!`.
///
/// ```
/// assert_eq!(rt; literal_slice("foo").range(), 0..3);
/// ```
pub fn literal_slice(text: &'static str) -> Substr
    ensures { result ≡ whole_of (literal_of text.now) }
{
    literal_substr!(text)
}

/// Formats any value whose output a contract states.
///
/// ```
/// assert_eq!(rt; printed(rt.alloc(), &literal_text("foo"))?.as_str(), "foo");
/// ```
pub fn printed<T: fmt::Display>(alloc: Global, value: &T) -> Result<ArcStr, TextFault>
    ensures { IfSome (T.output value.now) (λ text. AnswersPrinted text result) }
{
    format_arcstr!(alloc; "{value}")
}

/// Formats a number after a text.
///
/// ```
/// assert_eq!(rt; printed_number(rt.alloc(), 123)?.as_str(), "cool 123");
/// ```
pub fn printed_number(alloc: Global, number: u64) -> Result<ArcStr, TextFault>
    ensures { AnswersPrinted (codes "cool " ++ decimal number) result }
{
    format_arcstr!(alloc; "cool {}", number)
}

/// Renders a line by `write!` alone.
///
/// ```
/// assert_eq!(rt; rendered(rt.alloc(), "foo", 12)?.as_str(), "foo: 12");
/// ```
pub fn rendered(alloc: Global, name: &str, number: u64) -> Result<ArcStr, TextFault>
    ensures { IfOk result (λ made. made.text ≡ name.now ++ codes ": " ++ decimal number) }
{
    let mut builder = ArcStrBuilder::new(alloc);
    write!(builder, "{name}: {number}")?;
    builder.finish()
}

/// Joins two texts in a builder.
///
/// ```
/// assert_eq!(rt; joined(rt.alloc(), "foo", "bar")?.as_str(), "foobar");
/// ```
pub fn joined(alloc: Global, first: &str, second: &str) -> Result<ArcStr, TextFault>
    ensures { IfOk result (λ made. made.text ≡ first.now ++ second.now) }
{
    let mut builder = ArcStrBuilder::new(alloc);
    builder.push_str(first)?;
    builder.push_str(second)?;
    builder.finish()
}
