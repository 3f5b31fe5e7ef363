//! Uses of `arcstr`, as a caller writes them.
//! Each has a contract of its own, and none has a proof file. The first is the one to read.
ghost use Rattle.std.specs.Prelude.{◌≡◌, ◌↔◌, Contains, IfSome, IsSome};
ghost use Rattle.std.specs.Str.{chars, trim};
ghost use Rattle.arcstr.specs.Splitting.{AreAround};
ghost use Rattle.arcstr.specs.Substr.{SubstrView, slice_of, text_of};

use arcstr::{ArcStr, Substr};
use std::sync::Wait;

/// The character between a key and its value.
const EQUALS: char = '=';

/// Splits a line at its first `=`. The key and the value are slices of the line, without the white
/// space around them. Returns `None` exactly if the line has no `=`.
///
/// ```
/// let line = ArcStr::from_static("name = value");
/// let (key, value) = key_and_value(&rt, &line).ok_or("no `=`")?;
/// assert_eq!(rt; (key.as_str(), value.as_str()), ("name", "value"));
/// ```
pub fn key_and_value(rt: &impl Wait, line: &ArcStr) -> Option<(Substr, Substr)>
    ensures found { IsSome result ↔ Contains (chars line.now.text) EQUALS }
    ensures kept { IfSome result (λ pair. (pair.0.parent ≡ line.now) × (pair.1.parent ≡ line.now)) }
    ensures parts { IfSome result (λ pair. (around : SubstrView × SubstrView)
        × AreAround line.now.text (slice_of line.now) EQUALS around
        × (text_of pair.0 ≡ trim (text_of around.0)) × (text_of pair.1 ≡ trim (text_of around.1))) }
{
    let (key, value) = line.substr_split_once(rt, EQUALS)?;
    Some((key.substr_trim(rt), value.substr_trim(rt)))
}

// ---- more uses
ghost use Rattle.std.specs.Prelude.{◌==◌, ◌≤◌, All, Some, bytes_eq, codes, length, map, IfOk, OnOk};
ghost use Rattle.std.specs.HashMap.{Updates, get, get_by};
ghost use Rattle.std.specs.List.{join_by};
ghost use Rattle.arcstr_range.specs.Pieces.{texts_between};
ghost use Rattle.arcstr.specs.Slicing.{LiesBetween};
ghost use Rattle.arcstr.specs.TextView.{TextView};

use arcstr::{RangeFault, TextFault};
use std::alloc::{AllocError, AllocFailed, Global};
use std::collections::HashMap;

/// The character between two fields of a row.
const COMMA: char = ',';

/// Returns the fields of a row as slices of it, with no copy of their texts.
///
/// ```
/// let row = ArcStr::from_static("a,,b");
/// let fields = fields(&rt, rt.alloc(), &row)?;
/// assert_eq!(rt; fields.len(), 3);
/// assert_eq!(rt; fields[2].as_str(), "b");
/// ```
pub fn fields(rt: &impl Wait, alloc: Global, row: &ArcStr) -> Result<Vec<Substr>, AllocError>
    ensures { IfOk result (λ fields. map text_of fields.items
        ≡ texts_between (λ c. c == COMMA) row.now.text) }
{
    row.substr_split(rt, alloc, COMMA)
}

/// Returns the items of a list as slices of it. With `", "` between them they are the list, so none
/// is lost.
///
/// ```
/// let list = ArcStr::from_static("a, b c");
/// let items = items(&rt, rt.alloc(), &list)?;
/// assert_eq!(rt; items.len(), 2);
/// assert_eq!(rt; items[1].as_str(), "b c");
/// ```
pub fn items(rt: &impl Wait, alloc: Global, list: &ArcStr) -> Result<Vec<Substr>, AllocError>
    ensures joined { IfOk result (λ items.
        join_by text_of (codes ", ") items.items ≡ list.now.text) }
    ensures within { IfOk result (λ items. All (LiesBetween 0 (length list.now.text)) items.items) }
{
    list.substr_split(rt, alloc, ", ")
}

/// Splits a template around its first hole, `{{name}}`: what is before it, the name without the
/// white space around it, and what is after it. The three lie in order in the template.
///
/// ```
/// let template = Substr::from_static("Hello {{ name }}!");
/// let (before, name, after) = hole(&rt, &template).ok_or("no hole")?;
/// assert_eq!(rt; (before.as_str(), name.as_str(), after.as_str()), ("Hello ", "name", "!"));
/// ```
pub fn hole(rt: &impl Wait, template: &Substr) -> Option<(Substr, Substr, Substr)>
    ensures starts { IfSome result (λ parts. parts.0.start ≡ template.now.start) }
    ensures before { IfSome result (λ parts. parts.0.end ≤ parts.1.start) }
    ensures behind { IfSome result (λ parts. parts.1.end ≤ parts.2.start) }
    ensures ends { IfSome result (λ parts. parts.2.end ≡ template.now.end) }
{
    let (before, rest) = template.substr_split_once(rt, "{{")?;
    let (name, after) = rest.substr_split_once(rt, "}}")?;
    Some((before, name.substr_trim(rt), after))
}

/// Returns the line without the white space around it, or `None` if nothing else is in it. A view
/// finds it, and the slice is made at the end.
///
/// ```
/// let line = Substr::from_static("  a b ");
/// let content = content_if_any(&rt, &line).ok_or("nothing")?;
/// assert_eq!(rt; (content.as_str(), content.range()), ("a b", 2..5));
/// ```
pub fn content_if_any(rt: &impl Wait, line: &Substr) -> Option<Substr>
    ensures text { IfSome result (λ content. text_of content ≡ trim (text_of line.now)) }
    ensures within { IfSome result (LiesBetween line.now.start line.now.end) }
{
    let view = line.view().trim();
    if view.text().is_empty() {
        return None;
    }
    Some(line.substr_from(rt, view))
}

/// A message: its topic is a text that many messages share, and its payload a slice of the packet
/// that brought it.
///
/// ```
/// let packet = ArcStr::from_str(rt.alloc(), "01 ready")?;
/// let message = Message::read(&rt, &ArcStr::from_static("state"), &packet, 3)?;
/// assert_eq!(rt; message.payload.as_str(), "ready");
/// ```
#[derive(Drop)]
pub struct Message {
    pub topic: ArcStr,
    pub payload: Substr,
}

impl Message {
    /// Reads the message of a packet, whose payload starts behind a head of this many bytes. Copies
    /// neither text.
    ///
    /// ```
    /// let packet = ArcStr::from_static("01 ready");
    /// let fault = Message::read(&rt, &ArcStr::new(), &packet, 9).err();
    /// assert_eq!(rt; fault, Some(arcstr::RangeFault::OutOfOrder));
    /// ```
    pub fn read(
        rt: &impl Wait,
        topic: &ArcStr,
        packet: &ArcStr,
        head: usize,
    ) -> Result<Message, RangeFault>
        ensures topic { IfOk result (λ message. message.topic ≡ topic.now) }
        ensures payload { IfOk result
            (λ message. message.payload ≡ slice_of packet.now head (length packet.now.text)) }
    {
        let payload = packet.substr(rt, head..)?;
        Ok(Message {
            topic: topic.clone(rt),
            payload,
        })
    }

    /// Copies the payload into a block of its own, so that the message does not keep the packet
    /// alive.
    ///
    /// ```
    /// let packet = ArcStr::from_str(rt.alloc(), "01 ready")?;
    /// let message = Message::read(&rt, &ArcStr::new(), &packet, 3)?.without_packet(rt.alloc())?;
    /// assert_eq!(rt; message.payload.as_str(), "ready");
    /// assert_eq!(rt; ArcStr::strong_count(&packet), Some(1));
    /// ```
    pub fn without_packet(self, alloc: Global) -> Result<Message, TextFault>
        ensures topic { IfOk result (λ message. message.topic ≡ self.topic) }
        ensures payload { IfOk result (λ message. text_of message.payload ≡ text_of self.payload) }
    {
        let payload = self.payload.to_arc_str(alloc)?;
        Ok(Message {
            topic: self.topic,
            payload: Substr::full(payload),
        })
    }
}

/// Sets a value. A look-up then finds it, and the values of other keys stay as they are.
///
/// ```
/// let mut settings = std::collections::HashMap::new(rt.alloc());
/// set(&mut settings, ArcStr::from_static("width"), 80)?;
/// assert_eq!(rt; value_of(&settings, "width"), Some(80));
/// ```
pub fn set(
    settings: &mut HashMap<ArcStr, u64>,
    key: ArcStr,
    value: u64,
) -> Result<(), AllocFailed<(ArcStr, u64)>>
    ensures found { OnOk result (get
        (λ (one : TextView) (other : TextView). bytes_eq one.text other.text) settings.new key
        ≡ Some value) }
    ensures others { OnOk result (Updates
        (λ (one : TextView) (other : TextView). bytes_eq one.text other.text)
        settings.old settings.new key (Some value)) }
{
    settings.insert(key, value)?;
    Ok(())
}

/// Returns the value of a key, which a `&str` finds with no text made for it.
///
/// ```
/// let settings = std::collections::HashMap::new(rt.alloc());
/// assert_eq!(rt; value_of(&settings, "width"), None);
/// ```
pub fn value_of(settings: &HashMap<ArcStr, u64>, key: &str) -> Option<u64>
    ensures { result ≡ get_by (λ (text : TextView). bytes_eq key.now text.text) settings.now }
{
    settings.get(key).copied()
}

// ---- which texts share a block
ghost use Rattle.std.specs.Prelude.{◌≢◌};
ghost use Rattle.arcstr.specs.TextView.{IsStatic, block_of};

use arcstr::block::Shared;

/// Returns the text and a clone of it. Both lie in one block.
///
/// ```
/// let (text, other) = with_clone(&rt, ArcStr::from_str(rt.alloc(), "foo")?);
/// assert_eq!(rt; (text.as_str(), other.as_str()), ("foo", "foo"));
/// assert_eq!(rt; ArcStr::strong_count(&text), Some(2));
/// ```
pub fn with_clone(rt: &impl Wait, text: ArcStr) -> (ArcStr, ArcStr)
    ensures same { result.0 ≡ text }
    ensures shared { block_of result.1.kind ≡ block_of text.kind }
{
    let other = text.clone(rt);
    (text, other)
}

/// Returns the payload of a packet behind a head of this many bytes, without the white space
/// around it. A slice of a slice lies in the block of the packet.
///
/// ```
/// let packet = ArcStr::from_str(rt.alloc(), "01  ready ")?;
/// let payload = payload(&rt, &packet, 2)?;
/// assert_eq!(rt; payload.as_str(), "ready");
/// assert_eq!(rt; ArcStr::strong_count(&packet), Some(2));
/// ```
pub fn payload(rt: &impl Wait, packet: &ArcStr, head: usize) -> Result<Substr, RangeFault>
    ensures shared { IfOk result (λ slice. block_of slice.parent.kind ≡ block_of packet.now.kind) }
{
    Ok(packet.substr(rt, head..)?.substr_trim(rt))
}

/// Makes the text permanent, and returns another handle on it, which lies in the same block.
///
/// ```
/// let text = ArcStr::from_str(rt.alloc(), "foo")?;
/// let kept = permanent(&text);
/// drop(text);
/// assert_eq!(rt; kept.as_str(), "foo");
/// assert!(rt; ArcStr::is_static(&kept));
/// ```
pub fn permanent(text: &ArcStr) -> ArcStr
    ensures text { result.text ≡ text.now.text }
    ensures shared { block_of result.kind ≡ block_of text.now.kind }
    ensures permanent { IsStatic result.kind }
{
    text.leak().to_arc_str()
}

/// Makes two copies of a text, which lie in two blocks. The law of two handles says so, since
/// each is the first handle on its block.
///
/// ```
/// let (one, other) = two_copies(rt.alloc(), "foo")?;
/// assert_eq!(rt; (one.as_str(), other.as_str()), ("foo", "foo"));
/// assert_eq!(rt; ArcStr::strong_count(&one), Some(1));
/// ```
pub fn two_copies(alloc: Global, text: &str) -> Result<(ArcStr, ArcStr), TextFault>
    ensures texts { IfOk result (λ copies. (copies.0.text ≡ text.now)
        × (copies.1.text ≡ text.now)) }
    ensures apart { IfOk result (λ copies. block_of copies.0.kind ≢ block_of copies.1.kind) }
{
    let one = Shared::from_text(alloc, text)?;
    let other = Shared::from_text(alloc, text)?;
    let (one, other) = one.two_handles_have_two_seats(other);
    Ok((ArcStr::from_shared(one), ArcStr::from_shared(other)))
}
