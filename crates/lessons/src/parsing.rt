//! Parsers as a caller writes them: a loop that collects slices, and views that become slices at
//! the end. Each loop has its invariant in a proof file, and `entries` one goal that a lemma
//! answers.
ghost use Rattle.std.specs.Prelude.{◌≡◌, ◌≢◌, [], IfOk, IfSome, codes, length};
ghost use Rattle.std.specs.List.{join_by};
ghost use Rattle.arcstr_range.specs.View.{IsFoundAt};
ghost use Rattle.arcstr.specs.Slicing.{LiesBetween};
ghost use Rattle.arcstr.specs.Substr.{text_of};

use arcstr::{ArcStr, StrView, Substr};
use std::alloc::{AllocError, Global};
use std::sync::Wait;

/// Returns the entries of a list as slices of it. With `"; "` between them they are the list, so
/// none is lost.
///
/// ```
/// let list = Substr::from_static("a=1; b; c");
/// let entries = entries(&rt, rt.alloc(), &list)?;
/// assert_eq!(rt; entries.len(), 3);
/// assert_eq!(rt; (entries[2].as_str(), entries[2].range()), ("c", 8..9));
/// ```
pub fn entries(rt: &impl Wait, alloc: Global, list: &Substr) -> Result<Vec<Substr>, AllocError>
    ensures joined { IfOk result (λ entries.
        join_by text_of (codes "; ") entries.items ≡ text_of list.now) }
{
    let mut entries = Vec::new(alloc);
    let mut rest = list.clone(rt);
    while let Some((entry, behind)) = rest.substr_split_once(rt, "; ") {
        entries.push(entry)?;
        rest = behind;
    }
    entries.push(rest)?;
    Ok(entries)
}

/// The head of a request: slices of the text that it was read from.
///
/// ```
/// let head = ArcStr::from_static("GET /a HTTP/1.1\r\nHost: b\r\n");
/// let request = Request::read(&rt, &head).ok_or("no request")?;
/// assert_eq!(rt; request.method.as_str(), "GET");
/// ```
#[derive(Drop)]
pub struct Request {
    pub method: Substr,
    pub target: Substr,
    pub host: Option<Substr>,
}

impl Request {
    /// Reads the head of a request. Views find the parts, and the slices are made at the end, so a
    /// head that is refused clones no handle. Returns `None` if the first line has no space, or if
    /// the method is empty.
    ///
    /// The contract says that the parts are slices of the head. The example tests which slices.
    ///
    /// ```
    /// let head = ArcStr::from_static("GET /a HTTP/1.1\r\nAccept: text\r\nHost: b\r\n");
    /// let request = Request::read(&rt, &head).ok_or("no request")?;
    /// assert_eq!(rt; (request.target.as_str(), request.target.range()), ("/a", 4..6));
    /// let host = request.host.ok_or("no host")?;
    /// assert_eq!(rt; (host.as_str(), host.range()), ("b", 37..38));
    /// ```
    pub fn read(rt: &impl Wait, head: &ArcStr) -> Option<Request>
        ensures kept { IfSome result (λ request. request.method.parent ≡ head.now) }
        ensures own_target { IfSome result (λ request.
            text_of request.target ≢ [] → request.target.parent ≡ head.now) }
        ensures starts { IfSome result (λ request. request.method.start ≡ 0) }
        ensures method { IfSome result (λ request.
            LiesBetween 0 (length head.now.text) request.method) }
        ensures target { IfSome result (λ request.
            LiesBetween 0 (length head.now.text) request.target) }
        ensures host { IfSome result (λ request.
            IfSome request.host (LiesBetween 0 (length head.now.text))) }
    {
        let (line, _) = head.view().split_once("\r\n")?;
        let (method, rest) = line.split_once(' ')?;
        let target = match rest.rsplit_once(' ') {
            Some((target, version)) if version.text() == "HTTP/1.1" => target,
            _ => rest,
        };
        let host = field(head, "Host");
        if method.text().is_empty() {
            return None;
        }
        Some(Request {
            method: head.substr_from(rt, method),
            target: head.substr_from(rt, target),
            host: host.map(|value| head.substr_from(rt, value)),
        })
    }
}

/// Returns the value of the first field with the name, without the white space around it. It is a
/// view of the head.
///
/// ```
/// let head = ArcStr::from_static("GET /a\r\nHost: b\r\n");
/// let host = field(&head, "Host").ok_or("no host")?;
/// assert_eq!(rt; (host.text(), host.range()), ("b", 14..15));
/// ```
pub fn field<'a>(head: &'a ArcStr, name: &str) -> Option<StrView<'a>>
    ensures found { IfSome result (λ value. IsFoundAt head.now.text value.text value.place) }
{
    for line in head.view().lines() {
        let Some((own, value)) = line.split_once(':') else {
            continue;
        };
        if own.text() == name {
            return Some(value.trim());
        }
    }
    None
}
