//! The macros of the crate. None takes an atomic step, and only `format_arcstr!` allocates.

/// Creates a literal `ArcStr` from any `&'static str`.
///
/// ```
/// let text = literal!("foo");
/// assert_eq!(rt; text.as_str(), "foo");
/// assert!(rt; ArcStr::is_static(&text));
/// ```
#[macro_export]
macro_rules! literal {
    ($text:expr $(,)?) => {
        $crate::ArcStr::from_static($text)
    };
}

/// Creates an `ArcStr` from a format string, as `format!` creates a `String`. The arguments are the
/// allocator, a semicolon, and then those of `format!`. The text is first formatted into a buffer
/// and then copied into its block; an empty result needs no block.
///
/// Errors, in this order: `Memory` if the buffer cannot be allocated; `Length` if the text has
/// `2^63 - 25` bytes or more; `Memory` if the block cannot be allocated.
///
/// ```
/// let text = format_arcstr!(rt.alloc(); "cool {}", 123)?;
/// assert_eq!(rt; text.as_str(), "cool 123");
/// assert_eq!(rt; ArcStr::strong_count(&text), Some(1));
/// ```
#[macro_export]
macro_rules! format_arcstr {
    ($alloc:expr; $($arguments:tt)+) => {{
        let alloc = $alloc;
        match format!(in alloc; $($arguments)+) {
            Ok(text) => $crate::ArcStr::from_str(alloc, text.as_str()),
            Err(std::alloc::AllocError) => Err($crate::TextFault::Memory),
        }
    }};
}

/// Creates a literal `Substr` from any `&'static str`: the slice of all of it.
///
/// ```
/// let slice = literal_substr!("foo");
/// assert_eq!(rt; slice.as_str(), "foo");
/// assert!(rt; ArcStr::is_static(slice.parent()));
/// ```
#[macro_export]
macro_rules! literal_substr {
    ($text:expr $(,)?) => {
        $crate::Substr::from_static($text)
    };
}
