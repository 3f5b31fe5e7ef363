//! Reference-counted immutable texts that threads share: literals, counted blocks and permanent
//! blocks.
#![tactic(auto)]

pub use arc_str::{ArcStr, RawArcStr};
pub use arcstr_block as block;
pub use arcstr_block::{End, Seen, TextFault};
pub use arcstr_count as count;
pub use arcstr_range::range::{RangeFault, StrRange};
pub use arcstr_range::view::StrView;
pub use arcstr_range::{range, view};
pub use builder::ArcStrBuilder;
pub use json::JsonFault;
pub use line_and_column::LineAndColumn;
pub use reading::ReadFault;
pub use static_str::StaticStr;
pub use substr::Substr;

mod arc_str;
mod builder;
mod collecting;
mod cow;
mod history;
mod json;
mod keys;
mod line_and_column;
mod macros;
mod making;
mod order;
mod parts;
mod pattern;
mod printing;
mod reading;
mod serde_impls;
mod slicing;
mod splitting;
mod static_str;
mod substr;
mod text;
mod trimming;
mod values;
