//! Why a line of a text is faulty.

pub use ios_lines::kind::ReadKind;
