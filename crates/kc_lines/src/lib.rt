//! Lines of numbers and names, and how they go to a sink.
//!
//! A line is a list of [`Field`](field::Field)s. In one [`Format`](format::Format) what they have stands with tabs between, in the other
//! it is a JSON object with a member for each, where a name is a string (`specs/Json`). [`put_line`](lines::put_line) puts it behind a
//! [`Page`](page::Page), which gathers bytes and writes them in pieces. No call after `Page::new` takes memory.
//!
//! Promised: what was taken by the sink and what is on the page are together just what was put, in order; where a write failed, what was
//! taken is a prefix of it (`specs/Pages.antt`). `specs/Lines.antt` says what the bytes of a line are. [`hex_digit`](hex::hex_digit) gives a
//! digit of base 16. The crate stands on `kc_io`, and on `itoa` for decimal digits.
#![tactic(auto)]

pub mod field;
pub mod format;
pub mod hex;
mod json;
pub mod lines;
pub mod page;
pub mod value;
