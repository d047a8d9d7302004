// Text written into a slice that the caller lends.
mod bytes;
mod decimal;

pub use crate::put::bytes::{put_byte, put_bytes, put_tabs};
pub use crate::put::decimal::{put_decimal, put_integer};
