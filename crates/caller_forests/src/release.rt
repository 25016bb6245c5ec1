//! The release of the libraries.

/// The release as one number: 10000 times its first number, 100 times its second, and its third. So release 1.2.3 is
/// 10203.
pub const RELEASE: u32 = 10100;
