/// The version of the program and its libraries.
pub const RELEASE: &str = "1.1.0";
