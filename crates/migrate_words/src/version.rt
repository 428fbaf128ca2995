/// The version of the program, also that of its manual page and of its package.
pub const VERSION: &str = "1.0.0";
