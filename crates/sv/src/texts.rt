//! The text of the version.

/// The output of `version`: the program's name and version, and the toolchain that proves it. The toolchain is named
/// as `rt version` prints it.
pub const VERSION: &str = "\
sv 0.1.0
proved by rattle-kit-13f logic dac8208d650f15bf
";
