//! Packed files: a log is often kept packed, and has to be unpacked before dmlw reads it.
use std::fmt;
use std::fmt::Write;

/// A program that packs files.
#[derive(Clone, Copy, Debug, PartialEq, Eq)]
pub(crate) enum Packer {
    Xz,
    Gzip,
    Zstd,
}

impl Packer {
    /// Returns the program that packed a file with these first bytes, if they are of a packed file.
    pub(crate) fn of(bytes: &[u8]) -> Option<Packer> {
        if bytes.starts_with(b"\xfd7zXZ\x00".as_slice()) {
            return Some(Packer::Xz);
        }
        if bytes.starts_with(b"\x1f\x8b".as_slice()) {
            return Some(Packer::Gzip);
        }
        if bytes.starts_with(b"\x28\xb5\x2f\xfd".as_slice()) {
            return Some(Packer::Zstd);
        }
        None
    }

    // Returns the name of the program.
    fn name(self) -> &'static str {
        match self {
            Packer::Xz => "xz",
            Packer::Gzip => "gzip",
            Packer::Zstd => "zstd",
        }
    }
}

/// Writes that a file is packed, and the command that unpacks it into another file.
pub(crate) fn write_packed<W: Write>(file: &str, packer: Packer, to: &mut W) -> fmt::Result {
    let name = packer.name();
    writeln!(
        to,
        "  {file} is packed by {name}: {name} -dc {file} >unpacked.img"
    )
}
