//! Explains why a message to a layer was refused. The layer doesn't exist, its target takes no
//! messages, the message has wrong words, or the block is listed already or isn't listed.
use crate::explain::counted::Counted;
use crate::explain::line::EscapedBytes;
use crate::explain::script_text::{Numbered, count_of, nth_of, number_at, word_at};
use refusals::Refusal;
use std::fmt;
use std::fmt::Write;

/// Writes why a message in a script gets this refusal.
pub(crate) fn write_message<W: Write>(
    text: &[u8],
    line: Numbered,
    refusal: Refusal,
    to: &mut W,
) -> fmt::Result {
    let block = EscapedBytes(word_at(line.text, 4).unwrap_or_default());
    match refusal {
        Refusal::AlreadyBad => writeln!(
            to,
            "  block {block} is listed already: `removebadblock {block}` takes it off the list"
        ),
        Refusal::NotBad => writeln!(to, "  block {block} isn't listed: `addbadblock` lists it"),
        _ => write_bad_message(text, line, to),
    }
}

// Writes why a layer doesn't take the message.
fn write_bad_message<W: Write>(text: &[u8], line: Numbered, to: &mut W) -> fmt::Result {
    let (disk, layers) = match word_at(line.text, 1) {
        Some(b"data") => ("data disk", b"data-layer".as_slice()),
        _ => ("log's disk", b"log-layer".as_slice()),
    };
    let wanted = number_at(line.text, 2).unwrap_or_default();
    let Some(layer) = nth_of(text, line.number, layers, wanted) else {
        let layers = Counted {
            count: count_of(text, line.number, layers),
            one: "layer",
            many: "layers",
        };
        return writeln!(
            to,
            "  the {disk} has no layer {wanted}: it has {layers}, counted from 1"
        );
    };
    let target = word_at(layer, 3).unwrap_or_default();
    if target != b"dust".as_slice() {
        let target = EscapedBytes(target);
        return writeln!(
            to,
            "  layer {wanted} of the {disk} has the target {target}: only dust layers take messages"
        );
    }
    write_words(layer, line, to)
}

// Writes which messages a dust layer takes, and how many blocks the layer has.
fn write_words<W: Write>(layer: &[u8], line: Numbered, to: &mut W) -> fmt::Result {
    if let (Some(block), Some(blocks)) = (number_at(line.text, 4), blocks_of(layer)) {
        if block >= blocks {
            return writeln!(
                to,
                "  the layer has no block {block}: it has {blocks}, counted from 0"
            );
        }
    }
    writeln!(
        to,
        "  a dust layer takes: addbadblock <block> [<count to 255>], removebadblock <block>, clearbadblocks, enable, disable"
    )
}

// Returns how many blocks a dust layer has. The last block may be shorter.
fn blocks_of(layer: &[u8]) -> Option<u64> {
    let sectors = number_at(layer, 2)?;
    let bytes = number_at(layer, 6)?;
    let size = bytes / bio::SECTOR_BYTES;
    if size == 0 {
        return None;
    }
    Some(sectors.div_ceil(size))
}
