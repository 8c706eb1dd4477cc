//! `LayerSpec`: the layer that a table line asks for. `parse_line` parses a line, `push_line` prints
//! a layer. The words, ranges and text of each target are here. Scripts keep the `LayerSpec`s of
//! their disks.
ghost use Rattle.std.specs.Prelude.{◌≡◌, ◌<◌, ◌^◌, ◌++◌, ◌∷◌, [], decimal, nat_eq, IfOk, OnOk, ℕ};
ghost use Rattle.std.specs.Prelude.{Some, false};
ghost use Rattle.std.specs.List.{list_all, list_any};
ghost use Rattle.refusals.specs.Words.{words_of};
ghost use Rattle.layer_table.specs.declared.layer_spec.BadValue.TheVariants.{NoNumber};
ghost use Rattle.layer_table.specs.TableLines.{word_in, line_answer, named_target, offset_in, row};
ghost use Rattle.layer_table.specs.TableLines.{number_in, has_one_place, is_same_place, later_delay};
ghost use Rattle.layer_table.specs.TableLines.{feature_in, delay_in, feature_named, has_number};
ghost use Rattle.layer_table.specs.TableLines.{are_delays, is_block_size, is_cycle, IsLayerSpec};
ghost use Rattle.layer_table.specs.TableLines.{is_in_range as is_within};
ghost use Rattle.layer_table.specs.TableLines.{behind_spaces, feature_words, later_sets, layer_text};
ghost use Rattle.layer_table.specs.TableLines.{set_words, target_words};

use crate::table_error::TableError;
use bio::MAX_DEVICE_SECTORS;
use fault_layers::{Feature, Target};
use refusals::{count_words, number_of, push_number, word_at};
use std::alloc::AllocError;

/// The most seconds that a flakey device is up and down, together.
const MAX_CYCLE_SECONDS: u64 = 4_294_967_295;

/// The longest delay, in milliseconds.
const MAX_DELAY: u64 = 4_294_967_295;

/// The fewest bytes of a dust device's block.
const MIN_BLOCK_BYTES: u64 = 512;

/// The most bytes of a dust device's block.
const MAX_BLOCK_BYTES: u64 = 1_073_741_824;

/// The layer that a table line asks for.
#[derive(Clone, Copy, Debug, PartialEq, Eq)]
pub struct LayerSpec {
    /// Its number of sectors, of 512 bytes each, 1 to 1,048,576.
    pub length: u64,
    /// The sector of the lower device that is the layer's sector 0. It is 0 for an error target.
    pub offset: u64,
    /// What the layer does.
    pub target: Target,
}

/// Which value of a line that `parse_line` refuses is wrong, with its limits.
#[derive(Clone, Copy, Debug)]
pub enum BadValue {
    /// The word at this place, counted from 0, isn't a number.
    NoNumber(usize),
    /// The start isn't 0.
    Start(u64),
    /// The length isn't 1 to `most` sectors.
    Length { length: u64, most: u64 },
    /// The seconds up and down are together not 1 to `most`.
    Cycle { most: u64 },
    /// The block's size isn't a power of two from `least` to `most` bytes.
    Block { bytes: u64, least: u64, most: u64 },
    /// A delay is above `most` milliseconds, or the groups name different devices or offsets.
    Delay { most: u64 },
}

/// Returns which value of a line is wrong, for a message to a person, if `parse_line` refuses the
/// line as `BadNumber` or `OutOfRange`. The place of a value is that of `parse_line`, so a message
/// and a refusal can't differ.
pub fn bad_value(line: &[u8]) -> Option<BadValue>
    ensures no_number { (place : ℕ) → result ≡ Some (NoNumber place)
        → has_number (words_of line.now) place ≡ false }
{
    let name = TargetName::of_word(word_in(line, 2))?;
    for place in name.number_places(count_words(line)) {
        if !has_number(line, *place) {
            return Some(BadValue::NoNumber(*place));
        }
    }
    let start = number_in(line, 0);
    if start != 0 {
        return Some(BadValue::Start(start));
    }
    let length = number_in(line, 1);
    if length == 0 || length > MAX_DEVICE_SECTORS {
        let most = MAX_DEVICE_SECTORS;
        return Some(BadValue::Length { length, most });
    }
    bad_target_value(line, name)
}

// Returns the limits of the target's own values, if it has some.
fn bad_target_value(line: &[u8], name: TargetName) -> Option<BadValue>
    ensures no_number { (place : ℕ) → result ≡ Some (NoNumber place) → ⊥ }
{
    match name {
        TargetName::Flakey => Some(BadValue::Cycle {
            most: MAX_CYCLE_SECONDS,
        }),
        TargetName::Dust => Some(BadValue::Block {
            bytes: number_in(line, 5),
            least: MIN_BLOCK_BYTES,
            most: MAX_BLOCK_BYTES,
        }),
        TargetName::Delay => Some(BadValue::Delay { most: MAX_DELAY }),
        TargetName::Linear | TargetName::Error | TargetName::Fuse => None,
    }
}

/// Parses a line: returns the layer that its words ask for, or the error of the first failed test.
/// One or more spaces separate two words. Spaces before the first word and after the last are
/// ignored.
pub fn parse_line(line: &[u8]) -> Result<LayerSpec, TableError>
    ensures answer { result ≡ line_answer (words_of line.now) }
    // The layer's values are in their ranges.
    ensures range { IfOk result IsLayerSpec }
{
    let count = count_words(line);
    if count < 3 {
        return Err(TableError::WrongCount);
    }
    let name = TargetName::of_word(word_in(line, 2)).ok_or(TableError::UnknownTarget)?;
    if !name.may_have(count) {
        return Err(TableError::WrongCount);
    }
    if !has_numbers(line, name.number_places(count)) {
        return Err(TableError::BadNumber);
    }
    let target = target_in(line, name).ok_or(TableError::BadFeature)?;
    let spec = LayerSpec {
        length: number_in(line, 1),
        offset: offset_in(line, name),
        target,
    };
    if number_in(line, 0) != 0 || !is_in_range(spec) || !has_one_place(line, name) {
        return Err(TableError::OutOfRange);
    }
    Ok(spec)
}

// Returns the word at `place`, counted from 0, or an empty word if there is none.
fn word_in(line: &[u8], place: usize) -> &[u8]
    ensures { result.now ≡ word_in (words_of line.now) place }
{
    word_at(line, place).unwrap_or_default()
}

// Returns whether the words at these places are numbers.
fn has_numbers(line: &[u8], places: &[usize]) -> bool
    ensures { result ≡ list_all (has_number (words_of line.now)) places.now }
{
    places.iter().all(|place| has_number(line, *place))
}

// Returns whether the word at `place` is a number.
fn has_number(line: &[u8], place: usize) -> bool
    ensures { result ≡ has_number (words_of line.now) place }
{
    number_of(word_in(line, place)).is_some()
}

// Returns the number at `place`, or 0 if the word there isn't a number. `parse_line` tests the
// numbers first.
fn number_in(line: &[u8], place: usize) -> u64
    ensures { result ≡ number_in (words_of line.now) place }
{
    number_of(word_in(line, place)).unwrap_or_default()
}

// Returns the line's offset on the lower device; 0 for an error line.
fn offset_in(line: &[u8], name: TargetName) -> u64
    ensures { result ≡ offset_in name (words_of line.now) }
{
    match name {
        TargetName::Error => 0,
        _ => number_in(line, 4),
    }
}

// Returns the target that a line with the target name `name` asks for, or None if a flakey line's
// feature doesn't exist.
fn target_in(line: &[u8], name: TargetName) -> Option<Target>
    ensures { result ≡ (row name).target (words_of line.now) }
{
    Some(match name {
        TargetName::Linear => Target::Linear,
        TargetName::Error => Target::Error,
        TargetName::Flakey => Target::Flakey {
            up: number_in(line, 5),
            down: number_in(line, 6),
            feature: feature_in(line)?,
        },
        TargetName::Fuse => Target::Fuse {
            calls: number_in(line, 5),
        },
        TargetName::Dust => Target::Dust {
            block_bytes: number_in(line, 5),
        },
        TargetName::Delay => delay_in(line),
    })
}

// Returns the target of a delay line. Its groups (device, offset, delay) are for reads, for writes
// and for flushes, in this order. A missing group has the delay of the group before it.
fn delay_in(line: &[u8]) -> Target
    ensures { result ≡ delay_in (words_of line.now) }
{
    let read = number_in(line, 5);
    let write = later_delay(line, 6, read);
    let flush = later_delay(line, 9, write);
    Target::Delay { read, write, flush }
}

// Returns the delay of the group (device, offset, delay) from word `place` on. If there is no word
// at `place`, returns `before`.
fn later_delay(line: &[u8], place: usize, before: u64) -> u64
    requires { place < 2 ^ 32 }
    ensures { result ≡ later_delay (words_of line.now) place before }
{
    if word_at(line, place).is_none() {
        return before;
    }
    number_in(line, place + 2)
}

// Returns whether all groups of a delay line name the same device and offset. Other lines pass.
fn has_one_place(line: &[u8], name: TargetName) -> bool
    ensures { result ≡ has_one_place name (words_of line.now) }
{
    name != TargetName::Delay || (is_same_place(line, 6) && is_same_place(line, 9))
}

// Returns whether the group from word `place` on has the device and offset of the first group. A
// missing group passes.
fn is_same_place(line: &[u8], place: usize) -> bool
    requires { place < 2 ^ 32 }
    ensures { result ≡ is_same_place (words_of line.now) place }
{
    match word_at(line, place) {
        Some(device) => {
            word_in(line, 3) == device && number_in(line, 4) == number_in(line, place + 1)
        }
        None => true,
    }
}

// Returns the feature that a flakey line's words after its seconds name, or None if there is no
// such feature.
fn feature_in(line: &[u8]) -> Option<Feature>
    ensures { result ≡ feature_in (words_of line.now) }
{
    match (word_at(line, 7), word_at(line, 8)) {
        (None, _) => Some(Feature::None),
        (Some(b"0"), None) => Some(Feature::None),
        (Some(b"1"), Some(name)) => feature_of(name),
        (Some(_), _) => None,
    }
}

// Returns the feature with the name `name`, or None.
fn feature_of(name: &[u8]) -> Option<Feature>
    ensures { result ≡ feature_named name.now }
{
    if name == b"error_reads".as_slice() {
        Some(Feature::ErrorReads)
    } else if name == b"error_writes".as_slice() {
        Some(Feature::ErrorWrites)
    } else if name == b"drop_writes".as_slice() {
        Some(Feature::DropWrites)
    } else {
        None
    }
}

// The name of a target. It decides how many words a line may have, and which words are numbers.
// `parse_line` tests both before it parses a value.
#[derive(Clone, Copy, Debug, PartialEq, Eq)]
pub(crate) enum TargetName {
    Linear,
    Error,
    Flakey,
    Fuse,
    Dust,
    Delay,
}

impl TargetName {
    // Returns the target name that `word` is, or None.
    fn of_word(word: &[u8]) -> Option<TargetName>
        ensures { result ≡ named_target word.now }
    {
        if word == b"linear".as_slice() {
            Some(TargetName::Linear)
        } else if word == b"error".as_slice() {
            Some(TargetName::Error)
        } else if word == b"flakey".as_slice() {
            Some(TargetName::Flakey)
        } else if word == b"fuse".as_slice() {
            Some(TargetName::Fuse)
        } else if word == b"dust".as_slice() {
            Some(TargetName::Dust)
        } else if word == b"delay".as_slice() {
            Some(TargetName::Delay)
        } else {
            None
        }
    }

    // Returns whether a line of this target may have `count` words.
    fn may_have(self, count: usize) -> bool
        ensures { result ≡ list_any (nat_eq count) (row self).counts }
    {
        match self {
            TargetName::Linear => count == 5,
            TargetName::Error => count == 3,
            TargetName::Flakey => (7..=9).contains(&count),
            TargetName::Fuse | TargetName::Dust => count == 6,
            TargetName::Delay => count == 6 || count == 9 || count == 12,
        }
    }

    // Returns the places of the numbers in a line of this target that has `count` words.
    fn number_places(self, count: usize) -> &'static [usize]
        ensures { result.now ≡ (row self).places count }
    {
        match self {
            TargetName::Linear => &[0, 1, 4],
            TargetName::Error => &[0, 1],
            TargetName::Flakey => &[0, 1, 4, 5, 6],
            TargetName::Fuse | TargetName::Dust => &[0, 1, 4, 5],
            TargetName::Delay => match count {
                6 => &[0, 1, 4, 5],
                9 => &[0, 1, 4, 5, 7, 8],
                _ => &[0, 1, 4, 5, 7, 8, 10, 11],
            },
        }
    }
}

// Returns whether the length and the target's values of `spec` are in their ranges.
fn is_in_range(spec: LayerSpec) -> bool
    ensures { result ≡ is_within spec }
{
    if spec.length == 0 || spec.length > MAX_DEVICE_SECTORS {
        return false;
    }
    match spec.target {
        Target::Flakey { up, down, .. } => is_cycle(up, down),
        Target::Dust { block_bytes } => is_block_size(block_bytes),
        Target::Delay { read, write, flush } => are_delays(read, write, flush),
        Target::Linear | Target::Error | Target::Fuse { .. } => true,
    }
}

// Returns whether a flakey device may be up and down for these seconds.
fn is_cycle(up: u64, down: u64) -> bool
    ensures { result ≡ is_cycle up down }
{
    let seconds = up.saturating_add(down);
    seconds > 0 && seconds <= MAX_CYCLE_SECONDS
}

// Returns whether a dust device's blocks may have `bytes` bytes.
fn is_block_size(bytes: u64) -> bool
    ensures { result ≡ is_block_size bytes }
{
    bytes.is_power_of_two() && (MIN_BLOCK_BYTES..=MAX_BLOCK_BYTES).contains(&bytes)
}

// Returns whether a delay device may have these delays, in milliseconds.
fn are_delays(read: u64, write: u64, flush: u64) -> bool
    ensures { result ≡ are_delays read write flush }
{
    read <= MAX_DELAY && write <= MAX_DELAY && flush <= MAX_DELAY
}

/// Appends the canonical text of a layer, such as `0 16 flakey disk 0 10 5 1 drop_writes`. Numbers
/// have no leading zeroes, and one space separates two words. The device's name is always `disk`.
/// If the layer has no feature, the text has no feature count. If the layer's values are in their
/// ranges, `parse_line` parses the text as that layer. If an allocation fails, returns an error.
pub fn push_line(out: &mut Vec<u8>, spec: &LayerSpec) -> Result<(), AllocError>
    ensures { OnOk result (out.new.items ≡ out.old.items ++ layer_text spec.now) }
{
    out.push(b'0')?;
    push_value(out, spec.length)?;
    push_target(out, spec.offset, spec.target)
}

// Appends a target's words, each after a space.
fn push_target(out: &mut Vec<u8>, offset: u64, target: Target) -> Result<(), AllocError>
    ensures { OnOk result (out.new.items
        ≡ out.old.items ++ behind_spaces (target_words offset target)) }
{
    match target {
        Target::Linear => push_place(out, b" linear disk", offset),
        Target::Error => out.extend_from_slice(b" error"),
        Target::Flakey { up, down, feature } => {
            push_place(out, b" flakey disk", offset)?;
            push_turns(out, up, down, feature)
        }
        Target::Fuse { calls } => {
            push_place(out, b" fuse disk", offset)?;
            push_value(out, calls)
        }
        Target::Dust { block_bytes } => {
            push_place(out, b" dust disk", offset)?;
            push_value(out, block_bytes)
        }
        Target::Delay { read, write, flush } => {
            push_place(out, b" delay disk", offset)?;
            push_value(out, read)?;
            push_delays(out, offset, read, write, flush)
        }
    }
}

// Appends a delay target's write and flush groups (`disk`, offset, delay), only if the delays
// differ. If the write and flush delays are equal, it omits the flush group.
fn push_delays(
    out: &mut Vec<u8>,
    offset: u64,
    read: u64,
    write: u64,
    flush: u64,
) -> Result<(), AllocError>
    ensures { OnOk result (out.new.items
        ≡ out.old.items ++ behind_spaces (later_sets offset read write flush)) }
{
    if read == write && write == flush {
        return Ok(());
    }
    push_set(out, offset, write)?;
    if write == flush {
        return Ok(());
    }
    push_set(out, offset, flush)
}

// Appends a group of a delay target: `disk`, the offset and the delay.
fn push_set(out: &mut Vec<u8>, offset: u64, delay: u64) -> Result<(), AllocError>
    ensures { OnOk result (out.new.items
        ≡ out.old.items ++ behind_spaces (set_words offset delay)) }
{
    push_place(out, b" disk", offset)?;
    push_value(out, delay)
}

// Appends a flakey target's words after its offset: the seconds up and down, and the feature.
fn push_turns(out: &mut Vec<u8>, up: u64, down: u64, feature: Feature) -> Result<(), AllocError>
    ensures { OnOk result (out.new.items
        ≡ out.old.items ++ behind_spaces (decimal up ∷ decimal down ∷ feature_words feature)) }
{
    push_value(out, up)?;
    push_value(out, down)?;
    push_feature(out, feature)
}

// Appends `place`, such as ` linear disk`, and the offset.
fn push_place(out: &mut Vec<u8>, place: &[u8], offset: u64) -> Result<(), AllocError>
    ensures { OnOk result (out.new.items
        ≡ out.old.items ++ (place.now ++ behind_spaces (decimal offset ∷ []))) }
{
    out.extend_from_slice(place)?;
    push_value(out, offset)
}

// Appends a space and a number.
fn push_value(out: &mut Vec<u8>, value: u64) -> Result<(), AllocError>
    ensures { OnOk result (out.new.items ≡ out.old.items ++ behind_spaces (decimal value ∷ [])) }
{
    out.push(b' ')?;
    push_number(out, value)
}

// Appends a feature's count and name, or nothing if there is no feature.
fn push_feature(out: &mut Vec<u8>, feature: Feature) -> Result<(), AllocError>
    ensures { OnOk result (out.new.items ≡ out.old.items ++ behind_spaces (feature_words feature)) }
{
    match feature {
        Feature::None => Ok(()),
        Feature::ErrorReads => out.extend_from_slice(b" 1 error_reads"),
        Feature::ErrorWrites => out.extend_from_slice(b" 1 error_writes"),
        Feature::DropWrites => out.extend_from_slice(b" 1 drop_writes"),
    }
}
