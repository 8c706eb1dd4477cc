//! Parses a message to a device with bad blocks, written as for dm-dust. `Dust` passes the order to
//! `apply`, and refuses a message that asks for none.
ghost use Rattle.std.specs.Prelude.{◌≡◌, ◌↔◌, ◌<◌, Some, option_copied};
ghost use Rattle.dust_layer.specs.declared.order.Order.{Order};
ghost use Rattle.dust_layer.specs.Orders.{AsksFor};
ghost use Rattle.dust_layer.specs.inside.{add_of as the_add, word_count as the_count};
ghost use Rattle.dust_layer.specs.inside.{lone_order as the_lone_order, order_of as the_order};
ghost use Rattle.dust_layer.specs.inside.{order_with as the_order_with};

use refusals::{cut, number_of};

/// What a message to a device with bad blocks asks for.
#[derive(Clone, Copy, Debug, PartialEq, Eq)]
pub enum Order {
    /// `addbadblock <block> [<count>]`: lists a block, with the count of writes and discards that
    /// it fails before one passes.
    Add { block: u64, count: u8 },
    /// `removebadblock <block>`: removes a block from the list.
    Remove { block: u64 },
    /// `clearbadblocks`: removes all blocks from the list.
    Clear,
    /// `enable`: calls at listed blocks fail from now on.
    Enable,
    /// `disable`: no call fails, and the list stays.
    Disable,
}

/// Returns the order that the message `text` asks for, or None if it asks for none. Exactly one
/// space separates two words. A number has 1 to 20 decimal digits and is below 2^64. A count is 0
/// to 255, and 0 if none is given.
#[tactic(auto, using(crate::proofs::OrderLaws::order_again, crate::proofs::OrderLaws::order_read))]
pub fn order_of(text: &[u8]) -> Option<Order>
    ensures { (order : Order) → (result ≡ Some order) ↔ AsksFor text.now order }
{
    read_order(text)
}

// Parses the order, word by word.
fn read_order(text: &[u8]) -> Option<Order>
    ensures { result ≡ the_order text.now }
{
    match cut(text, b' ') {
        (verb, Some(words)) => order_with(verb, words),
        (verb, None) => lone_order(verb),
    }
}

// Returns the order whose only word is `verb`, or None.
fn lone_order(verb: &[u8]) -> Option<Order>
    ensures { result ≡ the_lone_order verb.now }
{
    if verb == b"clearbadblocks".as_slice() {
        Some(Order::Clear)
    } else if verb == b"enable".as_slice() {
        Some(Order::Enable)
    } else if verb == b"disable".as_slice() {
        Some(Order::Disable)
    } else {
        None
    }
}

// Returns the order with the first word `verb` and the other words `words`, or None.
fn order_with(verb: &[u8], words: &[u8]) -> Option<Order>
    ensures { result ≡ the_order_with verb.now words.now }
{
    if verb == b"addbadblock".as_slice() {
        add_of(words)
    } else if verb == b"removebadblock".as_slice() {
        Some(Order::Remove {
            block: number_of(words)?,
        })
    } else {
        None
    }
}

// Returns the order to list a block, given the words after `addbadblock`, or None.
fn add_of(words: &[u8]) -> Option<Order>
    ensures { result ≡ the_add words.now }
{
    let (block, count) = cut(words, b' ');
    Some(Order::Add {
        block: number_of(block)?,
        count: count_of(count)?,
    })
}

// Returns the count that `word` gives, or None if it gives none. No word means count 0.
fn count_of(word: Option<&[u8]>) -> Option<u8>
    ensures { result ≡ the_count (option_copied word.entry) }
{
    match word {
        Some(word) => u8::try_from(number_of(word)?).ok(),
        None => Some(0),
    }
}
