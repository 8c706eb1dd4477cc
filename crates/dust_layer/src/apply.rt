//! Does what a message to a device with bad blocks asks for, or refuses it.
//! `Dust` calls `apply` for each order that `order_of` parses.
ghost use Rattle.std.specs.Prelude.{◌<◌, ◌↔◌, IsTrue};
ghost use Rattle.dust_layer.specs.Walk.{listed_counts};
ghost use Rattle.dust_layer.specs.Orders.{AnswersOrder, BlockIsWithin};

use crate::bad_blocks::BadBlocks;
use crate::order::Order;
use blockdev::MessageError;

/// Returns whether the first sector of a block is within a layer of `sectors` sectors. A block has
/// `size` sectors.
pub(crate) fn is_within(block: u64, size: u64, sectors: u64) -> bool
    requires some { 0 < size }
    ensures { IsTrue result ↔ BlockIsWithin block size sectors }
{
    sectors > 0 && block <= (sectors - 1) / size
}

/// Does an order over blocks of `size` sectors, in a layer of `sectors` sectors. If the order's
/// block isn't within the layer, it fails with BadMessage. Adding a listed block fails with
/// AlreadyBad. Adding an unlisted block fails with Memory if an allocation fails. Removing an
/// unlisted block fails with NotBad. After an error the list and the mode are unchanged.
pub(crate) fn apply(
    bad: &mut BadBlocks,
    enabled: &mut bool,
    size: u64,
    sectors: u64,
    order: Order,
) -> Result<(), MessageError>
    requires some { 0 < size }
    ensures { AnswersOrder size sectors order result (listed_counts bad.old) enabled.old
        (listed_counts bad.new) enabled.new }
{
    match order {
        Order::Add { block, count } => {
            if !is_within(block, size, sectors) {
                return Err(MessageError::BadMessage);
            }
            bad.list(block, count)
        }
        Order::Remove { block } => {
            if !is_within(block, size, sectors) {
                return Err(MessageError::BadMessage);
            }
            bad.unlist(block)
        }
        Order::Clear => {
            bad.clear();
            Ok(())
        }
        Order::Enable => {
            *enabled = true;
            Ok(())
        }
        Order::Disable => {
            *enabled = false;
            Ok(())
        }
    }
}
