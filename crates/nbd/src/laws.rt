//! Laws about several calls of a server.
ghost use Rattle.nbd.specs.Serving.{ServerFrame};
ghost use Rattle.nbd.specs.declared.server.Server.{Server};

use blockdev::BlockDev;

/// `ServerFrame` holds for no call, and for two calls in a row if it holds for each of them. So what
/// `RecorderFrame` says of a recorder's crashes holds of a whole session.
#[tactic(auto, using(crate::proofs::Frames::frames_join))]
pub fn servers_go_as_one<D: BlockDev + Drop, L: BlockDev + Drop>()
    ensures none { (server : Server D L D.BlockDev L.BlockDev) → ServerFrame server server }
    ensures two { (old mid new : Server D L D.BlockDev L.BlockDev)
        → ServerFrame old mid → ServerFrame mid new → ServerFrame old new }
{
    recorder::laws::several_calls_go_as_one::<L>();
}
