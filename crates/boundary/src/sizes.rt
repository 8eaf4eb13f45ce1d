ghost use Rattle.std.specs.Prelude.{◌≡◌};

use policy::Fixed;
use receiver::Receiver;
use standard::StandardBoard;
use std::mem::size_of;

const RECEIVER: usize = size_of::<Receiver<StandardBoard<'static>, Fixed>>();

/// How many bytes the standard receiver has, with its board and its policy, but without the slots of the ring bearers.
#[unsafe(no_mangle)]
pub extern "C" fn zuphlos_receiver_size() -> usize
    ensures value { result ≡ RECEIVER }
{
    RECEIVER
}
