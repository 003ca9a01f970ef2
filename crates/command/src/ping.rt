// PING 0x00.
ghost use Rattle.std.specs.Prelude.{◌≡◌, ◌≤◌, length};
ghost use Rattle.carrying.specs.Ending.{left, leaves};
ghost use Rattle.command.specs.Ping.{ping_of};

use carrying::Ended;

pub fn ping(reply: &mut [u8]) -> Ended
    requires { 17 ≤ length reply.old }
    ensures { left result reply.new tt ≡ leaves ping_of reply.old tt }
{
    memory::bytes::put(b"WHEEL UNIT NSP 01", reply, 0);
    Ok(17)
}
