//! What is said last where the house stops or memory is refused, and that it is sent. When that is, is
//! for `talk`.

ghost use Rattle.std.specs.Prelude.{◌≡◌, ◌≢◌, ◌++◌, false, true, OnOk, OnErr, Err};
ghost use Rattle.lmtp_machine.specs.Conversation.{Conversation};
ghost use Rattle.lmtp_machine.specs.LmtpMachine.{StandsFor};
ghost use Rattle.lmtp_machine.specs.Dialogue.{wire};
ghost use Rattle.lane_work.specs.Streaming.{AreGivenUp, SaysLast};
ghost use Rattle.lane_work.specs.Talk.{last_words};

use crate::outcome::{Ending, TalkFault};
use line_io::{Sink, send};
use lmtp_machine::LmtpMachine;
use std::alloc::AllocError;

// Says that the server shuts down, where the dialogue goes on and isn't within a message's data.
fn say_last(machine: &mut LmtpMachine, out: &mut Vec<u8>) -> Result<(), AllocError>
    ensures said { OnOk result ((c : Conversation) → StandsFor machine.old c →
        out.new.items ≡ out.old.items ++ wire machine.old.host (last_words c.standing.phase)) }
    ensures err { OnErr result (out.new.items ≡ out.old.items) }
{
    if machine.has_ended() {
        return Ok(());
    }
    if machine.is_within_data() {
        return Ok(());
    }
    machine.shut(out)?;
    Ok(())
}

// Sends what was said, if it can be, where memory was refused.
pub(crate) fn give_up<O: Sink>(output: &mut O, out: &[u8]) -> TalkFault
    requires live { O.failed output.old ≡ false }
    ensures fault { result ≡ TalkFault.NoMemory }
    ensures sent { AreGivenUp (O.taken output.old) (O.taken output.new) (O.failed output.new)
        out.now }
{
    let _ = send(output, out);
    TalkFault::NoMemory
}

// Says what is said last, and sends it behind what was said before.
pub(crate) fn shut_down<O: Sink>(
    machine: &mut LmtpMachine,
    output: &mut O,
    out: &mut Vec<u8>,
) -> Result<Ending, TalkFault>
    requires live { O.failed output.old ≡ false }

    // Its last words, by where the dialogue stands, were sent behind `out`; or not, for the sink's failure or for want of memory.
    ensures last { (c : Conversation) → StandsFor machine.old c →
        SaysLast (O.taken output.old) (O.taken output.new) (O.failed output.new) machine.old.host
        out.old.items c.standing.phase result }

    // Without an error the sink hasn't failed; after `Write` it has.
    ensures live { OnOk result (O.failed output.new ≡ false) }
    ensures torn { result ≢ Err TalkFault.Torn }
    ensures failed { result ≡ Err TalkFault.Write → O.failed output.new ≡ true }
{
    let Ok(()) = say_last(machine, out) else {
        return Err(give_up(output, out.as_slice()));
    };
    let Ok(()) = send(output, out.as_slice()) else {
        return Err(TalkFault::Write);
    };
    Ok(Ending::Stopped)
}
