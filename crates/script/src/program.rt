//! A script with the settings of its house: the house is made, and the script is run in it. How a line is done is told in `run`, and
//! what the settings are elsewhere.

ghost use Rattle.std.specs.Prelude.{◌≡◌, ◌⊎◌, ℕ, List, None, Some, Err, OnOk, false, true};
ghost use Rattle.house.specs.Setup.{setup_of};
ghost use Rattle.settings.specs.Settings.{IsInRange, config_fault};
ghost use Rattle.settings.specs.declared.config.ConfigFault.{ConfigFault};
ghost use Rattle.script.specs.Promise.{DeliveredOnce};
ghost use Rattle.script.specs.Wrote.{WroteOnce};
ghost use Rattle.script.specs.Runs.{ScriptTold, ScriptWrote, script_fault};
ghost use Rattle.script.specs.Script.{script_of};
ghost use Rattle.script.specs.Telling.{lines_of};

use crate::run::{RunFault, drive_as};
use house::House;
use line_io::Sink;
use settings::{Config, ConfigFault, Form};
use std::alloc::Global;
use std::io::BufRead;
use thiserror::Error;

/// Why a script was not run to its end.
#[derive(Clone, Copy, Debug, PartialEq, Eq, Error)]
pub enum ScriptFault {
    /// The settings are wrong, and nothing was read or written. Want of memory is no such fault.
    #[error("bad configuration: {0}")]
    Config(ConfigFault),
    /// The run ended before the end of its input, or memory was wanting for its house.
    #[error("{0}")]
    Run(RunFault),
}

// Want of memory is no fault of the settings.
impl From<ConfigFault> for ScriptFault {
    ghost from_gives = { λ fault made. made ≡ script_fault fault };

    fn from(fault: ConfigFault) -> ScriptFault {
        match fault {
            ConfigFault::NoMemory => ScriptFault::Run(RunFault::NoMemory),
            fault => ScriptFault::Config(fault),
        }
    }
}

/// Makes a house of these settings and runs a script in it to the end of its input: each line is done, the house settles, and what tells
/// of the line in this form is written at once.
///
/// Whatever comes of it, where the form is text: each recipient copy that was answered 250 in what was written stands in its mailbox's
/// history exactly once, under one UID, and the copies of each connection in the order in which it sent them; no copy was taken from a
/// shard after its close; and what a session was shown since its SELECT is exactly the mailbox's changes up to its cursor, in order.
/// In either form the same holds of what the lines printed of which was told.
///
/// Errors: `Config` with the first fault of the settings, before anything is read or written; else `Run`, as of `drive`, and for want of
/// memory also where the house could not be made.
pub fn run_script<R: BufRead, W: Sink>(
    form: Form,
    alloc: Global,
    config: &Config,
    reader: &mut R,
    writer: &mut W,
) -> Result<(), ScriptFault>
    // Each number is in its range, and there is a mailbox: `Config::is_in_range`. The writer hasn't failed.
    requires range { IsInRange config.now }
    requires live { W.failed writer.old ≡ false }

    // By a reader whose bytes are known: what was told of its lines, by the result.
    ensures told { (input : List ℕ) → R.remaining reader.old ≡ Some input →
        ScriptTold form config.now (lines_of input) result (W.taken writer.old)
        (W.taken writer.new) }

    // As text that is what the script prints. Whatever the result it delivers exactly once, and is what some of the first lines print.
    ensures wrote { form ≡ Form.Text → (input : List ℕ) → R.remaining reader.old ≡ Some input →
        ScriptWrote config.now (script_of input) result (W.taken writer.old) (W.taken writer.new) }
    ensures once { form ≡ Form.Text → (input : List ℕ) → R.remaining reader.old ≡ Some input →
        DeliveredOnce (setup_of config.now) (W.taken writer.old) (W.taken writer.new) }
    ensures played { form ≡ Form.Text → (input : List ℕ) → R.remaining reader.old ≡ Some input →
        WroteOnce (setup_of config.now) (script_of input) (W.taken writer.old)
        (W.taken writer.new) }

    // The first fault of the settings is told. Where they have one it is told, or want of memory is, and nothing was read or written.
    ensures wrong { (fault : ConfigFault) → result ≡ Err (ScriptFault.Config fault)
        → config_fault config.now ≡ Some fault }
    ensures right { OnOk result (config_fault config.now ≡ None) }
    ensures refused { (fault : ConfigFault) → config_fault config.now ≡ Some fault
        → ((result ≡ Err (script_fault fault)) ⊎ (result ≡ Err (ScriptFault.Run RunFault.NoMemory)))
        × (reader.new ≡ reader.old) × (writer.new ≡ writer.old) }
    ensures failed { (sent : ℕ) → result ≡ Err (ScriptFault.Run (RunFault.Write sent))
        → W.failed writer.new ≡ true }
{
    let mut house = match House::new(alloc, config) {
        Ok(house) => house,
        Err(fault) => return Err(ScriptFault::from(fault)),
    };
    match drive_as(form, alloc, &mut house, reader, writer) {
        Ok(()) => Ok(()),
        Err(fault) => Err(ScriptFault::Run(fault)),
    }
}
